ghost use Rattle.std.specs.Prelude.{◌≡◌, ℕ, ◌&&◌, ◌||◌, IfOk, length, not};
ghost use Rattle.cv_pool.specs.Nodes.{ChildBelow};
ghost use Rattle.cv_syntax.specs.NameSets.{is_in, is_one_of};
ghost use Rattle.cv_syntax.specs.PoolTrees.{tree_at};
ghost use Rattle.cv_meaning.specs.Correspondences as query;
ghost use Rattle.cv_meaning.specs.Correspondences.{leaf_names, on_the_right_alone, reads};
ghost use Rattle.cv_query_entries.specs.terms.Reads.{head_is};

use cv_syntax::{Head, NodeId, Pool, read_node};
use std::alloc::{AllocError, Global};
use std::collections::HashSet;

/// The name that a tree is, or 0.
#[tactic(auto, using(crate::proofs::terms::Reading::reading))]
pub fn leaf_name(pool: &Pool, tree: Option<NodeId>) -> u32
    requires { ChildBelow (length pool.now.trees) tree }
    ensures { result ≡ query.leaf_name (tree_at pool.now.trees tree) }
{
    let Some(n) = tree else {
        return 0;
    };
    match read_node(pool, n).head {
        Head::Leaf(x) => x,
        _ => 0,
    }
}

/// Adds the names that are the items of a list.
#[tactic(auto, using(crate::proofs::terms::Reading::reading))]
fn add_leaves(pool: &Pool, names: &mut HashSet<u32>, list: Option<NodeId>) -> Result<(), AllocError>
    requires { ChildBelow (length pool.now.trees) list }
    ensures { IfOk result (λ u. (y : ℕ) → is_in names.new y
        ≡ (is_one_of (leaf_names (tree_at pool.now.trees list)) y || is_in names.old y)) }
{
    let mut at = list;
    'items: while let Some(n) = at {
        let cell = read_node(pool, n);
        names.insert(leaf_name(pool, cell.first))?;
        at = cell.second;
    }
    Ok(())
}

/// Adds the name that a node reads.
#[tactic(auto, using(crate::proofs::terms::Reading::reading))]
fn add_read(names: &mut HashSet<u32>, head: Head) -> Result<(), AllocError>
    ensures { IfOk result (λ u. (y : ℕ) → is_in names.new y
        ≡ (head_is head y || is_in names.old y)) }
{
    match head {
        Head::Leaf(x) | Head::Read(x) => {
            names.insert(x)?;
            Ok(())
        }
        _ => Ok(()),
    }
}

/// Adds the names that a tree reads.
#[tactic(auto, using(crate::proofs::terms::Reading::reading))]
fn add_reads(pool: &Pool, names: &mut HashSet<u32>, tree: Option<NodeId>) -> Result<(), AllocError>
    requires { ChildBelow (length pool.now.trees) tree }
    ensures { IfOk result (λ u. (y : ℕ) → is_in names.new y
        ≡ (reads (tree_at pool.now.trees tree) y || is_in names.old y)) }
{
    let mut at = tree;
    'chain: while let Some(n) = at {
        let node = read_node(pool, n);
        add_read(names, node.head)?;
        add_reads(pool, names, node.first)?;
        at = node.second;
    }
    Ok(())
}

/// The names that are the items of a list.
#[tactic(auto, using(crate::proofs::terms::Reading::reading))]
fn leaves_of(alloc: Global, pool: &Pool, list: Option<NodeId>) -> Result<HashSet<u32>, AllocError>
    requires { ChildBelow (length pool.now.trees) list }
    ensures { IfOk result (λ names. (y : ℕ) → is_in names y
        ≡ is_one_of (leaf_names (tree_at pool.now.trees list)) y) }
{
    let mut names = HashSet::new(alloc);
    add_leaves(pool, &mut names, list)?;
    Ok(names)
}

/// The names that a tree reads.
#[tactic(auto, using(crate::proofs::terms::Reading::reading))]
fn reads_of(alloc: Global, pool: &Pool, tree: Option<NodeId>) -> Result<HashSet<u32>, AllocError>
    requires { ChildBelow (length pool.now.trees) tree }
    ensures { IfOk result (λ names. (y : ℕ) → is_in names y
        ≡ reads (tree_at pool.now.trees tree) y) }
{
    let mut names = HashSet::new(alloc);
    add_reads(pool, &mut names, tree)?;
    Ok(names)
}

/// Whether a name is one of the second set and none of the first.
fn is_new_in(first: &HashSet<u32>, second: &HashSet<u32>, x: u32) -> bool
    ensures { result ≡ (is_in second.now x && not (is_in first.now x)) }
{
    second.contains(&x) && !first.contains(&x)
}

/// The variables of a query with their types that its right side reads and that are no argument of the left event.
#[tactic(auto, using(crate::proofs::terms::Reading::reading))]
pub fn right_alone(
    alloc: Global,
    pool: &Pool,
    binders: Option<NodeId>,
    variables: Option<NodeId>,
    right: Option<NodeId>,
) -> Result<Vec<(u32, u32)>, AllocError>
    requires binders { ChildBelow (length pool.now.trees) binders }
    requires variables { ChildBelow (length pool.now.trees) variables }
    requires right { ChildBelow (length pool.now.trees) right }
    ensures { IfOk result (λ found. found.items
        ≡ on_the_right_alone (tree_at pool.now.trees binders)
        (leaf_names (tree_at pool.now.trees variables)) (tree_at pool.now.trees right)) }
{
    let on_the_left = leaves_of(alloc, pool, variables)?;
    let on_the_right = reads_of(alloc, pool, right)?;
    let mut found = Vec::new(alloc);
    let mut at = binders;
    'binders: while let Some(n) = at {
        let cell = read_node(pool, n);
        let Head::Binder(x, t) = cell.head else {
            return Ok(found);
        };
        if is_new_in(&on_the_left, &on_the_right, x) {
            found.push((x, t))?;
        }
        at = cell.second;
    }
    Ok(found)
}
