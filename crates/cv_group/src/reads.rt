ghost use Rattle.std.specs.Prelude.{◌≡◌, ◌||◌, ℕ, true, length, IfOk, OnOk};
ghost use Rattle.cv_pool.specs.Nodes.{ChildBelow};
ghost use Rattle.cv_syntax.specs.NameSets.{is_in};
ghost use Rattle.cv_syntax_trees.specs.Tree.{bound_names, second};
ghost use Rattle.cv_syntax.specs.PoolTrees.{tree_at};
ghost use Rattle.cv_group.specs.shapes.Shapes.{are_taken, without_all};
ghost use Rattle.cv_group_rules.specs.Rules as rule;
ghost use Rattle.cv_group_rules.specs.Rules.{each_function, taken_names};

use cv_syntax::children::{first_of, second_of};
use cv_syntax::{Head, NodeId, Pool, read_node};
use std::alloc::{AllocError, Global};
use std::collections::HashSet;

/// Notes the name that a node reads.
fn note_read(names: &mut HashSet<u32>, head: Head) -> Result<(), AllocError>
    ensures { OnOk result ((x : ℕ) → is_in names.new x
        ≡ (is_in names.old x || rule.names_here head x)) }
{
    if let Head::Leaf(x) = head {
        names.insert(x)?;
    }
    Ok(())
}

/// Notes the names that a term reads.
fn note_reads(pool: &Pool, names: &mut HashSet<u32>, term: Option<NodeId>) -> Result<(), AllocError>
    requires { ChildBelow (length pool.now.trees) term }
    ensures { OnOk result ((x : ℕ) → is_in names.new x
        ≡ (is_in names.old x || rule.reads (tree_at pool.now.trees term) x)) }
{
    let mut at = term;
    'term: while let Some(k) = at {
        let node = read_node(pool, k);
        note_read(names, node.head)?;
        note_reads(pool, names, node.first)?;
        at = node.second;
    }
    Ok(())
}

/// Takes the names of a list of binders out of a set, as long as each is there, and says whether all were.
fn take_names(pool: &Pool, names: &mut HashSet<u32>, binders: Option<NodeId>) -> bool
    requires { ChildBelow (length pool.now.trees) binders }
    ensures taken { result ≡ are_taken (is_in names.old)
        (bound_names (tree_at pool.now.trees binders)) }
    ensures left { result ≡ true → is_in names.new
        ≡ without_all (is_in names.old) (bound_names (tree_at pool.now.trees binders)) }
{
    let mut at = binders;
    'binders: while let Some(k) = at {
        let cell = read_node(pool, k);
        let Head::Binder(x, _) = cell.head else {
            return true;
        };
        if !names.remove(&x) {
            return false;
        }
        at = cell.second;
    }
    true
}

/// Whether the body of a function reads its key and all that the function takes.
fn is_read(
    alloc: Global,
    pool: &Pool,
    key: Option<NodeId>,
    function: Option<NodeId>,
) -> Result<bool, AllocError>
    requires key { ChildBelow (length pool.now.trees) key }
    requires function { ChildBelow (length pool.now.trees) function }
    ensures { IfOk result (λ yes. yes
        ≡ rule.are_read (rule.reads (second (tree_at pool.now.trees function)))
        (taken_names (tree_at pool.now.trees key) (tree_at pool.now.trees function))) }
{
    let mut names = HashSet::new(alloc);
    note_reads(pool, &mut names, second_of(pool, function))?;
    let taken = first_of(pool, function);
    if !take_names(pool, &mut names, key) {
        return Ok(false);
    }
    if !take_names(pool, &mut names, first_of(pool, taken)) {
        return Ok(false);
    }
    Ok(take_names(pool, &mut names, second_of(pool, taken)))
}

/// Whether the bodies of functions read the key and all that the functions take.
pub fn are_read(
    alloc: Global,
    pool: &Pool,
    key: Option<NodeId>,
    functions: Option<NodeId>,
) -> Result<bool, AllocError>
    requires key { ChildBelow (length pool.now.trees) key }
    requires functions { ChildBelow (length pool.now.trees) functions }
    ensures { IfOk result (λ yes. yes ≡ each_function
        (λ f. rule.are_read (rule.reads (second f)) (taken_names (tree_at pool.now.trees key) f))
        (tree_at pool.now.trees functions)) }
{
    let mut at = functions;
    'list: while let Some(k) = at {
        let node = read_node(pool, k);
        if !is_read(alloc, pool, key, node.first)? {
            return Ok(false);
        }
        at = node.second;
    }
    Ok(true)
}
