ghost use Rattle.std.specs.Prelude.{◌≡◌, true, [], length, map, IfOk};
ghost use Rattle.cv_pool.specs.Nodes.{ChildBelow};
ghost use Rattle.cv_syntax.specs.PoolTrees.{tree_at};
ghost use Rattle.cv_group.specs.bodies.Levels.{HasBound, around_of, branch_passes, level_of, node_passes, term_passes};
ghost use Rattle.cv_group_rules.specs.Rules as rule;

use crate::bodies::around::Around;
use crate::bodies::cells::{are_cells, found, has_cell_at};
use crate::bodies::levels::{Level, is_asked_at, is_readable};
use cv_syntax::children::first_of;
use cv_syntax::{Head, NodeId, Opened, Pool, read_node};
use std::alloc::{AllocError, Global};

/// Whether a name, with the indices at which it is read, is bound below these levels, or may be called.
fn term_passes(
    pool: &Pool,
    around: &Around,
    levels: &[Level],
    head: Head,
    indices: Option<NodeId>,
) -> bool
    requires { ChildBelow (length pool.now.trees) indices }
    ensures { result ≡ term_passes (around_of around.now) (map level_of levels.now) head
        (tree_at pool.now.trees indices) }
{
    match head {
        Head::Leaf(x) => is_readable(around, levels, x),
        Head::Read(v) => is_asked_at(pool, levels, v, indices),
        Head::Apply(f) => around.is_callable(f),
        _ => true,
    }
}

/// Goes into a branch with these indices and cells, and says whether its cells may stand.
#[tactic(auto, using(cv_syntax::proofs::Trees::opened))]
fn enter_branch(
    alloc: Global,
    pool: &Pool,
    around: &Around,
    levels: &mut Vec<Level>,
    indices: Option<NodeId>,
    cells: Option<NodeId>,
) -> Result<bool, AllocError>
    requires indices { ChildBelow (length pool.now.trees) indices }
    requires cells { ChildBelow (length pool.now.trees) cells }
    ensures pass { IfOk result (λ yes. yes ≡ branch_passes (around_of around.now)
        (map level_of levels.old.items) (tree_at pool.now.trees indices)
        (tree_at pool.now.trees cells)) }
    ensures more { IfOk result (λ yes. yes ≡ true → HasBound levels.old.items levels.new.items
        (rule.found (tree_at pool.now.trees indices) (tree_at pool.now.trees cells))) }
{
    let Some(k) = indices else {
        return Ok(false);
    };
    let Head::Binder(index, bound) = read_node(pool, k).head else {
        return Ok(false);
    };
    levels.push(found(alloc, pool, index, bound, cells)?)?;
    Ok(has_cell_at(pool, index, cells) && are_cells(pool, around, levels.as_slice(), cells))
}

/// Binds what a node binds for its second child, and says whether the cells of a branch may stand.
fn enter(
    alloc: Global,
    pool: &Pool,
    around: &Around,
    levels: &mut Vec<Level>,
    node: Opened,
) -> Result<bool, AllocError>
    requires first { ChildBelow (length pool.now.trees) node.first }
    requires second { ChildBelow (length pool.now.trees) node.second }
    ensures pass { IfOk result (λ yes. yes ≡ node_passes (around_of around.now)
        (map level_of levels.old.items) node.head (tree_at pool.now.trees node.first)
        (tree_at pool.now.trees node.second)) }
    ensures more { IfOk result (λ yes. yes ≡ true → HasBound levels.old.items levels.new.items
        (rule.behind node.head (tree_at pool.now.trees node.first)
        (tree_at pool.now.trees node.second))) }
{
    match node.head {
        Head::New(x, _) | Head::Let(x, _) => {
            levels.push(Level::Defined(x))?;
            Ok(true)
        }
        Head::Branch => {
            let cells = first_of(pool, node.second);
            enter_branch(alloc, pool, around, levels, node.first, cells)
        }
        _ => Ok(true),
    }
}

/// Whether each node of a part of a body names only what is bound there. Where it does, the levels are as before.
fn is_bound(
    alloc: Global,
    pool: &Pool,
    around: &Around,
    levels: &mut Vec<Level>,
    part: Option<NodeId>,
) -> Result<bool, AllocError>
    requires { ChildBelow (length pool.now.trees) part }
    ensures bound { IfOk result (λ yes. yes ≡ rule.is_bound (around_of around.now)
        (map level_of levels.old.items) (tree_at pool.now.trees part)) }
    ensures same { IfOk result (λ yes. yes ≡ true → levels.new.items ≡ levels.old.items) }
{
    let kept = levels.len();
    let mut at = part;
    'chain: while let Some(k) = at {
        let node = read_node(pool, k);
        if !term_passes(pool, around, levels.as_slice(), node.head, node.first) {
            return Ok(false);
        }
        if !is_bound(alloc, pool, around, levels, node.first)? {
            return Ok(false);
        }
        if !enter(alloc, pool, around, levels, node)? {
            return Ok(false);
        }
        at = node.second;
    }
    levels.truncate(kept);
    Ok(true)
}

/// Whether each node of a body names only what is bound there.
pub fn body_is_bound(
    alloc: Global,
    pool: &Pool,
    around: &Around,
    body: Option<NodeId>,
) -> Result<bool, AllocError>
    requires { ChildBelow (length pool.now.trees) body }
    ensures { IfOk result (λ yes. yes ≡ rule.is_bound (around_of around.now) []
        (tree_at pool.now.trees body)) }
{
    let mut levels = Vec::new(alloc);
    is_bound(alloc, pool, around, &mut levels, body)
}
