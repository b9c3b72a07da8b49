ghost use Rattle.std.specs.Prelude.{◌≡◌, ◌+◌, ◌<◌, ◌≤◌, ◌^◌, All, ℕ, IfErr, IfOk, IsErrOf, OnOk, Some, length};
ghost use Rattle.cv_pool.specs.Nodes.{ChildBelow};
ghost use Rattle.cv_pool.specs.PoolView.{Grows};
ghost use Rattle.cv_syntax_trees.specs.Tree as tree;
ghost use Rattle.cv_syntax_trees.specs.Tree.{Node, Tree, subtree};
ghost use Rattle.cv_syntax.specs.PoolTrees.{tree_at};
ghost use Rattle.cv_meaning.specs.Replaced.{replaced};
ghost use Rattle.cv_path.specs.Places.{nodes_above};
ghost use Rattle.cv_path.specs.Ways.{led};
ghost use Rattle.cv_steps.specs.Changes.{change_at};
ghost use Rattle.cv_edit_places.specs.Changes.{TermIsLive, change_of, need_of, nodes_of};

use crate::building::build;
use crate::change::Change;
use cv_path::{PathError, Way, rebuilt, way_to};
use cv_pool::PoolError;
use cv_syntax::{Head, NodeId, Pool, kind_of};
use std::alloc::{AllocError, Global};

/// A node over two children.
#[tactic(auto, using(cv_pool::proofs::Growth::growth))]
fn join(pool: &mut Pool, head: Head, first: Option<NodeId>, second: Option<NodeId>) -> NodeId
    requires spare { 0 < pool.old.spare }
    requires first { ChildBelow (length pool.old.trees) first }
    requires second { ChildBelow (length pool.old.trees) second }
    ensures tree { tree_at pool.new.trees (Some result)
        ≡ Node head (tree_at pool.old.trees first) (tree_at pool.old.trees second) }
    ensures live { result.0 < length pool.new.trees }
    ensures grows { Grows pool.old pool.new }
    ensures spare { pool.old.spare ≤ pool.new.spare + 1 }
    ensures few { length pool.new.trees ≤ length pool.old.trees + 1 }
{
    pool.node(kind_of(head), first, second)
}

/// Makes the changed part.
#[tactic(auto, using(cv_pool::proofs::Growth::growth))]
fn part(
    alloc: Global,
    pool: &mut Pool,
    old: NodeId,
    change: &Change,
) -> Result<Option<NodeId>, AllocError>
    requires spare { nodes_of change.now ≤ pool.old.spare }
    requires live { old.0 < length pool.old.trees }
    requires term { TermIsLive pool.old.trees change.now }
    ensures tree { IfOk result (λ n. tree_at pool.new.trees n
        ≡ change_of pool.old.trees change.now (tree_at pool.old.trees (Some old))) }
    ensures live { IfOk result (λ n. ChildBelow (length pool.new.trees) n) }
    ensures grows { Grows pool.old pool.new }
    ensures spare { pool.old.spare ≤ pool.new.spare + nodes_of change.now }
    ensures few { length pool.new.trees ≤ length pool.old.trees + nodes_of change.now }
{
    match change {
        Change::Split { condition } => {
            let last = join(pool, Head::Cons, Some(old), None);
            let bodies = join(pool, Head::Cons, Some(old), Some(last));
            Ok(Some(join(pool, Head::If, Some(*condition), Some(bodies))))
        }
        Change::AfterLet {
            name,
            of_type,
            term,
        } => Ok(Some(join(pool, Head::Let(*name, *of_type), Some(*term), Some(old)))),
        Change::AfterNew { name, of_type } => Ok(Some(join(
            pool,
            Head::New(*name, *of_type),
            None,
            Some(old),
        ))),
        Change::Replace { by } => Ok(Some(*by)),
        Change::Built { parts } => build(alloc, pool, parts),
    }
}

/// The way down to a place that is there.
fn way_there(alloc: Global, pool: &Pool, root: NodeId, place: u32) -> Result<Way, PoolError>
    requires live { root.0 < length pool.now.trees }
    requires fits { tree.size (tree_at pool.now.trees (Some root)) < 2 ^ 32 }
    requires there { place < tree.size (tree_at pool.now.trees (Some root)) }
    ensures leads { (new : Tree) → IfOk result (λ way. led pool.now.trees way.turns.items new
        ≡ replaced (tree_at pool.now.trees (Some root)) place new) }
    ensures end { IfOk result (λ way. subtree (tree_at pool.now.trees (Some root)) place
        ≡ Some (tree_at pool.now.trees (Some way.end))) }
    ensures few { IfOk result (λ way. length way.turns.items + way.end.0 ≤ root.0) }
    ensures long { IfOk result (λ way. length way.turns.items
        ≡ nodes_above (tree_at pool.now.trees (Some root)) place) }
    ensures live { IfOk result (λ way. All (λ t. t.node.0 < length pool.now.trees)
        way.turns.items) }
    ensures err { IfErr result (λ e. e ≡ PoolError.OutOfMemory) }
{
    match way_to(alloc, pool, root, place) {
        Ok(way) => Ok(way),
        Err(PathError::Build(_)) => Err(PoolError::OutOfMemory),
        Err(PathError::NoSuchPlace) => unreachable!(),
    }
}

/// Makes the game with what stands at a place changed. Only the changed part and the nodes above it are new, and
/// the pool is asked for room for all of them at once; more than it can have are never made.
#[tactic(auto, using(cv_pool::proofs::Growth::growth))]
pub fn make_game(
    alloc: Global,
    pool: &mut Pool,
    root: NodeId,
    place: u32,
    change: &Change,
) -> Result<Option<NodeId>, PoolError>
    requires live { root.0 < length pool.old.trees }
    requires term { TermIsLive pool.old.trees change.now }
    requires fits { tree.size (tree_at pool.old.trees (Some root)) < 2 ^ 32 }
    requires there { place < tree.size (tree_at pool.old.trees (Some root)) }
    requires limit { pool.old.limit < 4294967295 }
    ensures tree { IfOk result (λ n. tree_at pool.new.trees n ≡ change_at
        (tree_at pool.old.trees (Some root)) place (change_of pool.old.trees change.now)) }
    ensures live { IfOk result (λ n. ChildBelow (length pool.new.trees) n) }
    ensures grows { Grows pool.old pool.new }
    ensures full { (n : ℕ) → IsErrOf result (PoolError.Full n)
        → (n ≡ need_of (tree_at pool.old.trees (Some root)) place change.now)
        × (pool.old.limit < length pool.old.trees + n) }
    ensures accepted { OnOk result (length pool.old.trees
        + need_of (tree_at pool.old.trees (Some root)) place change.now ≤ pool.old.limit) }
    ensures few { length pool.new.trees ≤ length pool.old.trees
        + need_of (tree_at pool.old.trees (Some root)) place change.now }
{
    let way = way_there(alloc, pool, root, place)?;
    let above = way.turns.len() as u32;
    pool.reserve(above.saturating_add(change.nodes()))?;
    match part(alloc, pool, way.end, change) {
        Ok(by) => Ok(rebuilt(pool, way.turns, by)),
        Err(AllocError) => Err(PoolError::OutOfMemory),
    }
}
