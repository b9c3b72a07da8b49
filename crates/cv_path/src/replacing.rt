ghost use Rattle.std.specs.Prelude.{◌≡◌, ◌+◌, ◌<◌, ◌≤◌, ◌^◌, ◌⊎◌, ◌++◌, ◌∷◌, [], All, IfErr, IfOk, IsErrOf, None, OnErr, OnOk, Some, length};
ghost use Rattle.cv_pool.specs.Nodes.{ChildBelow};
ghost use Rattle.cv_pool.specs.PoolView.{Grows};
ghost use Rattle.cv_syntax_trees.specs.Tree.{Node, Tree, size, subtree};
ghost use Rattle.cv_syntax.specs.PoolTrees.{tree_at};
ghost use Rattle.cv_meaning.specs.Replaced.{replaced};
ghost use Rattle.cv_path.specs.Places.{nodes_above};
ghost use Rattle.cv_path.specs.Refusals.{no_memory};
ghost use Rattle.cv_path.specs.Ways.{led, turned};

use crate::error::PathError;
use crate::place::{Lies, place_in};
use cv_pool::{NodeId, Pool};
use cv_syntax::{BuildError, Head, kind_of, read_node};
use std::alloc::Global;

/// A node above a place, and whether the way goes on through its second child.
#[derive(Clone, Copy, Debug)]
pub struct Turn {
    pub node: NodeId,
    pub second: bool,
}

/// The nodes above a place, from the root on, and the node that stands there.
#[derive(Drop)]
pub struct Way {
    pub turns: Vec<Turn>,
    pub end: NodeId,
}

/// Adds a node to a way.
pub fn push(way: &mut Vec<Turn>, node: NodeId, second: bool) -> Result<(), PathError>
    ensures ok { OnOk result (way.new.items
        ≡ way.old.items ++ record { node = node; second = second } ∷ []) }
    ensures err { IfErr result (λ e. e ≡ no_memory) }
{
    match way.push(Turn { node, second }) {
        Ok(()) => Ok(()),
        Err(_) => Err(PathError::Build(BuildError::OutOfMemory)),
    }
}

/// The way down to a place.
#[tactic(auto, using(crate::proofs::Going::going))]
pub fn way_to(alloc: Global, pool: &Pool, root: NodeId, place: u32) -> Result<Way, PathError>
    requires live { root.0 < length pool.now.trees }
    requires fits { size (tree_at pool.now.trees (Some root)) < 2 ^ 32 }
    ensures leads { (new : Tree) → IfOk result (λ way. led pool.now.trees way.turns.items new
        ≡ replaced (tree_at pool.now.trees (Some root)) place new) }
    ensures end { IfOk result (λ way. subtree (tree_at pool.now.trees (Some root)) place
        ≡ Some (tree_at pool.now.trees (Some way.end))) }
    ensures few { IfOk result (λ way. length way.turns.items + way.end.0 ≤ root.0) }
    ensures long { IfOk result (λ way. length way.turns.items
        ≡ nodes_above (tree_at pool.now.trees (Some root)) place) }
    ensures live { IfOk result (λ way. All (λ t. t.node.0 < length pool.now.trees)
        way.turns.items) }
    ensures place { OnOk result (place < size (tree_at pool.now.trees (Some root))) }
    ensures refused { (e : PathError) → IsErrOf result e
        → (e ≡ no_memory) ⊎ ((e ≡ PathError.NoSuchPlace)
        × (size (tree_at pool.now.trees (Some root)) ≤ place)) }
{
    let mut turns = Vec::new(alloc);
    let mut at = Some(root);
    let mut left = place;
    'down: while let Some(n) = at {
        let node = read_node(pool, n);
        match place_in(pool, node, left) {
            Lies::Here => return Ok(Way { turns, end: n }),
            Lies::Within(rest) => {
                push(&mut turns, n, false)?;
                at = node.first;
                left = rest;
            }
            Lies::Behind(rest) => {
                push(&mut turns, n, true)?;
                at = node.second;
                left = rest;
            }
        }
    }
    Err(PathError::NoSuchPlace)
}

/// A node over two children.
#[tactic(auto, using(cv_pool::proofs::Growth::growth))]
fn join(pool: &mut Pool, head: Head, first: Option<NodeId>, second: Option<NodeId>) -> NodeId
    requires spare { 0 < pool.old.spare }
    requires first { ChildBelow (length pool.old.trees) first }
    requires second { ChildBelow (length pool.old.trees) second }
    ensures tree { tree_at pool.new.trees (Some result)
        ≡ Node head (tree_at pool.old.trees first) (tree_at pool.old.trees second) }
    ensures live { result.0 < length pool.new.trees }
    ensures grows { Grows pool.old pool.new }
    ensures spare { pool.old.spare ≤ pool.new.spare + 1 }
    ensures few { length pool.new.trees ≤ length pool.old.trees + 1 }
{
    pool.node(kind_of(head), first, second)
}

/// A node of a way once more, with another child.
#[tactic(auto, using(cv_pool::proofs::Growth::growth, crate::proofs::Going::turning))]
fn turned(pool: &mut Pool, turn: Turn, new: Option<NodeId>) -> NodeId
    requires spare { 0 < pool.old.spare }
    requires node { turn.node.0 < length pool.old.trees }
    requires new { ChildBelow (length pool.old.trees) new }
    ensures tree { tree_at pool.new.trees (Some result)
        ≡ turned turn.second (tree_at pool.old.trees (Some turn.node))
        (tree_at pool.old.trees new) }
    ensures live { result.0 < length pool.new.trees }
    ensures grows { Grows pool.old pool.new }
    ensures spare { pool.old.spare ≤ pool.new.spare + 1 }
    ensures few { length pool.new.trees ≤ length pool.old.trees + 1 }
{
    let node = read_node(pool, turn.node);
    if turn.second {
        join(pool, node.head, node.first, new)
    } else {
        join(pool, node.head, new, node.second)
    }
}

/// The nodes of a way once more, with another node, or none, at its end.
#[tactic(auto, using(cv_pool::proofs::Growth::growth))]
pub fn rebuilt(pool: &mut Pool, way: Vec<Turn>, by: Option<NodeId>) -> Option<NodeId>
    requires spare { length way.items ≤ pool.old.spare }
    requires way { All (λ t. t.node.0 < length pool.old.trees) way.items }
    requires by { ChildBelow (length pool.old.trees) by }
    ensures tree { tree_at pool.new.trees result
        ≡ led pool.old.trees way.items (tree_at pool.old.trees by) }
    ensures live { ChildBelow (length pool.new.trees) result }
    ensures none { result ≡ None → by ≡ None }
    ensures grows { Grows pool.old pool.new }
    ensures few { length pool.new.trees ≤ length pool.old.trees + length way.items }
{
    let mut left = way;
    let mut new = by;
    'up: while let Some(turn) = left.pop() {
        new = Some(turned(pool, turn, new));
    }
    new
}
