ghost use Rattle.std.specs.Prelude.{◌≡◌, ◌+◌, ◌<◌, ◌≤◌, ◌^◌, ◌∷◌, List, All, IfOk, OnOk, Some, length, map, max, reverse};
ghost use Rattle.cv_pool.specs.Nodes.{ChildBelow};
ghost use Rattle.cv_pool.specs.PoolView.{Grows};
ghost use Rattle.cv_syntax_trees.specs.Head.{weight};
ghost use Rattle.cv_syntax_trees.specs.Tree as tree;
ghost use Rattle.cv_syntax_trees.specs.Tree.{Tree};
ghost use Rattle.cv_syntax.specs.PoolTrees.{tree_at};
ghost use Rattle.cv_syntax.specs.Postorder.{joined};
ghost use Rattle.cv_edit_places.specs.Parts.{AreLive, IsLivePart, extent_of, laid, made_by, over_by, stack_of, top_of, total_of};

use crate::parts::{Part, Parts};
use cv_path::extents::depth_below;
use cv_path::size_below;
use cv_syntax::limits::Extent;
use cv_syntax::{Head, NodeId, Pool, kind_of};
use std::alloc::{AllocError, Global};

/// How large a tree is.
fn extent_below(pool: &Pool, node: Option<NodeId>) -> Extent
    requires live { ChildBelow (length pool.now.trees) node }
    requires fits { tree.size (tree_at pool.now.trees node) < 2 ^ 32 }
    ensures { result ≡ extent_of (tree_at pool.now.trees node) }
{
    Extent {
        nodes: size_below(pool, node),
        depth: depth_below(pool, node),
    }
}

/// How large a node over two trees is.
fn extent_over(head: Head, first: Extent, second: Extent) -> Extent
    requires fits { weight head + first.nodes + second.nodes < 2 ^ 32 }
    requires first { first.depth ≤ first.nodes }
    requires second { second.depth ≤ second.nodes }
    ensures nodes { result.nodes ≡ weight head + first.nodes + second.nodes }
    ensures depth { result.depth ≡ weight head + max first.depth second.depth }
{
    let weight = head.weight();
    Extent {
        nodes: weight + first.nodes + second.nodes,
        depth: weight + first.depth.max(second.depth),
    }
}

/// Adds a part to a stack of trees, by their extents.
fn add_extent(pool: &Pool, stack: &mut Vec<Extent>, part: Part) -> Result<(), AllocError>
    requires live { IsLivePart (length pool.now.trees) part }
    requires fits { (ts : List Tree) × (reverse stack.old.items ≡ map extent_of ts)
        × (total_of (laid pool.now.trees part ts) < 2 ^ 32) }
    ensures { (ts : List Tree) → reverse stack.old.items ≡ map extent_of ts
        → OnOk result (reverse stack.new.items ≡ map extent_of (laid pool.now.trees part ts)) }
{
    match part {
        Part::There(node) => {
            stack.push(extent_below(pool, node))?;
            Ok(())
        }
        Part::Over(head) => {
            let second = stack.pop().unwrap_or(Extent { nodes: 0, depth: 0 });
            let first = stack.pop().unwrap_or(Extent { nodes: 0, depth: 0 });
            stack.push(extent_over(head, first, second))?;
            Ok(())
        }
    }
}

/// How large the tree is that parts build.
pub(crate) fn extent_of(alloc: Global, pool: &Pool, parts: &Parts) -> Result<Extent, AllocError>
    requires live { AreLive (length pool.now.trees) parts.now }
    requires one { length (stack_of pool.now.trees parts.now) ≡ 1 }
    requires fits { tree.size (top_of (stack_of pool.now.trees parts.now)) < 2 ^ 32 }
    ensures nodes { IfOk result (λ e. e.nodes
        ≡ tree.size (top_of (stack_of pool.now.trees parts.now))) }
    ensures depth { IfOk result (λ e. e.depth
        ≡ tree.depth (top_of (stack_of pool.now.trees parts.now))) }
{
    let mut stack = Vec::new(alloc);
    for part in parts.items.as_slice() {
        add_extent(pool, &mut stack, *part)?;
    }
    Ok(stack.pop().unwrap_or(Extent { nodes: 0, depth: 0 }))
}

/// Makes a node over the two newest trees of a stack.
#[tactic(auto, using(cv_syntax::proofs::Plantings::takes))]
fn over(pool: &mut Pool, stack: &mut Vec<Option<NodeId>>, head: Head) -> NodeId
    requires spare { 0 < pool.old.spare }
    requires live { All (ChildBelow (length pool.old.trees)) stack.old.items }
    ensures trees { joined head (reverse (map (tree_at pool.old.trees) stack.old.items))
        ≡ tree_at pool.new.trees (Some result) ∷ reverse
        (map (tree_at pool.new.trees) stack.new.items) }
    ensures live { All (ChildBelow (length pool.new.trees)) stack.new.items }
    ensures id { result.0 < length pool.new.trees }
    ensures grows { Grows pool.old pool.new }
    ensures spare { pool.old.spare ≤ pool.new.spare + 1 }
    ensures few { length pool.new.trees ≤ length pool.old.trees + 1 }
{
    let second = stack.pop().unwrap_or(None);
    let first = stack.pop().unwrap_or(None);
    pool.node(kind_of(head), first, second)
}

/// Adds a part to a stack of trees.
fn add(pool: &mut Pool, stack: &mut Vec<Option<NodeId>>, part: Part) -> Result<(), AllocError>
    requires spare { over_by part ≤ pool.old.spare }
    requires live { All (ChildBelow (length pool.old.trees)) stack.old.items }
    requires part { IsLivePart (length pool.old.trees) part }
    ensures trees { OnOk result (reverse (map (tree_at pool.new.trees) stack.new.items)
        ≡ laid pool.old.trees part (reverse (map (tree_at pool.old.trees) stack.old.items))) }
    ensures live { OnOk result (All (ChildBelow (length pool.new.trees)) stack.new.items) }
    ensures grows { Grows pool.old pool.new }
    ensures spare { pool.old.spare ≤ pool.new.spare + over_by part }
    ensures few { length pool.new.trees ≤ length pool.old.trees + over_by part }
{
    match part {
        Part::There(node) => {
            stack.push(node)?;
            Ok(())
        }
        Part::Over(head) => {
            let top = over(pool, stack, head);
            stack.push(Some(top))?;
            Ok(())
        }
    }
}

/// Makes the tree that parts build, for which the pool has room.
pub(crate) fn build(
    alloc: Global,
    pool: &mut Pool,
    parts: &Parts,
) -> Result<Option<NodeId>, AllocError>
    requires spare { made_by parts.now ≤ pool.old.spare }
    requires live { AreLive (length pool.old.trees) parts.now }
    ensures tree { IfOk result (λ n. tree_at pool.new.trees n
        ≡ top_of (stack_of pool.old.trees parts.now)) }
    ensures live { IfOk result (λ n. ChildBelow (length pool.new.trees) n) }
    ensures grows { Grows pool.old pool.new }
    ensures spare { pool.old.spare ≤ pool.new.spare + made_by parts.now }
    ensures few { length pool.new.trees ≤ length pool.old.trees + made_by parts.now }
{
    let mut stack = Vec::new(alloc);
    for part in parts.items.as_slice() {
        add(pool, &mut stack, *part)?;
    }
    Ok(stack.pop().unwrap_or(None))
}
