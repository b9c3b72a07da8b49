ghost use Rattle.std.specs.Prelude.{◌≡◌, ◌+◌, ◌<◌, ◌≤◌, ◌^◌, Some, length};
ghost use Rattle.cv_pool.specs.Nodes.{ChildBelow};
ghost use Rattle.cv_syntax_trees.specs.Tree as tree;
ghost use Rattle.cv_syntax_trees.specs.Tree.{Tree, subtree};
ghost use Rattle.cv_syntax.specs.PoolTrees.{tree_at};
ghost use Rattle.cv_meaning.specs.Replaced.{replaced};

use crate::{Lies, place_in};
use cv_syntax::limits::Extent;
use cv_syntax::{NodeId, Pool, depth, read_node, size};

/// How deep a child is.
pub fn depth_below(pool: &Pool, child: Option<NodeId>) -> u32
    requires live { ChildBelow (length pool.now.trees) child }
    requires fits { tree.size (tree_at pool.now.trees child) < 2 ^ 32 }
    ensures { result ≡ tree.depth (tree_at pool.now.trees child) }
{
    match child {
        Some(n) => depth(pool, n),
        None => 0,
    }
}

/// How deep a tree is with a subtree of this depth at a place.
#[tactic(auto, using(crate::proofs::extents::Extents::extents))]
fn depth_with(pool: &Pool, root: NodeId, place: u32, deep: u32) -> u32
    requires live { root.0 < length pool.now.trees }
    requires fits { tree.size (tree_at pool.now.trees (Some root)) + deep < 2 ^ 32 }
    ensures { (t : Tree) → tree.depth t ≡ deep
        → result ≡ tree.depth (replaced (tree_at pool.now.trees (Some root)) place t) }
{
    let mut above = 0;
    let mut beside = 0;
    let mut at = Some(root);
    let mut left = place;
    'down: while let Some(n) = at {
        let node = read_node(pool, n);
        match place_in(pool, node, left) {
            Lies::Here => return beside.max(above + deep),
            Lies::Within(rest) => {
                above += node.head.weight();
                beside = beside.max(above + depth_below(pool, node.second));
                at = node.first;
                left = rest;
            }
            Lies::Behind(rest) => {
                above += node.head.weight();
                beside = beside.max(above + depth_below(pool, node.first));
                at = node.second;
                left = rest;
            }
        }
    }
    beside.max(above)
}

/// How large a tree is with a subtree of this extent in place of a part.
#[tactic(auto, using(crate::proofs::extents::Extents::extents))]
pub fn extent_with(pool: &Pool, root: NodeId, place: u32, part: NodeId, new: Extent) -> Extent
    requires live { root.0 < length pool.now.trees }
    requires within { part.0 < length pool.now.trees }
    requires part { subtree (tree_at pool.now.trees (Some root)) place
        ≡ Some (tree_at pool.now.trees (Some part)) }
    requires fits { tree.size (tree_at pool.now.trees (Some root)) + new.nodes < 2 ^ 32 }
    requires deep { new.depth ≤ new.nodes }
    ensures nodes { (t : Tree) → tree.size t ≡ new.nodes
        → result.nodes ≡ tree.size (replaced (tree_at pool.now.trees (Some root)) place t) }
    ensures depth { (t : Tree) → tree.depth t ≡ new.depth
        → result.depth ≡ tree.depth (replaced (tree_at pool.now.trees (Some root)) place t) }
{
    Extent {
        nodes: size(pool, root) - size(pool, part) + new.nodes,
        depth: depth_with(pool, root, place, new.depth),
    }
}
