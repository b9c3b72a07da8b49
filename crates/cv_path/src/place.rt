ghost use Rattle.std.specs.Prelude.{◌≡◌, ◌+◌, ◌<◌, ◌≤◌, ◌^◌, ◌↔◌, IsNone, Some, length, option_map};
ghost use Rattle.cv_pool.specs.Nodes.{ChildBelow};
ghost use Rattle.cv_syntax_trees.specs.Head as head;
ghost use Rattle.cv_syntax_trees.specs.Tree as tree;
ghost use Rattle.cv_syntax_trees.specs.Tree.{subtree};
ghost use Rattle.cv_syntax.specs.PoolTrees.{tree_at};
ghost use Rattle.cv_path.specs.Places.{LiesAt};

use cv_pool::{NodeId, Pool};
use cv_syntax::{Opened, read_node, size};

/// Where a place of a node lies.
#[derive(Clone, Copy, Debug, PartialEq, Eq)]
pub enum Lies {
    /// At the node.
    Here,
    /// At this place of the first child.
    Within(u32),
    /// At this place of the second child.
    Behind(u32),
}

/// How many syntax nodes a child has.
pub fn size_below(pool: &Pool, child: Option<NodeId>) -> u32
    requires live { ChildBelow (length pool.now.trees) child }
    requires fits { tree.size (tree_at pool.now.trees child) < 2 ^ 32 }
    ensures { result ≡ tree.size (tree_at pool.now.trees child) }
{
    match child {
        Some(n) => size(pool, n),
        None => 0,
    }
}

/// Where a place of a node lies.
pub fn place_in(pool: &Pool, node: Opened, place: u32) -> Lies
    requires live { ChildBelow (length pool.now.trees) node.first }
    requires fits { head.weight node.head + tree.size (tree_at pool.now.trees node.first) < 2 ^ 32 }
    ensures { LiesAt node.head (tree_at pool.now.trees node.first) place result }
{
    let weight = node.head.weight();
    if place < weight {
        return Lies::Here;
    }
    let within = weight + size_below(pool, node.first);
    if place < within {
        return Lies::Within(place - weight);
    }
    Lies::Behind(place - within)
}

/// The node at a place of a tree.
#[tactic(auto, using(crate::proofs::Going::going))]
pub fn at(pool: &Pool, root: NodeId, place: u32) -> Option<NodeId>
    requires live { root.0 < length pool.now.trees }
    requires fits { tree.size (tree_at pool.now.trees (Some root)) < 2 ^ 32 }
    ensures tree { option_map (λ n. tree_at pool.now.trees (Some n)) result
        ≡ subtree (tree_at pool.now.trees (Some root)) place }
    ensures live { ChildBelow (root.0 + 1) result }
{
    let mut at = Some(root);
    let mut left = place;
    'down: while let Some(n) = at {
        let node = read_node(pool, n);
        match place_in(pool, node, left) {
            Lies::Here => return Some(n),
            Lies::Within(rest) => {
                at = node.first;
                left = rest;
            }
            Lies::Behind(rest) => {
                at = node.second;
                left = rest;
            }
        }
    }
    None
}
