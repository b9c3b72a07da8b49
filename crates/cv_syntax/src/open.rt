ghost use Rattle.std.specs.Prelude.{◌≡◌, ◌<◌, ◌↔◌, length, Some, IsNone};
ghost use Rattle.cv_pool.specs.Nodes.{ChildBelow};
ghost use Rattle.cv_syntax_trees.specs.Tree.{Tree, Empty, Node};
ghost use Rattle.cv_syntax.specs.PoolTrees.{tree_at};

use crate::kind::head_of;
use cv_pool::{NodeId, Pool};
use cv_syntax_trees::Head;

/// A node: what it is, and its children.
#[derive(Clone, Copy)]
pub struct Opened {
    pub head: Head,
    pub first: Option<NodeId>,
    pub second: Option<NodeId>,
}

/// Reads a node of a pool as a node of a tree.
#[tactic(auto, using(crate::proofs::Openings::openings))]
pub fn read_node(pool: &Pool, n: NodeId) -> Opened
    requires { n.0 < length pool.now.trees }
    ensures tree { tree_at pool.now.trees (Some n)
        ≡ Node result.head (tree_at pool.now.trees result.first)
        (tree_at pool.now.trees result.second) }
    ensures first { ChildBelow n.0 result.first }
    ensures second { ChildBelow n.0 result.second }
    ensures no_first { IsNone result.first ↔ (tree_at pool.now.trees result.first ≡ Empty) }
    ensures no_second { IsNone result.second ↔ (tree_at pool.now.trees result.second ≡ Empty) }
{
    Opened {
        head: head_of(pool.kind(n)),
        first: pool.kid(n, false),
        second: pool.kid(n, true),
    }
}
