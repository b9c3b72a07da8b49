ghost use Rattle.std.specs.Prelude.{◌≡◌, IfNone, IfSome};
ghost use Rattle.cv_syntax_trees.specs.Tree.{Empty};
ghost use Rattle.cv_syntax.specs.PoolTrees.{tree_at};
ghost use Rattle.cv_inline_sites.specs.listing.Subtrees.{IsNodeAt, IsWithin};

use cv_path::size_below;
use cv_syntax::{Head, NodeId, Pool, read_node};

/// A tree, with the place where it stands.
#[derive(Clone, Copy)]
pub struct Subtree {
    pub place: u32,
    pub root: Option<NodeId>,
}

/// A node, with its children where they stand.
#[derive(Clone, Copy)]
pub struct Parent {
    pub head: Head,
    pub first: Subtree,
    pub second: Subtree,
}

/// The node at the top of a tree.
pub fn node_at(pool: &Pool, tree: Subtree) -> Option<Parent>
    requires { IsWithin pool.now.trees tree }
    ensures node { IfSome result (IsNodeAt pool.now.trees tree) }
    ensures none { IfNone result (tree_at pool.now.trees tree.root ≡ Empty) }
{
    let node = read_node(pool, tree.root?);
    let first = Subtree {
        place: tree.place + node.head.weight(),
        root: node.first,
    };
    let second = Subtree {
        place: first.place + size_below(pool, node.first),
        root: node.second,
    };
    Some(Parent {
        head: node.head,
        first,
        second,
    })
}
