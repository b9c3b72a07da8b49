// How many syntax nodes trees have.
ghost use Rattle.std.specs.Prelude.{◌≡◌, List, OnOk, Some, length};
ghost use Rattle.cv_pool.specs.KindTree.{KindTree};
ghost use Rattle.cv_pool.specs.Nodes.{ChildBelow};
ghost use Rattle.cv_scene.specs.Late as late;
ghost use Rattle.cv_syntax.specs.PoolTrees.{tree_at};
ghost use Rattle.cv_syntax_trees.specs.Tree as tree;
ghost use Rattle.cv_settling_lateness.specs.Standing.{AreSizes, IsCountable, Takes, children_in};

use cv_grounds::nodes_up_to;
use cv_syntax::children::{first_of, second_of};
use cv_syntax::{NodeId, Opened, Pool};
use std::alloc::{AllocError, Global};
use std::collections::HashMap;

/// How many nodes are counted at most.
pub(crate) const MOST: u32 = 4_294_967_294;

/// The smallest size that is kept: to count fewer nodes is as quick.
const LEAST: u32 = 8;

/// A tree by its node, with the places that it takes: its first one, and the first one behind it.
#[derive(Clone, Copy)]
pub(crate) struct Stretch {
    pub(crate) at: Option<NodeId>,
    pub(crate) from: u32,
    pub(crate) to: u32,
}

/// The children of a node.
#[derive(Clone, Copy)]
pub(crate) struct Children {
    pub(crate) first: Stretch,
    pub(crate) second: Stretch,
}

/// Sizes of trees, by their nodes' numbers. Those that aren't kept are counted.
#[derive(Drop)]
pub(crate) struct Sizes {
    table: HashMap<u32, u32>,
}

impl Sizes {
    /// None is kept.
    pub(crate) fn new(alloc: Global) -> Sizes
        ensures { (trees : List KindTree) → AreSizes trees result }
    {
        Sizes {
            table: HashMap::new(alloc),
        }
    }

    /// Keeps a size, where it is large enough.
    pub(crate) fn put(&mut self, node: NodeId, size: u32) -> Result<(), AllocError>
        ensures { OnOk result ((trees : List KindTree) → AreSizes trees self.old
            → size ≡ tree.size (tree_at trees (Some node)) → AreSizes trees self.new) }
    {
        if size < LEAST {
            return Ok(());
        }
        self.table.insert(node.0, size)?;
        Ok(())
    }

    /// How many syntax nodes a child has.
    pub(crate) fn size(&self, pool: &Pool, child: Option<NodeId>) -> u32
        ensures { AreSizes pool.now.trees self.now → IsCountable (tree_at pool.now.trees child)
            → result ≡ tree.size (tree_at pool.now.trees child) }
    {
        let Some(n) = child else {
            return 0;
        };
        match self.table.get(&n.0) {
            Some(size) => *size,
            None => nodes_up_to(pool, n, MOST),
        }
    }

    /// How many syntax nodes stand in the list and the condition of a branch.
    pub(crate) fn guards(&self, pool: &Pool, behind: Option<NodeId>) -> u32
        requires { ChildBelow (length pool.now.trees) behind }
        ensures { AreSizes pool.now.trees self.now → IsCountable (tree_at pool.now.trees behind)
            → result ≡ late.guards (tree_at pool.now.trees behind) }
    {
        let cells = first_of(pool, behind);
        let rest = second_of(pool, behind);
        let condition = first_of(pool, rest);
        let of_cells = self.size(pool, cells);
        let of_condition = self.size(pool, condition);
        of_cells.saturating_add(of_condition)
    }
}

/// The children of a node that takes these places.
pub(crate) fn children_of(pool: &Pool, sizes: &Sizes, node: Opened, here: Stretch) -> Children
    requires { tree_at pool.now.trees here.at ≡ tree.Node node.head
        (tree_at pool.now.trees node.first) (tree_at pool.now.trees node.second) }
    ensures value { AreSizes pool.now.trees sizes.now → Takes pool.now.trees here
        → result ≡ children_in pool.now.trees node here }
    ensures first { result.first.at ≡ node.first }
    ensures second { result.second.at ≡ node.second }
{
    let below = here.from.saturating_add(node.head.weight());
    let behind = below.saturating_add(sizes.size(pool, node.first));
    Children {
        first: Stretch {
            at: node.first,
            from: below,
            to: behind,
        },
        second: Stretch {
            at: node.second,
            from: behind,
            to: here.to,
        },
    }
}
