ghost use Rattle.std.specs.Prelude.{◌≡◌, ◌<◌, ◌^◌, List, Some, length};
ghost use Rattle.cv_pool.specs.KindTree.{KindTree};
ghost use Rattle.cv_pool.specs.Nodes.{ChildBelow};
ghost use Rattle.cv_syntax_trees.specs.Tree as tree;
ghost use Rattle.cv_syntax.specs.PoolTrees.{tree_at};
ghost use Rattle.cv_derive_reasons.specs.sizes.Sizes.{AreSizes};

use cv_pool::{NodeId, Pool};
use cv_syntax::{read_node, size};

/// How many sizes are kept at most: a prime number, so that nodes at regular distances have slots of their own.
const ROOM: u32 = 2039;

/// The smallest size that is kept: to count fewer nodes is as quick.
const LEAST: u32 = 4;

/// A node, and how many syntax nodes its tree has.
#[derive(Clone, Copy)]
struct Noted {
    node: NodeId,
    size: u32,
}

/// How many syntax nodes some trees have. Each has a slot by its node's number; where two have one, the larger is kept.
#[derive(Clone, Copy)]
pub struct Sizes {
    slots: [Option<Noted>; 2039],
}

impl Sizes {
    /// No size is kept.
    fn new() -> Sizes
        ensures { (trees : List KindTree) → AreSizes trees result }
    {
        Sizes {
            slots: [None; 2039],
        }
    }

    /// The sizes of first children in a tree. Takes no memory.
    pub fn of(pool: &Pool, root: NodeId) -> Sizes
        requires live { root.0 < length pool.now.trees }
        requires fits { tree.size (tree_at pool.now.trees (Some root)) < 2 ^ 32 }
        ensures { AreSizes pool.now.trees result }
    {
        let mut sizes = Sizes::new();
        let _ = sizes.note(pool, root);
        sizes
    }

    /// How many syntax nodes a child has.
    pub fn size(&self, pool: &Pool, child: Option<NodeId>) -> u32
        requires sizes { AreSizes pool.now.trees self.now }
        requires live { ChildBelow (length pool.now.trees) child }
        requires fits { tree.size (tree_at pool.now.trees child) < 2 ^ 32 }
        ensures { result ≡ tree.size (tree_at pool.now.trees child) }
    {
        let Some(n) = child else {
            return 0;
        };
        let slot = self.slots[(n.0 % ROOM) as usize];
        if let Some(noted) = slot {
            if noted.node.0 == n.0 {
                return noted.size;
            }
        }
        size(pool, n)
    }

    /// Keeps a size, where it is large enough.
    fn put(&mut self, node: NodeId, size: u32)
        ensures { (trees : List KindTree) → AreSizes trees self.old
            → size ≡ tree.size (tree_at trees (Some node)) → AreSizes trees self.new }
    {
        if size < LEAST {
            return;
        }
        let slot = (node.0 % ROOM) as usize;
        if let Some(noted) = self.slots[slot] {
            if noted.size >= size {
                return;
            }
        }
        self.slots[slot] = Some(Noted { node, size });
    }

    /// Keeps sizes of first children in a tree, and gives its own.
    fn note(&mut self, pool: &Pool, n: NodeId) -> u32
        requires sizes { AreSizes pool.now.trees self.old }
        requires live { n.0 < length pool.now.trees }
        requires fits { tree.size (tree_at pool.now.trees (Some n)) < 2 ^ 32 }
        ensures size { result ≡ tree.size (tree_at pool.now.trees (Some n)) }
        ensures sizes { AreSizes pool.now.trees self.new }
    {
        let mut total = 0;
        let mut at = Some(n);
        'chain: while let Some(k) = at {
            let node = read_node(pool, k);
            total += node.head.weight();
            if let Some(first) = node.first {
                let size = self.note(pool, first);
                self.put(first, size);
                total += size;
            }
            at = node.second;
        }
        total
    }
}
