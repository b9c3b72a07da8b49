ghost use Rattle.std.specs.Prelude.{◌≡◌, length};
ghost use Rattle.cv_pool.specs.Nodes.{ChildBelow};
ghost use Rattle.cv_syntax_trees.specs.Tree.{same_tree};
ghost use Rattle.cv_syntax.specs.PoolTrees.{tree_at};

use crate::children::is_empty;
use crate::open::read_node;
use cv_pool::{NodeId, Pool};

/// Whether two nodes stand for one tree of the calculus. A node is not compared with itself.
#[tactic(auto, using(crate::proofs::Sames::sames))]
pub fn same(pool: &Pool, left: Option<NodeId>, right: Option<NodeId>) -> bool
    requires left { ChildBelow (length pool.now.trees) left }
    requires right { ChildBelow (length pool.now.trees) right }
    ensures { result ≡ same_tree (tree_at pool.now.trees left) (tree_at pool.now.trees right) }
{
    let mut p = left;
    let mut q = right;
    'chain: while let Some(m) = p {
        let x = read_node(pool, m);
        let Some(n) = q else {
            return false;
        };
        if m == n {
            return true;
        }
        let y = read_node(pool, n);
        if x.head.code() != y.head.code() {
            return false;
        }
        if !same(pool, x.first, y.first) {
            return false;
        }
        p = x.second;
        q = y.second;
    }
    is_empty(pool, q)
}
