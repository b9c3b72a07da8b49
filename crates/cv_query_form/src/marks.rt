ghost use Rattle.std.specs.Prelude.{◌≡◌, length};
ghost use Rattle.cv_pool.specs.Nodes.{ChildBelow};
ghost use Rattle.cv_syntax.specs.PoolTrees.{tree_at};
ghost use Rattle.cv_meaning.specs.Correspondences.{is_once};
ghost use Rattle.cv_query_form.specs.Tests as test;

use crate::alternatives::has_parts;
use cv_syntax::{Head, NodeId, Pool, read_node};

/// Whether a tree is an event that is marked `inj`.
#[tactic(auto, using(cv_syntax::proofs::Trees::opened))]
fn is_marked(pool: &Pool, event: Option<NodeId>) -> bool
    requires { ChildBelow (length pool.now.trees) event }
    ensures { result ≡ is_once (tree_at pool.now.trees event) }
{
    let Some(k) = event else {
        return false;
    };
    matches!(read_node(pool, k).head, Head::OccursOnce(_))
}

/// Whether some event of a right side, wherever it stands, is marked `inj`.
fn some_is_marked(pool: &Pool, right: Option<NodeId>) -> bool
    requires { ChildBelow (length pool.now.trees) right }
    ensures { result ≡ test.some_is_marked (tree_at pool.now.trees right) }
{
    let mut at = right;
    'parts: while let Some(k) = at {
        let node = read_node(pool, k);
        if !has_parts(node.head) {
            return is_marked(pool, at);
        }
        if some_is_marked(pool, node.first) {
            return true;
        }
        at = node.second;
    }
    false
}

/// Whether `inj` stands on both sides of a correspondence, or on none.
pub fn are_marked_alike(pool: &Pool, left: Option<NodeId>, right: Option<NodeId>) -> bool
    requires left { ChildBelow (length pool.now.trees) left }
    requires right { ChildBelow (length pool.now.trees) right }
    ensures { result ≡ test.are_marked_alike (tree_at pool.now.trees left)
        (tree_at pool.now.trees right) }
{
    is_marked(pool, left) == some_is_marked(pool, right)
}
