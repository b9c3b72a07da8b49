// Parts of trees of the pool, as they are read. Where a node isn't in the pool there is no tree.
ghost use Rattle.std.specs.Prelude.{◌≡◌, ◌<◌, IfNone, IfSome, length};
ghost use Rattle.cv_pool.specs.Nodes.{ChildBelow};
ghost use Rattle.cv_syntax.specs.PoolTrees.{tree_at};
ghost use Rattle.cv_syntax.specs.Walks.{above};
ghost use Rattle.cv_syntax_trees.specs.Head.{same_head};
ghost use Rattle.cv_syntax_trees.specs.Tree.{Empty, Node, first, lone, same_tree, second};

use cv_grounds::open;
use cv_syntax::{Head, NodeId, Opened, Pool, same};

/// Reads a part, where there is one.
#[tactic(auto, using(crate::proofs::Opening::parts))]
pub(crate) fn opened(pool: &Pool, part: Option<NodeId>) -> Option<Opened>
    ensures node { IfSome result (λ o. tree_at pool.now.trees part
        ≡ Node o.head (tree_at pool.now.trees o.first) (tree_at pool.now.trees o.second)) }
    ensures first { IfSome result (λ o. above o.first < above part) }
    ensures second { IfSome result (λ o. above o.second < above part) }
    ensures none { IfNone result (tree_at pool.now.trees part ≡ Empty) }
{
    match part {
        Some(n) => open(pool, n),
        None => None,
    }
}

/// The first child of a part.
#[tactic(auto, using(crate::proofs::Opening::parts))]
pub(crate) fn first_part(pool: &Pool, part: Option<NodeId>) -> Option<NodeId>
    ensures { tree_at pool.now.trees result ≡ first (tree_at pool.now.trees part) }
{
    match opened(pool, part) {
        Some(node) => node.first,
        None => None,
    }
}

/// The second child of a part.
#[tactic(auto, using(crate::proofs::Opening::parts))]
pub(crate) fn second_part(pool: &Pool, part: Option<NodeId>) -> Option<NodeId>
    ensures { tree_at pool.now.trees result ≡ second (tree_at pool.now.trees part) }
{
    match opened(pool, part) {
        Some(node) => node.second,
        None => None,
    }
}

/// A part, where it stands in the pool.
#[tactic(auto, using(crate::proofs::Opening::parts))]
fn part_there(pool: &Pool, part: Option<NodeId>) -> Option<NodeId>
    ensures tree { tree_at pool.now.trees result ≡ tree_at pool.now.trees part }
    ensures live { ChildBelow (length pool.now.trees) result }
{
    let n = part?;
    match open(pool, n) {
        Some(_) => Some(n),
        None => None,
    }
}

/// Whether two parts are one tree.
pub(crate) fn are_same(pool: &Pool, left: Option<NodeId>, right: Option<NodeId>) -> bool
    ensures { result
        ≡ same_tree (tree_at pool.now.trees left) (tree_at pool.now.trees right) }
{
    same(pool, part_there(pool, left), part_there(pool, right))
}

/// Whether there is no part.
#[tactic(auto, using(crate::proofs::Opening::parts))]
pub(crate) fn is_nothing(pool: &Pool, part: Option<NodeId>) -> bool
    ensures { result ≡ same_tree Empty (tree_at pool.now.trees part) }
{
    opened(pool, part).is_none()
}

/// Whether two heads are one.
pub(crate) fn are_same_heads(left: Head, right: Head) -> bool
    ensures { result ≡ same_head left right }
{
    left.code() == right.code()
}

/// Whether a part is this head alone.
#[tactic(auto, using(crate::proofs::Opening::parts))]
pub(crate) fn is_lone(pool: &Pool, head: Head, part: Option<NodeId>) -> bool
    ensures { result ≡ same_tree (tree_at pool.now.trees part) (lone head) }
{
    let Some(node) = opened(pool, part) else {
        return false;
    };
    node.head.code() == head.code()
        && are_same(pool, node.first, None)
        && are_same(pool, node.second, None)
}
