ghost use Rattle.std.specs.Prelude.{◌≡◌, ◌<◌, IfSome, length, option_map};
ghost use Rattle.cv_pool.specs.Nodes.{ChildBelow};
ghost use Rattle.cv_syntax_trees.specs.Tree.{Node, lone, same_tree};
ghost use Rattle.cv_syntax.specs.PoolTrees.{tree_at};
ghost use Rattle.cv_derive_reasons.specs.inferences.Sides.{AreLive, both_at, sides_of};

use cv_syntax::children::{is_empty, read_child};
use cv_syntax::{Head, NodeId, Pool, same};

/// The two children of a term with this head.
#[tactic(auto, using(crate::proofs::inferences::Forms::opened))]
pub fn sides(
    pool: &Pool,
    head: Head,
    term: Option<NodeId>,
) -> Option<(Option<NodeId>, Option<NodeId>)>
    requires { ChildBelow (length pool.now.trees) term }
    ensures sides { option_map (both_at pool.now.trees) result
        ≡ sides_of head (tree_at pool.now.trees term) }
    ensures live { IfSome result (AreLive (length pool.now.trees)) }
{
    let Some(node) = read_child(pool, term) else {
        return None;
    };
    if node.head.code() != head.code() {
        return None;
    }
    Some((node.first, node.second))
}

/// Whether a term is this head alone.
#[tactic(auto, using(crate::proofs::inferences::Forms::opened))]
pub fn is_alone(pool: &Pool, head: Head, term: Option<NodeId>) -> bool
    requires { ChildBelow (length pool.now.trees) term }
    ensures { result ≡ same_tree (tree_at pool.now.trees term) (lone head) }
{
    let Some((a, b)) = sides(pool, head, term) else {
        return false;
    };
    is_empty(pool, a) && is_empty(pool, b)
}

/// Whether a term is this head over two others.
#[tactic(auto, using(crate::proofs::inferences::Forms::opened))]
pub fn is_over(
    pool: &Pool,
    head: Head,
    left: Option<NodeId>,
    right: Option<NodeId>,
    term: Option<NodeId>,
) -> bool
    requires left { ChildBelow (length pool.now.trees) left }
    requires right { ChildBelow (length pool.now.trees) right }
    requires term { ChildBelow (length pool.now.trees) term }
    ensures { result ≡ same_tree (tree_at pool.now.trees term)
        (Node head (tree_at pool.now.trees left) (tree_at pool.now.trees right)) }
{
    let Some((a, b)) = sides(pool, head, term) else {
        return false;
    };
    same(pool, a, left) && same(pool, b, right)
}
