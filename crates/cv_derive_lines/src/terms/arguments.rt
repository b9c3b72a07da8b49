ghost use Rattle.std.specs.Prelude.{◌≡◌, ◌<◌, ◌∷◌, [], length};
ghost use Rattle.cv_pool.specs.Nodes.{ChildBelow};
ghost use Rattle.cv_syntax_trees.specs.declared.head.Head.TheVariants.{Eq};
ghost use Rattle.cv_syntax_trees.specs.Tree.{Node, same_tree};
ghost use Rattle.cv_syntax.specs.PoolTrees.{tree_at};
ghost use Rattle.cv_scope_rules.specs.Context.{items};
ghost use Rattle.cv_scene.specs.lines.Inferences as inferences;
ghost use Rattle.cv_derive_lines.specs.citing.Bookmarks.{CanCite, visible_to};

use crate::citing::{Citing, cited_term};
use cv_derive_reasons::inferences::is_over;
use cv_syntax::children::is_empty;
use cv_syntax::{Head, NodeId, Pool, read_node};

/// Whether the line that is cited says that two terms are equal.
pub fn is_equal_by(
    pool: &Pool,
    citing: &Citing,
    cited_claim: Option<NodeId>,
    left: Option<NodeId>,
    right: Option<NodeId>,
) -> bool
    requires citing { CanCite pool.now.trees citing.now }
    requires cited_claim { ChildBelow (length pool.now.trees) cited_claim }
    requires left { ChildBelow (length pool.now.trees) left }
    requires right { ChildBelow (length pool.now.trees) right }
    ensures { result ≡ same_tree (inferences.cited_term
        (visible_to pool.now.trees citing.now)
        (tree_at pool.now.trees cited_claim))
        (Node Eq (tree_at pool.now.trees left) (tree_at pool.now.trees right)) }
{
    let line = cited_term(pool, citing, cited_claim);
    is_over(pool, Head::Eq, left, right, line)
}

/// Whether lines that are cited say that the items of two lists are equal, one by one.
pub fn are_equal_by(
    pool: &Pool,
    citing: &Citing,
    cited_claim: Option<NodeId>,
    left: Option<NodeId>,
    right: Option<NodeId>,
) -> bool
    requires citing { CanCite pool.now.trees citing.now }
    requires cited_claim { ChildBelow (length pool.now.trees) cited_claim }
    requires left { ChildBelow (length pool.now.trees) left }
    requires right { ChildBelow (length pool.now.trees) right }
    ensures { result ≡ inferences.are_equal_by
        (visible_to pool.now.trees citing.now)
        (items (tree_at pool.now.trees cited_claim)) (items (tree_at pool.now.trees left))
        (items (tree_at pool.now.trees right)) }
{
    let mut at = cited_claim;
    let mut first = left;
    let mut second = right;
    'lines: while let Some(l) = at {
        let line = read_node(pool, l);
        let Some(m) = first else {
            return false;
        };
        let here = read_node(pool, m);
        let Some(k) = second else {
            return false;
        };
        let there = read_node(pool, k);
        if !is_equal_by(pool, citing, line.first, here.first, there.first) {
            return false;
        }
        at = line.second;
        first = here.second;
        second = there.second;
    }
    if !is_empty(pool, first) {
        return false;
    }
    is_empty(pool, second)
}

/// Whether the only line of a list says that two terms are equal.
pub fn is_only_equal_by(
    pool: &Pool,
    citing: &Citing,
    cited_claim: Option<NodeId>,
    left: Option<NodeId>,
    right: Option<NodeId>,
) -> bool
    requires citing { CanCite pool.now.trees citing.now }
    requires cited_claim { ChildBelow (length pool.now.trees) cited_claim }
    requires left { ChildBelow (length pool.now.trees) left }
    requires right { ChildBelow (length pool.now.trees) right }
    ensures { result ≡ inferences.are_equal_by
        (visible_to pool.now.trees citing.now)
        (items (tree_at pool.now.trees cited_claim)) (tree_at pool.now.trees left ∷ [])
        (tree_at pool.now.trees right ∷ []) }
{
    let Some(l) = cited_claim else {
        return false;
    };
    let line = read_node(pool, l);
    if !is_equal_by(pool, citing, line.first, left, right) {
        return false;
    }
    is_empty(pool, line.second)
}
