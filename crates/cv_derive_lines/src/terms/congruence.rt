ghost use Rattle.std.specs.Prelude.{◌≡◌, ◌<◌, ◌∷◌, [], length};
ghost use Rattle.cv_pool.specs.Nodes.{ChildBelow};
ghost use Rattle.cv_syntax_trees.specs.Head.{same_head};
ghost use Rattle.cv_syntax.specs.PoolTrees.{tree_at};
ghost use Rattle.cv_typing.specs.Tables.{above_of};
ghost use Rattle.cv_scope_rules.specs.Context.{items};
ghost use Rattle.cv_scene.specs.lines.Inferences as inferences;
ghost use Rattle.cv_derive_lines.specs.citing.Bookmarks.{CanCite, visible_to};
ghost use Rattle.cv_scene.specs.Reasons as reasons;
ghost use Rattle.cv_scene.specs.Sights.{Sight};
ghost use Rattle.cv_scene.specs.Terms.{above_under};

use crate::citing::Citing;
use crate::terms::arguments::{are_equal_by, is_equal_by, is_only_equal_by};
use cv_derive_reasons::inferences::sides;
use cv_syntax::children::{is_empty, read_child};
use cv_syntax::{Head, NodeId, Opened, Pool, read_node};
use cv_syntax_trees::sites::Sort;
use std::collections::HashMap;

/// Whether two lines of a list say that the children of two nodes are equal.
fn are_both_equal_by(
    pool: &Pool,
    citing: &Citing,
    cited_claims: Option<NodeId>,
    left: Opened,
    right: Opened,
) -> bool
    requires citing { CanCite pool.now.trees citing.now }
    requires cited_claims { ChildBelow (length pool.now.trees) cited_claims }
    requires first_left { ChildBelow (length pool.now.trees) left.first }
    requires second_left { ChildBelow (length pool.now.trees) left.second }
    requires first_right { ChildBelow (length pool.now.trees) right.first }
    requires second_right { ChildBelow (length pool.now.trees) right.second }
    ensures { result ≡ inferences.are_equal_by
        (visible_to pool.now.trees citing.now)
        (items (tree_at pool.now.trees cited_claims))
        (tree_at pool.now.trees left.first ∷ tree_at pool.now.trees left.second ∷ [])
        (tree_at pool.now.trees right.first ∷ tree_at pool.now.trees right.second ∷ []) }
{
    let Some(l) = cited_claims else {
        return false;
    };
    let line = read_node(pool, l);
    if !is_equal_by(pool, citing, line.first, left.first, right.first) {
        return false;
    }
    is_only_equal_by(pool, citing, line.second, left.second, right.second)
}

/// Whether lines that are cited say that the arguments of two nodes with one head are equal.
fn are_arguments_equal_by(
    pool: &Pool,
    above: &HashMap<u32, Sort>,
    citing: &Citing,
    cited_claims: Option<NodeId>,
    left: Opened,
    right: Opened,
) -> bool
    requires citing { CanCite pool.now.trees citing.now }
    requires cited_claims { ChildBelow (length pool.now.trees) cited_claims }
    requires first_left { ChildBelow (length pool.now.trees) left.first }
    requires second_left { ChildBelow (length pool.now.trees) left.second }
    requires first_right { ChildBelow (length pool.now.trees) right.first }
    requires second_right { ChildBelow (length pool.now.trees) right.second }
    ensures { (s : Sight) → above_of above.now ≡ above_under s.replications
        → result ≡ reasons.are_congruent_by
        (visible_to pool.now.trees citing.now)
        (items (tree_at pool.now.trees cited_claims))
        (reasons.arguments s left.head (tree_at pool.now.trees left.first)
        (tree_at pool.now.trees left.second))
        (reasons.arguments s left.head (tree_at pool.now.trees right.first)
        (tree_at pool.now.trees right.second)) }
{
    match left.head {
        Head::Apply(_) | Head::Read(_) => {
            are_equal_by(pool, citing, cited_claims, left.first, right.first)
        }
        Head::Leaf(x) => {
            if above.contains_key(&x) {
                return false;
            }
            is_empty(pool, cited_claims)
        }
        Head::Eq | Head::And | Head::Or => {
            are_both_equal_by(pool, citing, cited_claims, left, right)
        }
        Head::Not => is_only_equal_by(pool, citing, cited_claims, left.first, right.first),
        _ => false,
    }
}

/// Whether two heads are the same.
fn have_same_head(left: Head, right: Head) -> bool
    ensures { result ≡ same_head left right }
{
    left.code() == right.code()
}

/// Whether a term says that two terms with one head are equal, whose arguments are equal by lines that are cited.
pub fn is_congruent(
    pool: &Pool,
    above: &HashMap<u32, Sort>,
    citing: &Citing,
    cited_claims: Option<NodeId>,
    term: Option<NodeId>,
) -> bool
    requires citing { CanCite pool.now.trees citing.now }
    requires cited_claims { ChildBelow (length pool.now.trees) cited_claims }
    requires term { ChildBelow (length pool.now.trees) term }
    ensures { (s : Sight) → above_of above.now ≡ above_under s.replications
        → result ≡ reasons.is_congruent s
        (visible_to pool.now.trees citing.now)
        (tree_at pool.now.trees cited_claims) (tree_at pool.now.trees term) }
{
    let Some((left, right)) = sides(pool, Head::Eq, term) else {
        return false;
    };
    let Some(m) = read_child(pool, left) else {
        return false;
    };
    let Some(k) = read_child(pool, right) else {
        return false;
    };
    if !have_same_head(m.head, k.head) {
        return false;
    }
    are_arguments_equal_by(pool, above, citing, cited_claims, m, k)
}
