// The equations of truth values, from left to right.
ghost use Rattle.std.specs.Prelude.{◌≡◌, option_map, Some, true};
ghost use Rattle.cv_syntax.specs.PoolTrees.{tree_at};
ghost use Rattle.cv_scope_rules.specs.Phrases.{Term, is_phrase};
ghost use Rattle.cv_settling.specs.Truths.{outcome_tree, shorter_than_and, shorter_than_equality, shorter_than_not, shorter_than_or, truth_of, under_not};

use crate::parts::{are_same, is_lone, opened};
use cv_grounds::open;
use cv_syntax::{Head, NodeId, Pool};

/// What an equation of truth values makes of a term.
#[derive(Clone, Copy)]
pub(crate) enum Outcome {
    /// A part of it.
    Part(Option<NodeId>),
    True,
    False,
}

/// What is left of an equation.
fn of_equation(pool: &Pool, left: Option<NodeId>, right: Option<NodeId>) -> Option<Outcome>
    ensures { option_map (outcome_tree pool.now.trees) result
        ≡ shorter_than_equality (tree_at pool.now.trees left) (tree_at pool.now.trees right) }
{
    if is_lone(pool, Head::Yes, right) {
        return Some(Outcome::Part(left));
    }
    if are_same(pool, right, left) {
        return Some(Outcome::True);
    }
    None
}

/// What is left of a conjunction.
fn of_conjunction(pool: &Pool, left: Option<NodeId>, right: Option<NodeId>) -> Option<Outcome>
    ensures { option_map (outcome_tree pool.now.trees) result
        ≡ shorter_than_and (tree_at pool.now.trees left) (tree_at pool.now.trees right) }
{
    if is_lone(pool, Head::Yes, right) {
        return Some(Outcome::Part(left));
    }
    if is_lone(pool, Head::Yes, left) {
        return Some(Outcome::Part(right));
    }
    if is_lone(pool, Head::No, right) {
        return Some(Outcome::False);
    }
    if is_lone(pool, Head::No, left) {
        return Some(Outcome::False);
    }
    None
}

/// What is left of a disjunction.
fn of_disjunction(pool: &Pool, left: Option<NodeId>, right: Option<NodeId>) -> Option<Outcome>
    ensures { option_map (outcome_tree pool.now.trees) result
        ≡ shorter_than_or (tree_at pool.now.trees left) (tree_at pool.now.trees right) }
{
    if is_lone(pool, Head::Yes, right) {
        return Some(Outcome::True);
    }
    if is_lone(pool, Head::Yes, left) {
        return Some(Outcome::True);
    }
    if is_lone(pool, Head::No, right) {
        return Some(Outcome::Part(left));
    }
    if is_lone(pool, Head::No, left) {
        return Some(Outcome::Part(right));
    }
    None
}

/// What stands below two negations.
fn below_two(pool: &Pool, inner: Option<NodeId>) -> Option<Outcome>
    ensures { option_map (outcome_tree pool.now.trees) result
        ≡ under_not (tree_at pool.now.trees inner) }
{
    let node = opened(pool, inner)?;
    match node.head {
        Head::Not => Some(Outcome::Part(node.first)),
        _ => None,
    }
}

/// What is left of a negation.
fn of_negation(pool: &Pool, inner: Option<NodeId>) -> Option<Outcome>
    ensures { option_map (outcome_tree pool.now.trees) result
        ≡ shorter_than_not (tree_at pool.now.trees inner) }
{
    if is_lone(pool, Head::Yes, inner) {
        return Some(Outcome::False);
    }
    if is_lone(pool, Head::No, inner) {
        return Some(Outcome::True);
    }
    below_two(pool, inner)
}

/// What the first equation of truth values makes of a term, of those that make it smaller.
pub(crate) fn truth(pool: &Pool, n: NodeId) -> Option<Outcome>
    ensures { is_phrase Term (tree_at pool.now.trees (Some n)) ≡ true
        → option_map (outcome_tree pool.now.trees) result
        ≡ truth_of (tree_at pool.now.trees (Some n)) }
{
    let node = open(pool, n)?;
    match node.head {
        Head::Eq => of_equation(pool, node.first, node.second),
        Head::And => of_conjunction(pool, node.first, node.second),
        Head::Or => of_disjunction(pool, node.first, node.second),
        Head::Not => of_negation(pool, node.first),
        _ => None,
    }
}
