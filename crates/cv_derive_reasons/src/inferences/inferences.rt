ghost use Rattle.std.specs.Prelude.{◌≡◌, ◌<◌, length};
ghost use Rattle.cv_pool.specs.Nodes.{ChildBelow};
ghost use Rattle.cv_syntax.specs.PoolTrees.{tree_at};
ghost use Rattle.cv_scene.specs.lines.Inferences as inferences;

use crate::inferences::opening::{is_alone, sides};
use cv_syntax::children::is_empty;
use cv_syntax::{Head, NodeId, Pool, same};

/// Whether a term is an equation of a term with itself.
#[tactic(auto, using(crate::proofs::inferences::Forms::forms))]
pub fn is_reflexive(pool: &Pool, term: Option<NodeId>) -> bool
    requires { ChildBelow (length pool.now.trees) term }
    ensures { result ≡ inferences.is_reflexive (tree_at pool.now.trees term) }
{
    let Some((m, n)) = sides(pool, Head::Eq, term) else {
        return false;
    };
    same(pool, m, n)
}

/// Whether a term is an equation that is cited, turned round.
#[tactic(auto, using(crate::proofs::inferences::Forms::forms))]
pub fn is_symmetric(pool: &Pool, line: Option<NodeId>, term: Option<NodeId>) -> bool
    requires line { ChildBelow (length pool.now.trees) line }
    requires term { ChildBelow (length pool.now.trees) term }
    ensures { result ≡ inferences.is_symmetric (tree_at pool.now.trees line)
        (tree_at pool.now.trees term) }
{
    let Some((x, y)) = sides(pool, Head::Eq, line) else {
        return false;
    };
    let Some((m, n)) = sides(pool, Head::Eq, term) else {
        return false;
    };
    same(pool, m, y) && same(pool, n, x)
}

/// Whether a term is an equation that follows from two others with a side in common.
#[tactic(auto, using(crate::proofs::inferences::Forms::forms))]
pub fn is_transitive(
    pool: &Pool,
    line: Option<NodeId>,
    next: Option<NodeId>,
    term: Option<NodeId>,
) -> bool
    requires line { ChildBelow (length pool.now.trees) line }
    requires next { ChildBelow (length pool.now.trees) next }
    requires term { ChildBelow (length pool.now.trees) term }
    ensures { result ≡ inferences.is_transitive (tree_at pool.now.trees line)
        (tree_at pool.now.trees next) (tree_at pool.now.trees term) }
{
    let Some((w, x)) = sides(pool, Head::Eq, line) else {
        return false;
    };
    let Some((y, z)) = sides(pool, Head::Eq, next) else {
        return false;
    };
    let Some((m, n)) = sides(pool, Head::Eq, term) else {
        return false;
    };
    same(pool, x, y) && same(pool, m, w) && same(pool, n, z)
}

/// Whether a term is the conjunction of two lines.
#[tactic(auto, using(crate::proofs::inferences::Forms::forms))]
pub fn is_both(
    pool: &Pool,
    line: Option<NodeId>,
    next: Option<NodeId>,
    term: Option<NodeId>,
) -> bool
    requires line { ChildBelow (length pool.now.trees) line }
    requires next { ChildBelow (length pool.now.trees) next }
    requires term { ChildBelow (length pool.now.trees) term }
    ensures { result ≡ inferences.is_both (tree_at pool.now.trees line)
        (tree_at pool.now.trees next) (tree_at pool.now.trees term) }
{
    let Some((m, n)) = sides(pool, Head::And, term) else {
        return false;
    };
    same(pool, m, line) && same(pool, n, next)
}

/// Whether a term is the left side of a conjunction.
#[tactic(auto, using(crate::proofs::inferences::Forms::forms))]
pub fn is_left(pool: &Pool, line: Option<NodeId>, term: Option<NodeId>) -> bool
    requires line { ChildBelow (length pool.now.trees) line }
    requires term { ChildBelow (length pool.now.trees) term }
    ensures { result ≡ inferences.is_left (tree_at pool.now.trees line)
        (tree_at pool.now.trees term) }
{
    let Some((m, _)) = sides(pool, Head::And, line) else {
        return false;
    };
    same(pool, term, m)
}

/// Whether a term is the right side of a conjunction.
#[tactic(auto, using(crate::proofs::inferences::Forms::forms))]
pub fn is_right_side(pool: &Pool, line: Option<NodeId>, term: Option<NodeId>) -> bool
    requires line { ChildBelow (length pool.now.trees) line }
    requires term { ChildBelow (length pool.now.trees) term }
    ensures { result ≡ inferences.is_right_side (tree_at pool.now.trees line)
        (tree_at pool.now.trees term) }
{
    let Some((_, n)) = sides(pool, Head::And, line) else {
        return false;
    };
    same(pool, term, n)
}

/// Whether a term is the right side of an equation whose left side is a line.
#[tactic(auto, using(crate::proofs::inferences::Forms::forms))]
pub fn is_replaced_by(
    pool: &Pool,
    line: Option<NodeId>,
    next: Option<NodeId>,
    term: Option<NodeId>,
) -> bool
    requires line { ChildBelow (length pool.now.trees) line }
    requires next { ChildBelow (length pool.now.trees) next }
    requires term { ChildBelow (length pool.now.trees) term }
    ensures { result ≡ inferences.is_replaced_by (tree_at pool.now.trees line)
        (tree_at pool.now.trees next) (tree_at pool.now.trees term) }
{
    if is_empty(pool, line) {
        return false;
    }
    let Some((m, n)) = sides(pool, Head::Eq, next) else {
        return false;
    };
    same(pool, line, m) && same(pool, term, n)
}

/// Whether a term is `false`, and one line denies another.
#[tactic(auto, using(crate::proofs::inferences::Forms::forms))]
pub fn is_refuted(
    pool: &Pool,
    line: Option<NodeId>,
    next: Option<NodeId>,
    term: Option<NodeId>,
) -> bool
    requires line { ChildBelow (length pool.now.trees) line }
    requires next { ChildBelow (length pool.now.trees) next }
    requires term { ChildBelow (length pool.now.trees) term }
    ensures { result ≡ inferences.is_refuted (tree_at pool.now.trees line)
        (tree_at pool.now.trees next) (tree_at pool.now.trees term) }
{
    if is_empty(pool, line) {
        return false;
    }
    let Some((m, _)) = sides(pool, Head::Not, next) else {
        return false;
    };
    same(pool, line, m) && is_alone(pool, Head::No, term)
}
