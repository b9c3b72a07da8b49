ghost use Rattle.std.specs.Prelude.{◌≡◌, ◌<◌, length};
ghost use Rattle.cv_pool.specs.Nodes.{ChildBelow};
ghost use Rattle.cv_syntax_trees.specs.Tree.{Node, lone, same_tree};
ghost use Rattle.cv_syntax.specs.PoolTrees.{tree_at};
ghost use Rattle.cv_syntax_trees.specs.declared.head.Head.TheVariants.{Eq, No, Yes};
ghost use Rattle.cv_scene.specs.lines.Truths as truths;
ghost use Rattle.cv_scene.specs.lines.Truths.{are_sides};

use crate::inferences::{is_alone, is_over, sides};
use cv_syntax::{Head, NodeId, Pool, same};

/// Whether one term is a head alone and another one is this one.
fn stands_beside(
    pool: &Pool,
    head: Head,
    alone: Option<NodeId>,
    other: Option<NodeId>,
    term: Option<NodeId>,
) -> bool
    requires alone { ChildBelow (length pool.now.trees) alone }
    requires other { ChildBelow (length pool.now.trees) other }
    requires term { ChildBelow (length pool.now.trees) term }
    ensures { result ≡ are_sides (tree_at pool.now.trees alone) (tree_at pool.now.trees other)
        (lone head) (tree_at pool.now.trees term) }
{
    is_alone(pool, head, alone) && same(pool, other, term)
}

/// Whether two terms are heads alone.
fn are_alone(
    pool: &Pool,
    head: Head,
    left: Option<NodeId>,
    behind: Head,
    right: Option<NodeId>,
) -> bool
    requires left { ChildBelow (length pool.now.trees) left }
    requires right { ChildBelow (length pool.now.trees) right }
    ensures { result ≡ are_sides (tree_at pool.now.trees left) (tree_at pool.now.trees right)
        (lone head) (lone behind) }
{
    is_alone(pool, head, left) && is_alone(pool, behind, right)
}

/// Whether an equation is equal to a term, whatever its sides are.
fn is_truth_of_equality(
    pool: &Pool,
    m: Option<NodeId>,
    n: Option<NodeId>,
    r: Option<NodeId>,
) -> bool
    requires m { ChildBelow (length pool.now.trees) m }
    requires n { ChildBelow (length pool.now.trees) n }
    requires r { ChildBelow (length pool.now.trees) r }
    ensures { result ≡ truths.is_truth_of_equality (tree_at pool.now.trees m)
        (tree_at pool.now.trees n) (tree_at pool.now.trees r) }
{
    if stands_beside(pool, Head::Yes, n, r, m) {
        return true;
    }
    if same(pool, n, m) && is_alone(pool, Head::Yes, r) {
        return true;
    }
    is_over(pool, Head::Eq, n, m, r)
}

/// Whether a conjunction is equal to a term.
fn is_truth_of_and(pool: &Pool, m: Option<NodeId>, n: Option<NodeId>, r: Option<NodeId>) -> bool
    requires m { ChildBelow (length pool.now.trees) m }
    requires n { ChildBelow (length pool.now.trees) n }
    requires r { ChildBelow (length pool.now.trees) r }
    ensures { result ≡ truths.is_truth_of_and (tree_at pool.now.trees m)
        (tree_at pool.now.trees n) (tree_at pool.now.trees r) }
{
    if stands_beside(pool, Head::Yes, n, r, m) {
        return true;
    }
    if stands_beside(pool, Head::Yes, m, r, n) {
        return true;
    }
    if are_alone(pool, Head::No, n, Head::No, r) {
        return true;
    }
    are_alone(pool, Head::No, m, Head::No, r)
}

/// Whether a disjunction is equal to a term.
fn is_truth_of_or(pool: &Pool, m: Option<NodeId>, n: Option<NodeId>, r: Option<NodeId>) -> bool
    requires m { ChildBelow (length pool.now.trees) m }
    requires n { ChildBelow (length pool.now.trees) n }
    requires r { ChildBelow (length pool.now.trees) r }
    ensures { result ≡ truths.is_truth_of_or (tree_at pool.now.trees m)
        (tree_at pool.now.trees n) (tree_at pool.now.trees r) }
{
    if are_alone(pool, Head::Yes, n, Head::Yes, r) {
        return true;
    }
    if are_alone(pool, Head::Yes, m, Head::Yes, r) {
        return true;
    }
    if stands_beside(pool, Head::No, n, r, m) {
        return true;
    }
    stands_beside(pool, Head::No, m, r, n)
}

/// Whether a term is what a negation denies.
#[tactic(auto, using(crate::proofs::truths::Forms::truths))]
fn is_double(pool: &Pool, m: Option<NodeId>, r: Option<NodeId>) -> bool
    requires m { ChildBelow (length pool.now.trees) m }
    requires r { ChildBelow (length pool.now.trees) r }
    ensures { result ≡ truths.is_double (tree_at pool.now.trees m) (tree_at pool.now.trees r) }
{
    let Some((a, _)) = sides(pool, Head::Not, m) else {
        return false;
    };
    same(pool, r, a)
}

/// Whether a term is the equation of another one with `false`.
#[tactic(auto, using(crate::proofs::truths::Forms::truths))]
fn is_denial(pool: &Pool, m: Option<NodeId>, r: Option<NodeId>) -> bool
    requires m { ChildBelow (length pool.now.trees) m }
    requires r { ChildBelow (length pool.now.trees) r }
    ensures { result ≡ same_tree (tree_at pool.now.trees r)
        (Node Eq (tree_at pool.now.trees m) (lone No)) }
{
    let Some((a, b)) = sides(pool, Head::Eq, r) else {
        return false;
    };
    same(pool, a, m) && is_alone(pool, Head::No, b)
}

/// Whether a negation is equal to a term.
fn is_truth_of_not(pool: &Pool, m: Option<NodeId>, r: Option<NodeId>) -> bool
    requires m { ChildBelow (length pool.now.trees) m }
    requires r { ChildBelow (length pool.now.trees) r }
    ensures { result ≡ truths.is_truth_of_not (tree_at pool.now.trees m)
        (tree_at pool.now.trees r) }
{
    if is_denial(pool, m, r) {
        return true;
    }
    if are_alone(pool, Head::Yes, m, Head::No, r) {
        return true;
    }
    if are_alone(pool, Head::No, m, Head::Yes, r) {
        return true;
    }
    is_double(pool, m, r)
}

/// Whether two terms are equal, whatever their parts are.
#[tactic(auto, using(crate::proofs::truths::Forms::truths))]
fn is_truth_of_sides(pool: &Pool, l: Option<NodeId>, r: Option<NodeId>) -> bool
    requires l { ChildBelow (length pool.now.trees) l }
    requires r { ChildBelow (length pool.now.trees) r }
    ensures { result ≡ truths.is_truth_of_sides (tree_at pool.now.trees l)
        (tree_at pool.now.trees r) }
{
    if let Some((m, n)) = sides(pool, Head::Eq, l) {
        return is_truth_of_equality(pool, m, n, r);
    }
    if let Some((m, n)) = sides(pool, Head::And, l) {
        return is_truth_of_and(pool, m, n, r);
    }
    if let Some((m, n)) = sides(pool, Head::Or, l) {
        return is_truth_of_or(pool, m, n, r);
    }
    let Some((m, _)) = sides(pool, Head::Not, l) else {
        return false;
    };
    is_truth_of_not(pool, m, r)
}

/// Whether a term is an equation of truth values that always holds.
#[tactic(auto, using(crate::proofs::truths::Forms::truths))]
fn is_truth_of_equation(pool: &Pool, term: Option<NodeId>) -> bool
    requires { ChildBelow (length pool.now.trees) term }
    ensures { result ≡ truths.is_truth_of_equation (tree_at pool.now.trees term) }
{
    let Some((l, r)) = sides(pool, Head::Eq, term) else {
        return false;
    };
    if says_so(pool, l, r) {
        return true;
    }
    is_truth_of_sides(pool, l, r)
}

/// Whether a term is the equation of another one with `true`.
#[tactic(auto, using(crate::proofs::truths::Forms::truths))]
fn says_so(pool: &Pool, l: Option<NodeId>, r: Option<NodeId>) -> bool
    requires l { ChildBelow (length pool.now.trees) l }
    requires r { ChildBelow (length pool.now.trees) r }
    ensures { result ≡ same_tree (tree_at pool.now.trees r)
        (Node Eq (tree_at pool.now.trees l) (lone Yes)) }
{
    let Some((a, b)) = sides(pool, Head::Eq, r) else {
        return false;
    };
    same(pool, a, l) && is_alone(pool, Head::Yes, b)
}

/// Whether a term is true of truth values, whatever its parts are.
pub fn is_truth(pool: &Pool, term: Option<NodeId>) -> bool
    requires { ChildBelow (length pool.now.trees) term }
    ensures { result ≡ truths.is_truth (tree_at pool.now.trees term) }
{
    if is_alone(pool, Head::Yes, term) {
        return true;
    }
    is_truth_of_equation(pool, term)
}
