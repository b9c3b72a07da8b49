ghost use Rattle.std.specs.Prelude.{◌≡◌, ◌<◌, ◌&&◌, length};
ghost use Rattle.std.specs.List.{list_any};
ghost use Rattle.cv_pool.specs.Nodes.{ChildBelow};
ghost use Rattle.cv_syntax_trees.specs.Tree.{same_tree};
ghost use Rattle.cv_syntax.specs.PoolTrees.{tree_at};
ghost use Rattle.cv_scene.specs.Late as late;
ghost use Rattle.cv_scene.specs.Reasons as reasons;
ghost use Rattle.cv_scene.specs.Reasons.{is_tree};
ghost use Rattle.cv_scene.specs.Sights.{from_one, site_cells, site_facts};
ghost use Rattle.cv_scene.specs.lines.Inferences as inferences;
ghost use Rattle.cv_scene.specs.lines.Inferences.{number_of};
ghost use Rattle.cv_scene.specs.lines.Truths.{no};
ghost use Rattle.cv_derive_lines.specs.Views.{IsClaimBelow, statement_of};
ghost use Rattle.cv_derive_lines.specs.citing.Bookmarks.{CanCite};
ghost use Rattle.cv_derive.specs.Following.{follows_by};
ghost use Rattle.cv_derive.specs.Seen.{IsAssumedBelow, Sees, assumed_of, sight_of, trees_of, visible_by};

use crate::defined::is_defined_under;
use crate::facts::is_fact_under;
use crate::indices::are_current;
use crate::seconds::{is_cell_of, is_distinct_of, is_fact_of, is_given_of};
use crate::sight::{Assumed, Sight};
use crate::sites::{is_site_cell, is_site_fact};
use cv_derive_lines::Claim;
use cv_derive_lines::citing::{Citing, cited_cell, cited_term, number};
use cv_derive_lines::terms::{is_congruent, is_instance, is_typed_claim};
use cv_derive_reasons::cells::{front, variable};
use cv_derive_reasons::inferences::{
    is_alone, is_both, is_left, is_over, is_reflexive, is_refuted, is_replaced_by, is_right_side,
    is_symmetric, is_transitive,
};
use cv_derive_reasons::injectivity::is_injective;
use cv_derive_reasons::late::is_late;
use cv_derive_reasons::truths::is_truth;
use cv_syntax::children::{first_of, is_empty, read_child};
use cv_syntax::{Head, NodeId, Opened, Pool, same};
use cv_typing::Arrays;

/// Whether a term is the fact of a number at the place.
fn is_fact(s: &Sight, k: Option<NodeId>, term: Option<NodeId>) -> bool
    requires sees { Sees s.now }
    requires number { ChildBelow (length (trees_of s.now)) k }
    requires term { ChildBelow (length (trees_of s.now)) term }
    ensures { result ≡ is_tree (from_one (sight_of s.now).facts
        (number_of (tree_at (trees_of s.now) k))) (tree_at (trees_of s.now) term) }
{
    let k = number(&s.work.pool, k);
    let none = front(s.replications, 0);
    is_fact_under(
        s.work,
        s.sizes,
        s.game,
        s.place,
        s.replications,
        none,
        None,
        k,
        term,
    )
}

/// Whether a term is the fact of a number at the site of a cited cell.
fn is_fact_there(
    s: &Sight,
    citing: &Citing,
    line: Option<NodeId>,
    k: Option<NodeId>,
    term: Option<NodeId>,
) -> bool
    requires sees { Sees s.now }
    requires citing { CanCite (trees_of s.now) citing.now }
    requires line { ChildBelow (length (trees_of s.now)) line }
    requires number { ChildBelow (length (trees_of s.now)) k }
    requires term { ChildBelow (length (trees_of s.now)) term }
    ensures { result ≡ is_tree (from_one (site_facts (sight_of s.now)
        (inferences.cited_cell (visible_by s.now citing.now) (tree_at (trees_of s.now) line)))
        (number_of (tree_at (trees_of s.now) k))) (tree_at (trees_of s.now) term) }
{
    let cell = cited_cell(&s.work.pool, citing, line);
    let k = number(&s.work.pool, k);
    match s.arrays {
        Arrays::OfGame(directory) => is_site_fact(
            s.work, s.sizes, s.game, directory, cell, k, term,
        ),
        Arrays::OfSide(_, _) => false,
        Arrays::OfNothing => false,
    }
}

/// Whether a cell is directly defined at the place.
fn is_here(s: &Sight, cell: Option<NodeId>) -> bool
    requires sees { Sees s.now }
    requires cell { ChildBelow (length (trees_of s.now)) cell }
    ensures { result ≡ list_any (same_tree (tree_at (trees_of s.now) cell)) (sight_of s.now).cells }
{
    let none = front(s.replications, 0);
    is_defined_under(
        s.work,
        s.sizes,
        s.game,
        s.place,
        s.replications,
        none,
        None,
        cell,
    )
}

/// Whether a cell is directly defined at the site of a cited cell.
fn is_there(s: &Sight, citing: &Citing, line: Option<NodeId>, cell: Option<NodeId>) -> bool
    requires sees { Sees s.now }
    requires citing { CanCite (trees_of s.now) citing.now }
    requires line { ChildBelow (length (trees_of s.now)) line }
    requires cell { ChildBelow (length (trees_of s.now)) cell }
    ensures { result ≡ list_any (same_tree (tree_at (trees_of s.now) cell))
        (site_cells (sight_of s.now)
        (inferences.cited_cell (visible_by s.now citing.now) (tree_at (trees_of s.now) line))) }
{
    let other = cited_cell(&s.work.pool, citing, line);
    match s.arrays {
        Arrays::OfGame(directory) => is_site_cell(s.work, s.sizes, s.game, directory, other, cell),
        Arrays::OfSide(_, _) => false,
        Arrays::OfNothing => false,
    }
}

/// Whether a cited cell is one at current indices of a variable that comes later than the place, where there is no second one.
fn is_late_cell(s: &Sight, citing: &Citing, line: Option<NodeId>, lines: Option<NodeId>) -> bool
    requires sees { Sees s.now }
    requires citing { CanCite (trees_of s.now) citing.now }
    requires line { ChildBelow (length (trees_of s.now)) line }
    requires lines { ChildBelow (length (trees_of s.now)) lines }
    ensures { result ≡ late.is_late_cell (sight_of s.now) (visible_by s.now citing.now)
        (inferences.cited_cell (visible_by s.now citing.now) (tree_at (trees_of s.now) line))
        (tree_at (trees_of s.now) lines) }
{
    if s.second.is_some() {
        return false;
    }
    let pool = &s.work.pool;
    let cell = cited_cell(pool, citing, line);
    let Some(x) = variable(pool, cell) else {
        return false;
    };
    if !is_late(pool, s.sizes, s.game, s.place, x) {
        return false;
    }
    let indices = first_of(pool, cell);
    are_current(pool, citing, s.replications, indices, lines)
}

/// Whether a term is `false`, and a cited cell one that isn't defined yet.
fn is_early(
    s: &Sight,
    citing: &Citing,
    line: Option<NodeId>,
    lines: Option<NodeId>,
    term: Option<NodeId>,
) -> bool
    requires sees { Sees s.now }
    requires citing { CanCite (trees_of s.now) citing.now }
    requires line { ChildBelow (length (trees_of s.now)) line }
    requires lines { ChildBelow (length (trees_of s.now)) lines }
    requires term { ChildBelow (length (trees_of s.now)) term }
    ensures { result ≡ (same_tree (tree_at (trees_of s.now) term) no
        && late.is_late_cell (sight_of s.now) (visible_by s.now citing.now)
        (inferences.cited_cell (visible_by s.now citing.now) (tree_at (trees_of s.now) line))
        (tree_at (trees_of s.now) lines)) }
{
    if !is_alone(&s.work.pool, Head::No, term) {
        return false;
    }
    is_late_cell(s, citing, line, lines)
}

/// Whether a term is what is assumed.
#[tactic(auto, using(crate::proofs::Patterns::assumptions))]
fn is_assumed(pool: &Pool, assumed: Assumed, term: Option<NodeId>) -> bool
    requires assumed { IsAssumedBelow (length pool.now.trees) assumed }
    requires term { ChildBelow (length pool.now.trees) term }
    ensures { result ≡ same_tree (tree_at pool.now.trees term) (assumed_of pool.now.trees assumed) }
{
    match assumed {
        Assumed::Nothing => is_empty(pool, term),
        Assumed::Holds(condition) => same(pool, term, condition),
        Assumed::Fails(condition) => is_over(pool, Head::Not, condition, None, term),
    }
}

/// Whether a term follows from cited lines by their terms alone.
fn follows(s: &Sight, citing: &Citing, term: Option<NodeId>, reason: Opened) -> bool
    requires sees { Sees s.now }
    requires citing { CanCite (trees_of s.now) citing.now }
    requires term { ChildBelow (length (trees_of s.now)) term }
    requires first { ChildBelow (length (trees_of s.now)) reason.first }
    requires second { ChildBelow (length (trees_of s.now)) reason.second }
    ensures { result ≡ follows_by (visible_by s.now citing.now)
        (tree_at (trees_of s.now) term) reason.head (tree_at (trees_of s.now) reason.first)
        (tree_at (trees_of s.now) reason.second) }
{
    let pool = &s.work.pool;
    match reason.head {
        Head::ByRefl => is_reflexive(pool, term),
        Head::ByBool => is_truth(pool, term),
        _ => {
            let line = cited_term(pool, citing, reason.first);
            match reason.head {
                Head::BySym => is_symmetric(pool, line, term),
                Head::ByTrans => {
                    let next = cited_term(pool, citing, reason.second);
                    is_transitive(pool, line, next, term)
                }
                Head::ByMp => {
                    let next = cited_term(pool, citing, reason.second);
                    is_replaced_by(pool, line, next, term)
                }
                Head::ByAnd => {
                    let next = cited_term(pool, citing, reason.second);
                    is_both(pool, line, next, term)
                }
                Head::ByLeft => is_left(pool, line, term),
                Head::ByRight => is_right_side(pool, line, term),
                Head::ByContra => {
                    let next = cited_term(pool, citing, reason.second);
                    is_refuted(pool, line, next, term)
                }
                Head::ByExfalso => is_alone(pool, Head::No, line),
                Head::ByAgain => same(pool, term, line),
                _ => false,
            }
        }
    }
}

/// Whether a reason is one for a term.
fn is_reason(
    s: &Sight,
    assumed: Assumed,
    citing: &Citing,
    term: Option<NodeId>,
    reason: Option<NodeId>,
) -> bool
    requires sees { Sees s.now }
    requires citing { CanCite (trees_of s.now) citing.now }
    requires assumed { IsAssumedBelow (length (trees_of s.now)) assumed }
    requires term { ChildBelow (length (trees_of s.now)) term }
    requires reason { ChildBelow (length (trees_of s.now)) reason }
    ensures { result ≡ reasons.is_reason (sight_of s.now) (assumed_of (trees_of s.now) assumed)
        (visible_by s.now citing.now) (tree_at (trees_of s.now) term)
        (tree_at (trees_of s.now) reason) }
{
    let pool = &s.work.pool;
    let Some(node) = read_child(pool, reason) else {
        return false;
    };
    match node.head {
        Head::ByFact => is_fact(s, node.first, term),
        Head::BySite => is_fact_there(s, citing, node.first, node.second, term),
        Head::ByEquation => is_instance(s.work, s.arrays, s.above, node.first, node.second, term),
        Head::ByCong => is_congruent(pool, s.above, citing, node.first, term),
        Head::ByData => is_injective(s.work, term),
        Head::ByGiven => is_assumed(pool, assumed, term),
        Head::ByLate => is_early(s, citing, node.first, node.second, term),
        Head::ByOtherFact => is_fact_of(s, node.first, term),
        Head::BySame => is_given_of(s, node.first, term),
        Head::ByDistinct => is_distinct_of(s, citing, node.first, node.second, term),
        _ => follows(s, citing, term, node),
    }
}

/// Whether a reason is one for a cell.
fn is_reason_of_cell(
    s: &Sight,
    citing: &Citing,
    cell: Option<NodeId>,
    reason: Option<NodeId>,
) -> bool
    requires sees { Sees s.now }
    requires citing { CanCite (trees_of s.now) citing.now }
    requires cell { ChildBelow (length (trees_of s.now)) cell }
    requires reason { ChildBelow (length (trees_of s.now)) reason }
    ensures { result ≡ reasons.is_reason_of_cell (sight_of s.now) (visible_by s.now citing.now)
        (tree_at (trees_of s.now) cell) (tree_at (trees_of s.now) reason) }
{
    let pool = &s.work.pool;
    let Some(node) = read_child(pool, reason) else {
        return false;
    };
    match node.head {
        Head::ByHere => is_here(s, cell),
        Head::ByOf => is_there(s, citing, node.first, cell),
        Head::ByOtherHere => is_cell_of(s, cell),
        Head::ByExfalso => {
            let line = cited_term(pool, citing, node.first);
            is_alone(pool, Head::No, line)
        }
        Head::ByAgain => {
            let line = cited_cell(pool, citing, node.first);
            same(pool, cell, line)
        }
        _ => false,
    }
}

/// Whether a line is right: what it says is typed, and the reason is one for it.
pub(crate) fn is_right(
    s: &Sight,
    assumed: Assumed,
    citing: &Citing,
    claim: Claim,
    reason: Option<NodeId>,
) -> bool
    requires sees { Sees s.now }
    requires citing { CanCite (trees_of s.now) citing.now }
    requires assumed { IsAssumedBelow (length (trees_of s.now)) assumed }
    requires claim { IsClaimBelow (length (trees_of s.now)) claim }
    requires reason { ChildBelow (length (trees_of s.now)) reason }
    ensures { result ≡ reasons.is_right (sight_of s.now) (assumed_of (trees_of s.now) assumed)
        (visible_by s.now citing.now) (statement_of (trees_of s.now) claim)
        (tree_at (trees_of s.now) reason) }
{
    if !is_typed_claim(s.work, s.arrays, s.above, claim) {
        return false;
    }
    match claim {
        Claim::Holds(term) => is_reason(s, assumed, citing, term, reason),
        Claim::IsDefined(cell) => is_reason_of_cell(s, citing, cell, reason),
    }
}
