ghost use Rattle.std.specs.Prelude.{◌≡◌, ◌+◌, ◌<◌, ◌≤◌, ◌^◌, ℕ, IfSome, List, Some, length, option_map};
ghost use Rattle.cv_pool.specs.KindTree.{KindTree};
ghost use Rattle.cv_pool.specs.Nodes.{ChildBelow};
ghost use Rattle.cv_syntax.specs.PoolTrees.{tree_at};
ghost use Rattle.cv_scene.specs.lines.Inferences as inferences;
ghost use Rattle.cv_scene.specs.lines.Inferences.{cell_in, term_in};
ghost use Rattle.cv_scene.specs.lines.Lines as derivations;
ghost use Rattle.cv_scene.specs.lines.Lines.{lines_of};
ghost use Rattle.cv_derive_lines.specs.Views.{AreBelow, IsClaimBelow, in_front, statement_of};
ghost use Rattle.cv_derive_lines.specs.citing.Bookmarks.{CanCite, visible_to};
ghost use Rattle.cv_derive_lines.specs.citing.Citing.{IsEndBelow, IsNextBelow, IsWithin, cited_from, found};

use crate::citing::bookmarks::Bookmarks;
use crate::{Claim, Line, count, line_of};
use cv_syntax::children::read_child;
use cv_syntax::{Head, NodeId, Pool, read_node};

/// A line that cites others: all lines, some of those that it may cite, and its number. Numbers count from 1.
#[derive(Clone, Copy)]
pub struct Citing<'a> {
    pub lines: Option<NodeId>,
    pub bookmarks: &'a Bookmarks,
    pub number: u32,
}

/// What a line that is looked for says, or the lines in which it is.
#[derive(Clone, Copy)]
enum Search {
    Ends(Option<Claim>),
    Goes { at: Option<NodeId>, start: u32 },
}

/// One step to the line of number l, where that of number n cites it.
#[tactic(auto, unfolding(crate::specs::citing::Citing::cited_from, cv_scene::specs::lines::Lines::count))]
fn step(pool: &Pool, line: Line, rest: Option<NodeId>, start: u32, n: u32, l: u32) -> Search
    requires live { AreBelow (length pool.now.trees) line }
    requires fits { start + derivations.count (in_front pool.now.trees line
        (lines_of (tree_at pool.now.trees rest))) < 2 ^ 32 }
    ensures found { found pool.now.trees n l result ≡ cited_from
        (in_front pool.now.trees line (lines_of (tree_at pool.now.trees rest))) start n l }
    ensures claim { (m : ℕ) → AreBelow m line → IsEndBelow m result }
    ensures next { (m : ℕ) → AreBelow m line → ChildBelow m rest → IsNextBelow m result }
    ensures fits { IsWithin pool.now.trees (start + derivations.count
        (in_front pool.now.trees line (lines_of (tree_at pool.now.trees rest)))) result }
{
    match line {
        Line::By { claim, .. } => {
            if start == n {
                return Search::Ends(None);
            }
            if start == l {
                return Search::Ends(Some(claim));
            }
            Search::Goes {
                at: rest,
                start: start + 1,
            }
        }
        Line::Cases {
            first,
            second,
            conclusion,
            ..
        } => {
            let middle = start + count(pool, first);
            if n < middle {
                return Search::Goes { at: first, start };
            }
            let end = middle + count(pool, second);
            if n < end {
                return Search::Goes {
                    at: second,
                    start: middle,
                };
            }
            if end == n {
                return Search::Ends(None);
            }
            if end == l {
                return Search::Ends(Some(Claim::Holds(conclusion)));
            }
            Search::Goes {
                at: rest,
                start: end + 1,
            }
        }
    }
}

/// What the line of number l says, where that of number n may cite it, in lines of which the first has a number.
fn claim_in(pool: &Pool, lines: Option<NodeId>, first: u32, n: u32, l: u32) -> Option<Claim>
    requires live { ChildBelow (length pool.now.trees) lines }
    requires fits { first + derivations.count (lines_of (tree_at pool.now.trees lines)) < 2 ^ 32 }
    ensures claim { option_map (statement_of pool.now.trees) result
        ≡ cited_from (lines_of (tree_at pool.now.trees lines)) first n l }
    ensures live { IfSome result (IsClaimBelow (length pool.now.trees)) }
{
    let mut at = lines;
    let mut start = first;
    'lines: while let Some(k) = at {
        let node = read_node(pool, k);
        match step(pool, line_of(pool, node.first), node.second, start, n, l) {
            Search::Ends(claim) => return claim,
            Search::Goes {
                at: next,
                start: number,
            } => {
                at = next;
                start = number;
            }
        }
    }
    None
}

/// What the line of number l says, where it may be cited.
pub fn cited_claim(pool: &Pool, citing: &Citing, l: u32) -> Option<Claim>
    requires { CanCite pool.now.trees citing.now }
    ensures claim { option_map (statement_of pool.now.trees) result
        ≡ visible_to pool.now.trees citing.now l }
    ensures live { IfSome result (IsClaimBelow (length pool.now.trees)) }
{
    let Some(line) = citing.bookmarks.last_through(l) else {
        return claim_in(pool, citing.lines, 1, citing.number, l);
    };
    if line.number == l {
        return Some(line.claim);
    }
    claim_in(pool, line.behind, line.number + 1, citing.number, l)
}

/// The term that a line says is true, if it says that of one.
fn term_of(claim: Claim) -> Option<NodeId>
    ensures term { (trees : List KindTree)
        → tree_at trees result ≡ term_in (Some (statement_of trees claim)) }
    ensures live { (m : ℕ) → IsClaimBelow m claim → ChildBelow m result }
{
    match claim {
        Claim::Holds(t) => t,
        Claim::IsDefined(_) => None,
    }
}

/// The cell that a line says is defined, if it says that of one.
fn cell_of(claim: Claim) -> Option<NodeId>
    ensures cell { (trees : List KindTree)
        → tree_at trees result ≡ cell_in (Some (statement_of trees claim)) }
    ensures live { (m : ℕ) → IsClaimBelow m claim → ChildBelow m result }
{
    match claim {
        Claim::Holds(_) => None,
        Claim::IsDefined(c) => c,
    }
}

/// The number of a line, a fact or an equation, or 0.
pub fn number(pool: &Pool, cited: Option<NodeId>) -> u32
    requires { ChildBelow (length pool.now.trees) cited }
    ensures { result ≡ inferences.number_of (tree_at pool.now.trees cited) }
{
    let Some(node) = read_child(pool, cited) else {
        return 0;
    };
    match node.head {
        Head::Number(n) => { if n < 4294967296 { n as u32 } else { 0 } }
        _ => 0,
    }
}

/// The term of the line that is cited, if there is one.
pub fn cited_term(pool: &Pool, citing: &Citing, line: Option<NodeId>) -> Option<NodeId>
    requires citing { CanCite pool.now.trees citing.now }
    requires line { ChildBelow (length pool.now.trees) line }
    ensures term { tree_at pool.now.trees result ≡ inferences.cited_term
        (visible_to pool.now.trees citing.now) (tree_at pool.now.trees line) }
    ensures live { ChildBelow (length pool.now.trees) result }
{
    let k = number(pool, line);
    let Some(claim) = cited_claim(pool, citing, k) else {
        return None;
    };
    term_of(claim)
}

/// The cell of the line that is cited, if there is one.
pub fn cited_cell(pool: &Pool, citing: &Citing, line: Option<NodeId>) -> Option<NodeId>
    requires citing { CanCite pool.now.trees citing.now }
    requires line { ChildBelow (length pool.now.trees) line }
    ensures cell { tree_at pool.now.trees result ≡ inferences.cited_cell
        (visible_to pool.now.trees citing.now) (tree_at pool.now.trees line) }
    ensures live { ChildBelow (length pool.now.trees) result }
{
    let k = number(pool, line);
    let Some(claim) = cited_claim(pool, citing, k) else {
        return None;
    };
    cell_of(claim)
}
