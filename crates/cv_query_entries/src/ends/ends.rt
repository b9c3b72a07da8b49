ghost use Rattle.std.specs.Prelude.{◌≡◌, ◌<◌, ◌≤◌, ◌∷◌, [], IfSome, IsNone, drop, length};
ghost use Rattle.cv_pool.specs.Nodes.{ChildBelow};
ghost use Rattle.cv_syntax_trees.specs.declared.head.Head.TheVariants.{Eq};
ghost use Rattle.cv_syntax_trees.specs.Tree.{Node};
ghost use Rattle.cv_syntax.specs.PoolTrees.{tree_at};
ghost use Rattle.cv_scene.specs.lines.Ends.{is_end, same_statement, same_statements};
ghost use Rattle.cv_scene.specs.lines.Lines.{Holds, IsDefined, lines_of, statements};
ghost use Rattle.cv_scene.specs.lines.Truths.{no};
ghost use Rattle.cv_derive_lines.specs.Views.{IsClaimBelow, statement_of};
ghost use Rattle.cv_query_entries.specs.terms.Parts.{IsGivenBelow, part_tree};
ghost use Rattle.cv_query_entries.specs.ends.Said.{said_equal};

use crate::ends::last::{last_lines, last_term};
use crate::terms::{Given, Part, read_part, same_part};
use cv_derive_lines::{Claim, claim_of, line_of};
use cv_derive_reasons::inferences::{is_alone, sides};
use cv_syntax::children::is_empty;
use cv_syntax::{Head, NodeId, Pool, read_node, same};

/// The lines that are left behind others.
#[derive(Clone, Copy)]
struct Rest {
    lines: Option<NodeId>,
}

/// The lines behind as many as there are equations, where there are so many.
fn behind_equations(
    pool: &Pool,
    lines: Option<NodeId>,
    left: &Given,
    ms: Part,
    right: &Given,
    ns: Part,
) -> Option<Rest>
    requires lines { ChildBelow (length pool.now.trees) lines }
    requires left { IsGivenBelow (length pool.now.trees) left.now }
    requires ms { ChildBelow (length pool.now.trees) ms.node }
    requires right { IsGivenBelow (length pool.now.trees) right.now }
    requires ns { ChildBelow (length pool.now.trees) ns.node }
    ensures rest { IfSome result (λ r. statements (lines_of (tree_at pool.now.trees r.lines))
        ≡ drop (length (said_equal (part_tree pool.now.trees left.now ms)
        (part_tree pool.now.trees right.now ns)))
        (statements (lines_of (tree_at pool.now.trees lines)))) }
    ensures enough { IfSome result (λ r. length (said_equal (part_tree pool.now.trees left.now ms)
        (part_tree pool.now.trees right.now ns))
        ≤ length (statements (lines_of (tree_at pool.now.trees lines)))) }
    ensures few { IsNone result → length (statements (lines_of (tree_at pool.now.trees lines)))
        < length (said_equal (part_tree pool.now.trees left.now ms)
        (part_tree pool.now.trees right.now ns)) }
    ensures live { IfSome result (λ r. ChildBelow (length pool.now.trees) r.lines) }
{
    let mut at = lines;
    let mut m = ms;
    let mut n = ns;
    'pairs: while let Some(x) = read_part(pool, left, m) {
        let Some(y) = read_part(pool, right, n) else {
            return Some(Rest { lines: at });
        };
        let Some(k) = at else {
            return None;
        };
        let line = read_node(pool, k);
        at = line.second;
        m = x.second;
        n = y.second;
    }
    Some(Rest { lines: at })
}

/// Whether a line says that two terms are equal.
fn says_equal(pool: &Pool, claim: Claim, left: &Given, m: Part, right: &Given, n: Part) -> bool
    requires claim { IsClaimBelow (length pool.now.trees) claim }
    requires left { IsGivenBelow (length pool.now.trees) left.now }
    requires m { ChildBelow (length pool.now.trees) m.node }
    requires right { IsGivenBelow (length pool.now.trees) right.now }
    requires n { ChildBelow (length pool.now.trees) n.node }
    ensures { result ≡ same_statement (statement_of pool.now.trees claim)
        (Holds (Node Eq (part_tree pool.now.trees left.now m)
        (part_tree pool.now.trees right.now n))) }
{
    let Claim::Holds(term) = claim else {
        return false;
    };
    let Some(both) = sides(pool, Head::Eq, term) else {
        return false;
    };
    same_part(pool, left, both.0, m) && same_part(pool, right, both.1, n)
}

/// Whether lines say that the terms of two lists are equal, one by one, and nothing else.
fn say_equal(
    pool: &Pool,
    lines: Option<NodeId>,
    left: &Given,
    ms: Part,
    right: &Given,
    ns: Part,
) -> bool
    requires lines { ChildBelow (length pool.now.trees) lines }
    requires left { IsGivenBelow (length pool.now.trees) left.now }
    requires ms { ChildBelow (length pool.now.trees) ms.node }
    requires right { IsGivenBelow (length pool.now.trees) right.now }
    requires ns { ChildBelow (length pool.now.trees) ns.node }
    ensures { result ≡ same_statements (statements (lines_of (tree_at pool.now.trees lines)))
        (said_equal (part_tree pool.now.trees left.now ms)
        (part_tree pool.now.trees right.now ns)) }
{
    let mut at = lines;
    let mut m = ms;
    let mut n = ns;
    'pairs: while let Some(x) = read_part(pool, left, m) {
        let Some(y) = read_part(pool, right, n) else {
            return is_empty(pool, at);
        };
        let Some(k) = at else {
            return false;
        };
        let line = read_node(pool, k);
        let claim = claim_of(line_of(pool, line.first));
        if !says_equal(pool, claim, left, x.first, right, y.first) {
            return false;
        }
        at = line.second;
        m = x.second;
        n = y.second;
    }
    is_empty(pool, at)
}

/// Whether the last lines of a derivation say that the terms of two lists are equal, one by one.
pub fn ends_with_equations(
    pool: &Pool,
    by: Option<NodeId>,
    left: &Given,
    ms: Part,
    right: &Given,
    ns: Part,
) -> bool
    requires by { ChildBelow (length pool.now.trees) by }
    requires left { IsGivenBelow (length pool.now.trees) left.now }
    requires ms { ChildBelow (length pool.now.trees) ms.node }
    requires right { IsGivenBelow (length pool.now.trees) right.now }
    requires ns { ChildBelow (length pool.now.trees) ns.node }
    ensures { result ≡ is_end (statements (lines_of (tree_at pool.now.trees by)))
        (said_equal (part_tree pool.now.trees left.now ms)
        (part_tree pool.now.trees right.now ns)) }
{
    let Some(rest) = behind_equations(pool, by, left, ms, right, ns) else {
        return false;
    };
    let last = last_lines(pool, by, rest.lines);
    say_equal(pool, last, left, ms, right, ns)
}

/// Whether lines say that a cell is defined and that the terms of two lists are equal, one by one, and nothing else.
fn say_cell(
    pool: &Pool,
    lines: Option<NodeId>,
    cell: Option<NodeId>,
    left: &Given,
    ms: Part,
    right: &Given,
    ns: Part,
) -> bool
    requires lines { ChildBelow (length pool.now.trees) lines }
    requires cell { ChildBelow (length pool.now.trees) cell }
    requires left { IsGivenBelow (length pool.now.trees) left.now }
    requires ms { ChildBelow (length pool.now.trees) ms.node }
    requires right { IsGivenBelow (length pool.now.trees) right.now }
    requires ns { ChildBelow (length pool.now.trees) ns.node }
    ensures { result ≡ same_statements (statements (lines_of (tree_at pool.now.trees lines)))
        (IsDefined (tree_at pool.now.trees cell) ∷ said_equal
        (part_tree pool.now.trees left.now ms) (part_tree pool.now.trees right.now ns)) }
{
    let Some(k) = lines else {
        return false;
    };
    let line = read_node(pool, k);
    let Claim::IsDefined(found) = claim_of(line_of(pool, line.first)) else {
        return false;
    };
    same(pool, found, cell) && say_equal(pool, line.second, left, ms, right, ns)
}

/// Whether the last lines of a derivation say that a cell is defined, and then that the terms of two lists are equal, one by
/// one.
pub fn ends_with_cell(
    pool: &Pool,
    by: Option<NodeId>,
    cell: Option<NodeId>,
    left: &Given,
    ms: Part,
    right: &Given,
    ns: Part,
) -> bool
    requires by { ChildBelow (length pool.now.trees) by }
    requires cell { ChildBelow (length pool.now.trees) cell }
    requires left { IsGivenBelow (length pool.now.trees) left.now }
    requires ms { ChildBelow (length pool.now.trees) ms.node }
    requires right { IsGivenBelow (length pool.now.trees) right.now }
    requires ns { ChildBelow (length pool.now.trees) ns.node }
    ensures { result ≡ is_end (statements (lines_of (tree_at pool.now.trees by)))
        (IsDefined (tree_at pool.now.trees cell) ∷ said_equal
        (part_tree pool.now.trees left.now ms) (part_tree pool.now.trees right.now ns)) }
{
    let Some(k) = by else {
        return false;
    };
    let line = read_node(pool, k);
    let Some(rest) = behind_equations(pool, line.second, left, ms, right, ns) else {
        return false;
    };
    let last = last_lines(pool, by, rest.lines);
    say_cell(pool, last, cell, left, ms, right, ns)
}

/// Whether the last line of a derivation says that a term is true.
pub fn ends_with_term(pool: &Pool, by: Option<NodeId>, given: &Given, term: Part) -> bool
    requires by { ChildBelow (length pool.now.trees) by }
    requires given { IsGivenBelow (length pool.now.trees) given.now }
    requires term { ChildBelow (length pool.now.trees) term.node }
    ensures { result ≡ is_end (statements (lines_of (tree_at pool.now.trees by)))
        (Holds (part_tree pool.now.trees given.now term) ∷ []) }
{
    match last_term(pool, by) {
        Some(found) => same_part(pool, given, found.term, term),
        None => false,
    }
}

/// Whether the last line of a derivation is `false`.
pub fn ends_with_falsity(pool: &Pool, by: Option<NodeId>) -> bool
    requires { ChildBelow (length pool.now.trees) by }
    ensures { result ≡ is_end (statements (lines_of (tree_at pool.now.trees by))) (Holds no ∷ []) }
{
    match last_term(pool, by) {
        Some(found) => is_alone(pool, Head::No, found.term),
        None => false,
    }
}
