ghost use Rattle.std.specs.Prelude.{◌≡◌, ◌+◌, ◌<◌, ◌^◌, All, IfOk, drop, length, map};
ghost use Rattle.cv_pool.specs.Nodes.{ChildBelow};
ghost use Rattle.cv_syntax_trees.specs.declared.head.Head.TheVariants.{Eq};
ghost use Rattle.cv_syntax_trees.specs.Tree.{Node, same_tree};
ghost use Rattle.cv_syntax.specs.PoolTrees.{tree_at};
ghost use Rattle.cv_scope_rules.specs.Context.{cell_of, cells_of, items};
ghost use Rattle.cv_derive_lines.specs.Views.{IsClaimBelow, statement_of};
ghost use Rattle.cv_scene.specs.lines.Ends as ends;
ghost use Rattle.cv_scene.specs.lines.Lines.{lines_of, statements};
ghost use Rattle.cv_rule_pick.specs.Picking as picking;
ghost use Rattle.cv_rule_pick.specs.Wanted.{IsLiveWanted, put, wanted_of};
ghost use Rattle.cv_rule_pick.specs.declared.targets.Given.{Given};

use crate::cells::{is_cell, term_of};
use cv_derive_lines::{Claim, claim_of, line_of};
use cv_derive_reasons::inferences::sides;
use cv_syntax::children::is_empty;
use cv_syntax::{Head, NodeId, Pool, read_node, same};
use std::alloc::{AllocError, Global};

/// What a line says that a derivation is to end with.
#[derive(Clone, Copy)]
pub(crate) enum Wanted {
    /// An index variable is its term.
    Equation(u32, Option<NodeId>),
    /// A cell is defined, with terms for index variables.
    Cell(Option<NodeId>),
    /// A condition holds, with terms for index variables.
    Condition(Option<NodeId>),
}

/// Index variables by their binders, with the replications above and a term for each.
#[derive(Clone, Copy)]
pub(crate) struct Given<'a> {
    pub(crate) binders: Option<NodeId>,
    pub(crate) replications: &'a [(u32, u32)],
    pub(crate) terms: Option<NodeId>,
}

/// What the lines of a derivation say outside blocks.
pub(crate) fn claims(
    alloc: Global,
    pool: &Pool,
    lines: Option<NodeId>,
) -> Result<Vec<Claim>, AllocError>
    requires { ChildBelow (length pool.now.trees) lines }
    ensures said { IfOk result (λ cs. map (statement_of pool.now.trees) cs.items
        ≡ statements (lines_of (tree_at pool.now.trees lines))) }
    ensures live { IfOk result (λ cs. All (IsClaimBelow (length pool.now.trees)) cs.items) }
{
    let mut claims = Vec::new(alloc);
    let mut at = lines;
    'lines: while let Some(k) = at {
        let node = read_node(pool, k);
        claims.push(claim_of(line_of(pool, node.first)))?;
        at = node.second;
    }
    Ok(claims)
}

/// Whether a tree is another one with terms for index variables.
fn is_with_terms(pool: &Pool, given: Given, tree: Option<NodeId>, start: Option<NodeId>) -> bool
    requires binders { ChildBelow (length pool.now.trees) given.binders }
    requires terms { ChildBelow (length pool.now.trees) given.terms }
    requires tree { ChildBelow (length pool.now.trees) tree }
    requires start { ChildBelow (length pool.now.trees) start }
    ensures { result ≡ same_tree (tree_at pool.now.trees tree)
        (put pool.now.trees given.entry (tree_at pool.now.trees start)) }
{
    let mut at = start;
    let mut other = tree;
    'chain: while let Some(k) = at {
        let node = read_node(pool, k);
        let put = term_of(pool, k, given.binders, given.replications, given.terms);
        if let Some(term) = put {
            return same(pool, other, term);
        }
        let Some((first, second)) = sides(pool, node.head, other) else {
            return false;
        };
        if !is_with_terms(pool, given, first, node.first) {
            return false;
        }
        at = node.second;
        other = second;
    }
    is_empty(pool, other)
}

/// Whether a term says that the cell of a variable is another term.
fn says_equation(
    pool: &Pool,
    said: Option<NodeId>,
    x: u32,
    replications: &[(u32, u32)],
    term: Option<NodeId>,
) -> bool
    requires said { ChildBelow (length pool.now.trees) said }
    requires term { ChildBelow (length pool.now.trees) term }
    ensures { result ≡ same_tree (tree_at pool.now.trees said)
        (Node Eq (cell_of replications.now x) (tree_at pool.now.trees term)) }
{
    let Some((cell, value)) = sides(pool, Head::Eq, said) else {
        return false;
    };
    is_cell(pool, cell, x, replications) && same(pool, value, term)
}

/// Whether a line says what is wanted.
fn says(pool: &Pool, given: Given, claim: Claim, wanted: Wanted) -> bool
    requires binders { ChildBelow (length pool.now.trees) given.binders }
    requires terms { ChildBelow (length pool.now.trees) given.terms }
    requires claim { IsClaimBelow (length pool.now.trees) claim }
    requires wanted { IsLiveWanted (length pool.now.trees) wanted }
    ensures { result ≡ ends.same_statement (statement_of pool.now.trees claim)
        (wanted_of pool.now.trees given.entry wanted) }
{
    match claim {
        Claim::Holds(said) => match wanted {
            Wanted::Equation(x, term) => says_equation(pool, said, x, given.replications, term),
            Wanted::Condition(condition) => is_with_terms(pool, given, said, condition),
            Wanted::Cell(_) => false,
        },
        Claim::IsDefined(said) => match wanted {
            Wanted::Cell(cell) => is_with_terms(pool, given, said, cell),
            _ => false,
        },
    }
}

/// Whether the last lines, from one on, say what is wanted, one by one.
fn say_all(pool: &Pool, given: Given, claims: &[Claim], from: usize, wanted: &[Wanted]) -> bool
    requires binders { ChildBelow (length pool.now.trees) given.binders }
    requires terms { ChildBelow (length pool.now.trees) given.terms }
    requires claims { All (IsClaimBelow (length pool.now.trees)) claims.now }
    requires wanted { All (IsLiveWanted (length pool.now.trees)) wanted.now }
    requires last { from + length wanted.now ≡ length claims.now }
    ensures { result ≡ ends.same_statements
        (map (statement_of pool.now.trees) (drop from claims.now))
        (map (wanted_of pool.now.trees given.entry) wanted.now) }
{
    'wanted: for k in 0..wanted.len() {
        if !says(pool, given, claims[from + k], wanted[k]) {
            return false;
        }
    }
    true
}

/// Whether the last lines of a derivation say what is wanted.
pub(crate) fn end_with(pool: &Pool, given: Given, claims: &[Claim], wanted: &[Wanted]) -> bool
    requires binders { ChildBelow (length pool.now.trees) given.binders }
    requires terms { ChildBelow (length pool.now.trees) given.terms }
    requires claims { All (IsClaimBelow (length pool.now.trees)) claims.now }
    requires wanted { All (IsLiveWanted (length pool.now.trees)) wanted.now }
    ensures { result ≡ ends.is_end (map (statement_of pool.now.trees) claims.now)
        (map (wanted_of pool.now.trees given.entry) wanted.now) }
{
    if claims.len() < wanted.len() {
        return false;
    }
    say_all(pool, given, claims, claims.len() - wanted.len(), wanted)
}

/// The equations of index variables and their terms.
pub(crate) fn wanted_equations(
    alloc: Global,
    pool: &Pool,
    binders: Option<NodeId>,
    terms: Option<NodeId>,
) -> Result<Vec<Wanted>, AllocError>
    requires binders { ChildBelow (length pool.now.trees) binders }
    requires terms { ChildBelow (length pool.now.trees) terms }
    ensures said { IfOk result (λ ws. (given : Given) →
        map (wanted_of pool.now.trees given) ws.items
        ≡ statements (lines_of (picking.equations (cells_of given.replications.now
        (tree_at pool.now.trees binders)) (tree_at pool.now.trees terms)))) }
    ensures live { IfOk result (λ ws. All (IsLiveWanted (length pool.now.trees)) ws.items) }
{
    let mut wanted = Vec::new(alloc);
    let mut at = binders;
    let mut left = terms;
    'binders: while let Some(n) = at {
        let binder = read_node(pool, n);
        let Head::Binder(x, _) = binder.head else {
            return Ok(wanted);
        };
        let Some(k) = left else {
            return Ok(wanted);
        };
        let link = read_node(pool, k);
        wanted.push(Wanted::Equation(x, link.first))?;
        at = binder.second;
        left = link.second;
    }
    Ok(wanted)
}

/// What a branch asks for: its cells, and its condition.
pub(crate) fn wanted_guards(
    alloc: Global,
    pool: &Pool,
    cells: Option<NodeId>,
    condition: Option<NodeId>,
) -> Result<Vec<Wanted>, AllocError>
    requires cells { ChildBelow (length pool.now.trees) cells }
    requires condition { ChildBelow (length pool.now.trees) condition }
    ensures said { IfOk result (λ ws. (given : Given) →
        map (wanted_of pool.now.trees given) ws.items
        ≡ statements (lines_of (picking.guards
        (map (put pool.now.trees given) (items (tree_at pool.now.trees cells)))
        (put pool.now.trees given (tree_at pool.now.trees condition))))) }
    ensures live { IfOk result (λ ws. All (IsLiveWanted (length pool.now.trees)) ws.items) }
{
    let mut wanted = Vec::new(alloc);
    let mut at = cells;
    'cells: while let Some(n) = at {
        let link = read_node(pool, n);
        wanted.push(Wanted::Cell(link.first))?;
        at = link.second;
    }
    wanted.push(Wanted::Condition(condition))?;
    Ok(wanted)
}
