// The bodies that are not reached.
ghost use Rattle.cv_pool.specs.PoolView.{Grows};

use crate::stop::Stop;
use crate::tally::Tally;
use crate::terms::{Given, made, put};
use cv_grounds::{items, open};
use cv_settling_overview::facts::{Citation, Equated};
use cv_settling_overview::walk::{Falsehood, Overview, Pruning, Why};
use cv_step_writer::{Body, Line, Proposal, Reason};
use cv_syntax::{Head, NodeId, Pool};
use std::alloc::{AllocError, Global};

/// The variable of a cell.
fn variable_of(pool: &Pool, cell: NodeId) -> Option<u32> {
    match open(pool, cell)?.head {
        Head::Leaf(x) | Head::Read(x) => Some(x),
        _ => None,
    }
}

/// The only definition of a cell's variable, where `false` is known there.
fn falsehood_of<'a>(pool: &Pool, overview: &'a Overview, cell: NodeId) -> Option<&'a Falsehood> {
    overview.falsehood(variable_of(pool, cell)?)
}

/// Whether a body isn't reached.
fn is_unreached(pool: &Pool, overview: &Overview, why: &Why) -> bool {
    match why {
        Why::Alone => true,
        Why::Held(_) => true,
        Why::Denied(_) => true,
        Why::Cell(cell) => falsehood_of(pool, overview, *cell).is_some(),
        Why::Late { .. } => true,
    }
}

/// Whether what goes with a body has all definitions of a variable that is named elsewhere.
fn has_orphans(
    alloc: Global,
    pool: &Pool,
    overview: &Overview,
    pruning: &Pruning,
) -> Result<bool, AllocError> {
    let mut tally = Tally::new(alloc);
    tally.count(pool, pruning.dropped)?;
    if let Body::Then | Body::Else = pruning.body {
        tally.count(pool, pruning.condition)?;
    }
    for x in tally.defined() {
        let variable = overview.variables.get(*x);
        let names = variable.reads.saturating_add(variable.cells);
        if variable.sites == tally.sites(*x) && names > tally.names(*x) {
            return Ok(true);
        }
    }
    Ok(false)
}

/// Whether an entry is of the body that was counted last.
fn is_repeated(last: Option<(u32, Body)>, pruning: &Pruning) -> bool {
    match last {
        Some((place, body)) => place == pruning.place && body == pruning.body,
        None => false,
    }
}

/// Whether a body may be dropped.
fn is_candidate(
    alloc: Global,
    pool: &Pool,
    overview: &Overview,
    pruning: &Pruning,
) -> Result<bool, AllocError> {
    if !is_unreached(pool, overview, &pruning.why) {
        return Ok(false);
    }
    Ok(!has_orphans(alloc, pool, overview, pruning)?)
}

/// A body that may be dropped, by its number among those that a walk noted: the first one, where so many are passed over. Of the
/// entries of one body the first that may be taken counts.
pub(crate) fn find(
    alloc: Global,
    pool: &Pool,
    overview: &Overview,
    left: &mut u32,
) -> Result<Option<usize>, AllocError> {
    let mut last = None;
    for (k, pruning) in overview.prunings.iter().enumerate() {
        if !is_repeated(last, pruning) && is_candidate(alloc, pool, overview, pruning)? {
            if *left == 0 {
                return Ok(Some(k));
            }
            *left -= 1;
            last = Some((pruning.place, pruning.body));
        }
    }
    Ok(None)
}

/// The number of the last line.
fn last_of(lines: &[Line]) -> u64 {
    lines.len() as u64
}

/// Writes the lines that take a conjunct out of a fact, with terms for names.
#[tactic(auto, using(crate::proofs::Growing::growing))]
fn cite(
    alloc: Global,
    pool: &mut Pool,
    lines: &mut Vec<Line>,
    given: &[Given],
    citation: &Citation,
    by: Reason,
) -> Result<(), Stop>
    ensures { Grows pool.old pool.new }
{
    let inner = put(alloc, pool, given, citation.term)?;
    let term = if citation.is_denied {
        made(pool, Head::Not, &[inner])?
    } else {
        inner
    };
    lines.push(Line::Holds { term, by })?;
    for side in citation.sides.iter().rev() {
        let above = last_of(lines);
        let term = put(alloc, pool, given, side.term)?;
        let by = if side.is_right {
            Reason::Right(above)
        } else {
            Reason::Left(above)
        };
        lines.push(Line::Holds { term, by })?;
    }
    Ok(())
}

/// Writes a body's own fact.
#[tactic(auto, using(crate::proofs::Growing::growing))]
fn add_own_fact(pool: &mut Pool, lines: &mut Vec<Line>, pruning: &Pruning) -> Result<(), Stop>
    ensures { Grows pool.old pool.new }
{
    let condition = pruning.condition;
    let term = match pruning.body {
        Body::Else => made(pool, Head::Not, &[condition])?,
        _ => condition,
    };
    let by = Reason::Fact(pruning.fact);
    lines.push(Line::Holds { term, by })?;
    Ok(())
}

/// Writes that a line and its negation are `false`.
#[tactic(auto, using(crate::proofs::Growing::growing))]
fn add_contradiction(
    pool: &mut Pool,
    lines: &mut Vec<Line>,
    line: u64,
    negation: u64,
) -> Result<(), Stop>
    ensures { Grows pool.old pool.new }
{
    let term = made(pool, Head::No, &[])?;
    let by = Reason::Contra(line, negation);
    lines.push(Line::Holds { term, by })?;
    Ok(())
}

/// Writes that a body's own fact can't be.
#[tactic(auto, using(crate::proofs::Growing::growing))]
fn add_alone(pool: &mut Pool, lines: &mut Vec<Line>, pruning: &Pruning) -> Result<(), Stop>
    ensures { Grows pool.old pool.new }
{
    let Body::Else = pruning.body else {
        return add_own_fact(pool, lines, pruning);
    };
    lines.push(Line::Holds {
        term: pruning.condition,
        by: Reason::Bool,
    })?;
    add_own_fact(pool, lines, pruning)?;
    add_contradiction(pool, lines, 1, 2)
}

/// Writes that a body's own fact and a conjunct deny one another.
#[tactic(auto, using(crate::proofs::Growing::growing))]
fn add_opposed(
    alloc: Global,
    pool: &mut Pool,
    lines: &mut Vec<Line>,
    pruning: &Pruning,
    citation: &Citation,
    is_held: bool,
) -> Result<(), Stop>
    ensures { Grows pool.old pool.new }
{
    let fact = citation.fact;
    cite(alloc, pool, lines, &[], citation, Reason::Fact(fact))?;
    let cited = last_of(lines);
    add_own_fact(pool, lines, pruning)?;
    let own = last_of(lines);
    if is_held {
        add_contradiction(pool, lines, cited, own)
    } else {
        add_contradiction(pool, lines, own, cited)
    }
}

/// The index terms of a cell, for the indices that are current at a definition.
fn given_of(
    alloc: Global,
    pool: &Pool,
    falsehood: &Falsehood,
    cell: NodeId,
) -> Result<Vec<Given>, AllocError> {
    let mut given = Vec::new(alloc);
    let Some(node) = open(pool, cell) else {
        return Ok(given);
    };
    let terms = items(alloc, pool, node.first)?;
    for (name, term) in falsehood.indices.iter().zip(&terms) {
        given.push(Given {
            name: *name,
            term: *term,
        })?;
    }
    Ok(given)
}

/// Writes that a cell's only definition isn't reached.
#[tactic(auto, using(crate::proofs::Growing::growing))]
fn add_cell(
    alloc: Global,
    pool: &mut Pool,
    overview: &Overview,
    lines: &mut Vec<Line>,
    cell: NodeId,
) -> Result<(), Stop>
    ensures { Grows pool.old pool.new }
{
    let Some(falsehood) = falsehood_of(pool, overview, cell) else {
        return Ok(());
    };
    let given = given_of(alloc, pool, falsehood, cell)?;
    lines.push(Line::Defined {
        cell,
        by: Reason::Here,
    })?;
    let by = Reason::Site(1, falsehood.citation.fact);
    cite(alloc, pool, lines, &given, &falsehood.citation, by)
}

/// Writes that an index term is the current index, and gives the number of the line.
#[tactic(auto, using(crate::proofs::Growing::growing))]
fn add_index(
    alloc: Global,
    pool: &mut Pool,
    lines: &mut Vec<Line>,
    equated: &Equated,
) -> Result<u64, Stop>
    ensures { Grows pool.old pool.new }
{
    let by = Reason::Fact(equated.citation.fact);
    cite(alloc, pool, lines, &[], &equated.citation, by)?;
    let above = last_of(lines);
    if !equated.is_turned {
        return Ok(above);
    }
    if let Some(node) = open(pool, equated.equation) {
        if let (Some(left), Some(right)) = (node.first, node.second) {
            lines.push(Line::Equal {
                left: right,
                right: left,
                by: Reason::Sym(above),
            })?;
        }
    }
    Ok(last_of(lines))
}

/// Writes that index terms are the current indices, and gives the numbers of the lines.
#[tactic(auto, using(crate::proofs::Growing::growing))]
fn add_indices(
    alloc: Global,
    pool: &mut Pool,
    lines: &mut Vec<Line>,
    indices: &[Equated],
) -> Result<Vec<u64>, Stop>
    ensures { Grows pool.old pool.new }
{
    let mut numbers = Vec::new(alloc);
    for equated in indices {
        let number = add_index(alloc, pool, lines, equated)?;
        numbers.push(number)?;
    }
    Ok(numbers)
}

/// Writes that a cell comes later.
#[tactic(auto, using(crate::proofs::Growing::growing))]
fn add_late(
    alloc: Global,
    pool: &mut Pool,
    lines: &mut Vec<Line>,
    cell: NodeId,
    indices: &[Equated],
) -> Result<(), Stop>
    ensures { Grows pool.old pool.new }
{
    let numbers = add_indices(alloc, pool, lines, indices)?;
    lines.push(Line::Defined {
        cell,
        by: Reason::Here,
    })?;
    let at = last_of(lines);
    let term = made(pool, Head::No, &[])?;
    let by = Reason::Late(at, numbers);
    lines.push(Line::Holds { term, by })?;
    Ok(())
}

/// The step that drops a body, by its number among those that a walk noted.
#[tactic(auto, using(crate::proofs::Growing::growing))]
pub(crate) fn propose(
    alloc: Global,
    pool: &mut Pool,
    overview: &Overview,
    k: usize,
) -> Result<Option<Proposal>, Stop>
    ensures { Grows pool.old pool.new }
{
    let Some(pruning) = overview.prunings.get(k) else {
        return Ok(None);
    };
    let mut by = Vec::new(alloc);
    match &pruning.why {
        Why::Alone => add_alone(pool, &mut by, pruning)?,
        Why::Held(there) => add_opposed(alloc, pool, &mut by, pruning, there, true)?,
        Why::Denied(there) => add_opposed(alloc, pool, &mut by, pruning, there, false)?,
        Why::Cell(cell) => add_cell(alloc, pool, overview, &mut by, *cell)?,
        Why::Late { cell, indices } => add_late(alloc, pool, &mut by, *cell, indices)?,
    }
    Ok(Some(Proposal::Prune {
        place: u64::from(pruning.place),
        body: pruning.body,
        by,
    }))
}
