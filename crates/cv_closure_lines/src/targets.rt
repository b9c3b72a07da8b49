// Derivations of what follows in a closure, within the bounds of their length and of the weight of their lines.
ghost use Rattle.std.specs.Prelude.{◌+◌, ◌*◌, ◌≤◌, IfOk, IfSome, length, vec_len};

use crate::lines::{Claim, Derivation, Line, Reason};
use crate::scribe::{Scribe, Stop};
use cv_closure::{Closure, TermId, Terms};
use cv_syntax_trees::Head;
use std::alloc::{AllocError, Global};

/// How many lines a derivation has at most, whatever is known.
pub const MOST_LINES: u64 = 20_000;

/// What a derivation is to end with.
#[derive(Clone, Copy)]
pub enum Target {
    /// Two terms are equal.
    Equal(TermId, TermId),
    /// A term is true.
    Holds(TermId),
    /// A cell of the closure is defined, by its number.
    Defined(usize),
    /// `false`.
    Never,
}

/// Writes the line of a target.
fn write_target(scribe: &mut Scribe, closure: &Closure, target: Target) -> Result<u64, Stop> {
    match target {
        Target::Equal(a, b) => scribe.are_equal(closure, a, b),
        Target::Holds(t) => scribe.holds(closure, t),
        Target::Defined(k) => scribe.cell(closure, k),
        Target::Never => scribe.never(closure),
    }
}

/// Writes the lines of all targets, and gives their numbers.
fn write_targets(
    alloc: Global,
    scribe: &mut Scribe,
    closure: &Closure,
    targets: &[Target],
) -> Result<Vec<u64>, Stop> {
    let mut lines = Vec::new(alloc);
    for target in targets {
        let line = write_target(scribe, closure, *target)?;
        lines.push(line)?;
    }
    Ok(lines)
}

/// Whether these are the last lines, in order.
fn are_last(lines: &[u64], count: u64) -> bool {
    let mut wanted = count;
    for line in lines.iter().rev() {
        if *line != wanted || wanted == 0 {
            return false;
        }
        wanted -= 1;
    }
    true
}

/// Writes lines again, so that they are the last ones.
fn write_again(scribe: &mut Scribe, lines: &[u64]) -> Result<(), Stop> {
    for line in lines {
        let Some(claim) = scribe.claim(*line) else {
            return Err(Stop::TooLong);
        };
        let _again = scribe.write(claim, Reason::Again(*line))?;
    }
    Ok(())
}

/// Writes a derivation that ends with the targets.
fn write_all(
    alloc: Global,
    scribe: &mut Scribe,
    closure: &Closure,
    targets: &[Target],
) -> Result<(), Stop> {
    let lines = write_targets(alloc, scribe, closure, targets)?;
    if are_last(&lines, scribe.len()) {
        return Ok(());
    }
    write_again(scribe, &lines)
}

/// Terms, over a table of their own.
pub fn copied(
    alloc: Global,
    closure: &Closure,
    terms: &[TermId],
) -> Result<Option<(Terms, Vec<TermId>)>, AllocError> {
    let mut scribe = Scribe::new(alloc, closure, 0, 0)?;
    match scribe.copies(closure, terms) {
        Ok(copies) => Ok(Some((scribe.derivation().terms, copies))),
        Err(Stop::TooLong) => Ok(None),
        Err(Stop::OutOfMemory) => Err(AllocError),
    }
}

/// Whether a target follows.
pub fn follows(closure: &Closure, target: Target) -> bool {
    match target {
        Target::Equal(a, b) => closure.are_equal(a, b),
        Target::Holds(t) => closure.is_true(t),
        Target::Defined(k) => k < closure.cells().len(),
        Target::Never => closure.is_contradictory(),
    }
}

/// Whether all targets follow.
pub fn all_follow(closure: &Closure, targets: &[Target]) -> bool {
    for target in targets {
        if !follows(closure, *target) {
            return false;
        }
    }
    true
}

/// How much a target weighs.
fn weight_of(closure: &Closure, target: Target) -> u64 {
    let terms = closure.terms();
    match target {
        Target::Equal(a, b) => terms
            .weight(a)
            .saturating_add(terms.weight(b))
            .saturating_add(1),
        Target::Holds(t) => terms.weight(t),
        Target::Defined(_) | Target::Never => 0,
    }
}

/// The weight of the heaviest of the facts, the cells and these targets.
fn heaviest(closure: &Closure, targets: &[Target]) -> u64 {
    let mut most = closure.heaviest();
    for target in targets {
        most = most.max(weight_of(closure, *target));
    }
    most
}

/// A derivation that ends with the targets, in order, where each follows and the derivation is within the bounds: so many
/// lines for each conjunct of a fact and for each target, 20,000 in all, and no line that weighs more than three times the heaviest
/// fact, cell or target, and 20. That its lines are right is tested by whoever takes it.
pub fn derive(
    alloc: Global,
    closure: &Closure,
    targets: &[Target],
) -> Result<Option<Derivation>, AllocError>
    ensures few { IfOk result (λ o. IfSome o (λ d. vec_len d.lines
        ≤ 210 + 210 * closure.now.grounds + 10 * length targets.now)) }
{
    if !all_follow(closure, targets) {
        return Ok(None);
    }
    let lines = 210_u64
        .saturating_add(u64::from(closure.grounds()).saturating_mul(210))
        .saturating_add((targets.len() as u64).saturating_mul(10))
        .min(MOST_LINES);
    let weight = 20_u64.saturating_add(heaviest(closure, targets).saturating_mul(3));
    let mut scribe = Scribe::new(alloc, closure, lines as usize, weight)?;
    match write_all(alloc, &mut scribe, closure, targets) {
        Ok(()) => {}
        Err(Stop::TooLong) => return Ok(None),
        Err(Stop::OutOfMemory) => return Err(AllocError),
    }
    let derivation = scribe.derivation();
    if derivation.lines.len() as u64 <= lines {
        Ok(Some(derivation))
    } else {
        Ok(None)
    }
}

/// The targets that a cell is defined, and before that that terms are equal to indices.
fn targets_of_cell(
    alloc: Global,
    cell: usize,
    indices: &[(TermId, TermId)],
) -> Result<Vec<Target>, AllocError> {
    let mut targets = Vec::new(alloc);
    for (term, index) in indices {
        targets.push(Target::Equal(*term, *index))?;
    }
    targets.push(Target::Defined(cell))?;
    Ok(targets)
}

/// The numbers of the lines before the last one, so many.
fn lines_before(alloc: Global, last: u64, count: usize) -> Result<Vec<u64>, AllocError> {
    let mut lines = Vec::new(alloc);
    for line in last.saturating_sub(count as u64)..last {
        lines.push(line)?;
    }
    Ok(lines)
}

/// A derivation that ends with `false`, where a cell is defined, these terms are equal to these indices, and the derivation is within
/// the bounds: the cell is one of a variable that comes later than the place, at the current indices by these equations.
pub fn derive_late(
    alloc: Global,
    closure: &Closure,
    cell: usize,
    indices: &[(TermId, TermId)],
) -> Result<Option<Derivation>, AllocError> {
    let targets = targets_of_cell(alloc, cell, indices)?;
    let Some(mut derivation) = derive(alloc, closure, &targets)? else {
        return Ok(None);
    };
    let Some(no) = derivation.terms.add(Head::No, &[])? else {
        return Ok(None);
    };
    let last = derivation.lines.len() as u64;
    let equations = lines_before(alloc, last, indices.len())?;
    derivation.lines.push(Line {
        claim: Claim::Holds(no),
        by: Reason::Late(last, equations),
    })?;
    Ok(Some(derivation))
}
