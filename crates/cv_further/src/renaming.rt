// The variables with several definitions that may get a name for each.
ghost use Rattle.std.specs.Prelude.{IfOk, IfSome, length};
ghost use Rattle.cv_step_writer.specs.Proposals.{IsProposalBelow};

use crate::chart::{Chart, Variable};
use crate::values::secrets_of;
use cv_step_writer::Proposal;
use cv_syntax::{Decls, NameId, NodeId, Pool};
use std::alloc::{AllocError, Global};

/// Why a variable's definitions may be told apart. All of the first kind stand before all of the second, and these before the third.
#[derive(Clone, Copy)]
enum Kind {
    /// It is drawn.
    Drawn,
    /// A `defined` list has a cell of it.
    Listed,
    /// It is read.
    Read,
}

/// Whether a variable with several definitions is one of a kind, and of no kind before. An index of a branch that is read alone is of
/// none.
fn is_of(kind: Kind, x: Variable) -> bool {
    let is_drawn = x.chosen == x.sites;
    let is_listed = x.cell != 0;
    let is_read = x.read != 0;
    match kind {
        Kind::Drawn => is_drawn && (is_listed || is_read),
        Kind::Listed => !is_drawn && is_listed,
        Kind::Read => !is_drawn && !is_listed && is_read && x.term.is_some(),
    }
}

/// A name, so many times.
fn repeated(alloc: Global, x: u32, count: u32) -> Result<Vec<NameId>, AllocError> {
    let mut names = Vec::new(alloc);
    for _ in 0..count {
        names.push(NameId(x))?;
    }
    Ok(names)
}

/// The variables with several definitions that may get a name for each, of one kind, in the same order.
fn add_kind(kind: Kind, all: &[Variable], found: &mut Vec<Variable>) -> Result<(), AllocError> {
    for x in all {
        if is_of(kind, *x) {
            found.push(*x)?;
        }
    }
    Ok(())
}

/// The variables with several definitions of which no query asks, in the order in which they are first seen.
fn doubled(
    alloc: Global,
    pool: &Pool,
    decls: &Decls,
    game: NodeId,
) -> Result<Vec<Variable>, AllocError> {
    let chart = Chart::of(alloc, pool, game)?;
    let secrets = secrets_of(alloc, pool, decls)?;
    let mut found = Vec::new(alloc);
    for x in chart.names() {
        if x.sites > 1 && !secrets.contains(&x.name) {
            found.push(*x)?;
        }
    }
    Ok(found)
}

/// The step that gives each definition of a variable a name, by its number, from 0: of variables that are drawn, then of those of
/// which a `defined` list has a cell, and then of others that are read. In place of its new names it has the variable's.
pub fn suggest(
    alloc: Global,
    pool: &Pool,
    decls: &Decls,
    game: NodeId,
    number: u32,
) -> Result<Option<Proposal>, AllocError>
    ensures { IfOk result (λ o. IfSome o (IsProposalBelow (length pool.now.trees))) }
{
    let all = doubled(alloc, pool, decls, game)?;
    let mut found = Vec::new(alloc);
    add_kind(Kind::Drawn, &all, &mut found)?;
    add_kind(Kind::Listed, &all, &mut found)?;
    add_kind(Kind::Read, &all, &mut found)?;
    let Some(x) = found.get(number as usize) else {
        return Ok(None);
    };
    Ok(Some(Proposal::ArrayRename {
        x: NameId(x.name),
        to: repeated(alloc, x.name, x.sites)?,
    }))
}
