// Lines of a derivation over terms of the pool.
ghost use Rattle.std.specs.Prelude.{ℕ, All, IfOk};
ghost use Rattle.cv_step_writer.specs.Derivations.{AreLinesBelow, IsBelow, IsLineBelow, IsReasonBelow};

use cv_closure::TermId;
use cv_closure_lines::{Claim, Line, Reason};
use cv_step_writer as writer;
use cv_syntax::NodeId;
use std::alloc::{AllocError, Global};

/// The node of a term of a table, by those of all its terms. A term without one is want of memory.
pub(crate) fn node_of(nodes: &[NodeId], t: TermId) -> Result<NodeId, AllocError>
    ensures { (n : ℕ) → All (IsBelow n) nodes.now → IfOk result (IsBelow n) }
{
    match nodes.get(t.0 as usize) {
        Some(node) => Ok(*node),
        None => Err(AllocError),
    }
}

/// The nodes of terms of a table.
pub(crate) fn nodes_of(
    alloc: Global,
    nodes: &[NodeId],
    terms: &[TermId],
) -> Result<Vec<NodeId>, AllocError>
    ensures { (n : ℕ) → All (IsBelow n) nodes.now
        → IfOk result (λ ms. All (IsBelow n) ms.items) }
{
    let mut list = Vec::new(alloc);
    for t in terms {
        let node = node_of(nodes, *t)?;
        list.push(node)?;
    }
    Ok(list)
}

/// Why a line is right, over terms of the pool.
fn reason_of(alloc: Global, nodes: &[NodeId], by: &Reason) -> Result<writer::Reason, AllocError>
    ensures { (n : ℕ) → All (IsBelow n) nodes.now → IfOk result (IsReasonBelow n) }
{
    match by {
        Reason::Fact(k) => Ok(writer::Reason::Fact(*k)),
        Reason::Here => Ok(writer::Reason::Here),
        Reason::Of(l) => Ok(writer::Reason::Of(*l)),
        Reason::Site(l, k) => Ok(writer::Reason::Site(*l, *k)),
        Reason::Equation(k, terms) => {
            let list = nodes_of(alloc, nodes, terms)?;
            Ok(writer::Reason::Equation(*k, list))
        }
        Reason::Refl => Ok(writer::Reason::Refl),
        Reason::Sym(l) => Ok(writer::Reason::Sym(*l)),
        Reason::Trans(l, m) => Ok(writer::Reason::Trans(*l, *m)),
        Reason::Cong(lines) => {
            let list = Vec::from_slice(alloc, lines.as_slice())?;
            Ok(writer::Reason::Cong(list))
        }
        Reason::Mp(l, m) => Ok(writer::Reason::Mp(*l, *m)),
        Reason::Left(l) => Ok(writer::Reason::Left(*l)),
        Reason::Right(l) => Ok(writer::Reason::Right(*l)),
        Reason::Data => Ok(writer::Reason::Data),
        Reason::Again(l) => Ok(writer::Reason::Again(*l)),
        Reason::Bool => Ok(writer::Reason::Bool),
        Reason::Late(l, lines) => {
            let list = Vec::from_slice(alloc, lines.as_slice())?;
            Ok(writer::Reason::Late(*l, list))
        }
        Reason::OtherFact(k) => Ok(writer::Reason::OtherFact(*k)),
        Reason::OtherHere => Ok(writer::Reason::OtherHere),
        Reason::Same(k) => Ok(writer::Reason::Same(*k)),
        Reason::Distinct(l, d, e, k) => Ok(writer::Reason::Distinct(*l, *d, *e, *k)),
    }
}

/// A line over terms of the pool.
fn line_of(alloc: Global, nodes: &[NodeId], line: &Line) -> Result<writer::Line, AllocError>
    ensures { (n : ℕ) → All (IsBelow n) nodes.now → IfOk result (IsLineBelow n) }
{
    let by = reason_of(alloc, nodes, &line.by)?;
    match line.claim {
        Claim::Holds(t) => {
            let term = node_of(nodes, t)?;
            Ok(writer::Line::Holds { term, by })
        }
        Claim::Defined(t) => {
            let cell = node_of(nodes, t)?;
            Ok(writer::Line::Defined { cell, by })
        }
    }
}

/// Lines over terms of the pool.
pub(crate) fn lines_of(
    alloc: Global,
    nodes: &[NodeId],
    lines: &[Line],
) -> Result<Vec<writer::Line>, AllocError>
    ensures { (n : ℕ) → All (IsBelow n) nodes.now
        → IfOk result (λ ls. AreLinesBelow n ls.items) }
{
    let mut list = Vec::new(alloc);
    for line in lines {
        let next = line_of(alloc, nodes, line)?;
        list.push(next)?;
    }
    Ok(list)
}
