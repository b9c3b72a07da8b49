// Whether what a proposal names stands in the pool.
ghost use Rattle.std.specs.Prelude.{◌↔◌, All, IsTrue};
ghost use Rattle.cv_step_writer.specs.Derivations.{AreLinesBelow, IsBelow, IsLineBelow, IsReasonBelow};
ghost use Rattle.cv_step_writer.specs.Proposals.{IsProposalBelow};

use cv_step_writer::{Line, Proposal, Reason};
use cv_syntax::NodeId;

/// Whether nodes are below a count.
pub(crate) fn are_below(count: u32, nodes: &[NodeId]) -> bool
    ensures { IsTrue result ↔ All (IsBelow count) nodes.now }
{
    nodes.iter().all(|n| n.0 < count)
}

/// Whether the terms of a reason are below a count, where it is one that settling steps have.
fn is_reason_below(count: u32, by: &Reason) -> bool
    ensures { IsTrue result → IsReasonBelow count by.now }
{
    match by {
        Reason::Equation(_, terms) => are_below(count, terms),
        Reason::Fact(_) => true,
        Reason::Here => true,
        Reason::Site(_, _) => true,
        Reason::Left(_) => true,
        Reason::Right(_) => true,
        Reason::Contra(_, _) => true,
        Reason::Bool => true,
        Reason::Sym(_) => true,
        Reason::Late(_, _) => true,
        _ => false,
    }
}

/// Whether what a line names is below a count.
fn is_line_below(count: u32, line: &Line) -> bool
    ensures { IsTrue result → IsLineBelow count line.now }
{
    match line {
        Line::Holds { term, by } => term.0 < count && is_reason_below(count, by),
        Line::Equal { left, right, by } => {
            left.0 < count && right.0 < count && is_reason_below(count, by)
        }
        Line::Defined { cell, by } => cell.0 < count && is_reason_below(count, by),
        Line::Cases { .. } => false,
    }
}

/// Whether what lines name is below a count.
fn are_lines_below(count: u32, lines: &[Line]) -> bool
    ensures { IsTrue result → AreLinesBelow count lines.now }
{
    for line in lines {
        if !is_line_below(count, line) {
            return false;
        }
    }
    true
}

/// Whether what a proposal names is below a count, where it is one of a settling step, or of a `codef`.
pub fn is_proposal_below(count: u32, proposal: &Proposal) -> bool
    ensures { IsTrue result → IsProposalBelow count proposal.now }
{
    match proposal {
        Proposal::Prune { by, .. } => are_lines_below(count, by),
        Proposal::Rewrite { term, by, .. } => term.0 < count && are_lines_below(count, by),
        Proposal::Codef { to, from, .. } => to.0 < count && from.0 < count,
        Proposal::Merge { .. } => true,
        Proposal::Unnew { .. } => true,
        Proposal::Unlet { .. } => true,
        Proposal::Birthday { .. } => true,
        Proposal::Guess { .. } => true,
        Proposal::Fresh { .. } => true,
        _ => false,
    }
}
