// A step that closes a query, with its terms in the pool.
ghost use Rattle.std.specs.Prelude.{IfOk, IfSome, length};
ghost use Rattle.cv_pool.specs.PoolView.{Grows};
ghost use Rattle.cv_step_writer.specs.Proposals.{IsProposalBelow};

mod certificates;
mod lines;
mod shortage;

use crate::proposing::certificates::{plant_certificate, plant_lines};
use crate::proposing::shortage::Shortage;
use crate::pruning::{Unreached, first_unreached};
use cv_closure::Theory;
use cv_direct_search::{Effort, direct};
use cv_grounds::{Side, Survey, theory_of};
use cv_settling_lateness::Lateness;
use cv_step_writer::{Body, Proposal};
use cv_syntax::{Decls, Game, NodeId, Pool, PoolError};
use std::alloc::{AllocError, Global};

/// How much effort is taken in one game.
const MOST_EFFORT: u32 = 3_000_000;

/// What searches in one game share: its survey, which of its variables come later than a place, what the file declares, and how much
/// effort they may still take together, those that need pairs for themselves.
#[derive(Drop)]
pub struct Proposer {
    survey: Survey,
    lateness: Lateness,
    theory: Theory,
    effort: Effort,
    by_pairs: Effort,
}

/// How a step names a body of a test.
fn body_of(side: Side) -> Body {
    match side {
        Side::Then => Body::Then,
        Side::Else => Body::Else,
        Side::Branch(number) => Body::Branch(u64::from(number)),
    }
}

/// The step that drops a body of a test.
#[tactic(auto, using(crate::proofs::Below::planting))]
fn plant_pruning(alloc: Global, pool: &mut Pool, found: &Unreached) -> Result<Proposal, Shortage>
    ensures below { IfOk result (IsProposalBelow (length pool.new.trees)) }
    ensures grows { Grows pool.old pool.new }
{
    let by = plant_lines(alloc, pool, &found.by)?;
    Ok(Proposal::Prune {
        place: u64::from(found.part.place),
        body: body_of(found.part.side),
        by,
    })
}

impl Proposer {
    /// For a game of a file.
    pub fn of(
        alloc: Global,
        pool: &Pool,
        decls: &Decls,
        game: NodeId,
    ) -> Result<Proposer, AllocError> {
        Ok(Proposer {
            survey: Survey::of(alloc, pool, Game { root: game })?,
            lateness: Lateness::of(alloc, pool, game)?,
            theory: theory_of(alloc, pool, decls)?,
            effort: Effort { left: MOST_EFFORT },
            by_pairs: Effort { left: MOST_EFFORT },
        })
    }

    /// The step that closes a query of this number.
    #[tactic(auto, using(crate::proofs::Below::planting))]
    fn plant_proposal(
        &mut self,
        alloc: Global,
        pool: &mut Pool,
        query: NodeId,
        number: u64,
    ) -> Result<Option<Proposal>, Shortage>
        ensures below { IfOk result (λ o. IfSome o (IsProposalBelow (length pool.new.trees))) }
        ensures grows { Grows pool.old pool.new }
    {
        let there = direct(
            alloc,
            pool,
            &self.survey,
            &self.lateness,
            &self.theory,
            query,
            &mut self.effort,
            &mut self.by_pairs,
        )?;
        let Some(there) = there else {
            return Ok(None);
        };
        let certificate = plant_certificate(alloc, pool, &there)?;
        Ok(Some(Proposal::Success {
            query: number,
            certificate,
        }))
    }

    /// The step that closes a query in the game, the query by its node and by its number from 1: where a certificate is found, of
    /// which the kernel tests whether it is one. Its terms are made in the pool; what was there stays, also where there is no room
    /// for them.
    #[tactic(auto, using(crate::proofs::Below::planting))]
    pub fn propose(
        &mut self,
        alloc: Global,
        pool: &mut Pool,
        query: NodeId,
        number: u64,
    ) -> Result<Option<Proposal>, PoolError>
        ensures below { IfOk result (λ o. IfSome o (IsProposalBelow (length pool.new.trees))) }
        ensures grows { Grows pool.old pool.new }
    {
        match self.plant_proposal(alloc, pool, query, number) {
            Ok(proposal) => Ok(proposal),
            Err(Shortage(fault)) => Err(fault),
        }
    }

    /// The step that drops the first body of a test to which no run comes, of those from this number on, which becomes that body's.
    #[tactic(auto, using(crate::proofs::Below::planting))]
    fn plant_prune(
        &mut self,
        alloc: Global,
        pool: &mut Pool,
        number: &mut u32,
    ) -> Result<Option<Proposal>, Shortage>
        ensures below { IfOk result (λ o. IfSome o (IsProposalBelow (length pool.new.trees))) }
        ensures grows { Grows pool.old pool.new }
    {
        let from = *number as usize;
        let there = first_unreached(
            alloc,
            pool,
            &self.survey,
            &self.theory,
            from,
            &mut self.effort,
        )?;
        let Some(found) = there else {
            return Ok(None);
        };
        *number = u32::try_from(found.number).unwrap_or(u32::MAX);
        let step = plant_pruning(alloc, pool, &found)?;
        Ok(Some(step))
    }

    /// The step that drops a body of a test to which no run comes, in the game: the first one that is found of those from this number
    /// on, counted from 0 in the order of their places; the number becomes that body's. Its terms are made in the pool.
    #[tactic(auto, using(crate::proofs::Below::planting))]
    pub fn prune(
        &mut self,
        alloc: Global,
        pool: &mut Pool,
        number: &mut u32,
    ) -> Result<Option<Proposal>, PoolError>
        ensures below { IfOk result (λ o. IfSome o (IsProposalBelow (length pool.new.trees))) }
        ensures grows { Grows pool.old pool.new }
    {
        match self.plant_prune(alloc, pool, number) {
            Ok(proposal) => Ok(proposal),
            Err(Shortage(fault)) => Err(fault),
        }
    }
}
