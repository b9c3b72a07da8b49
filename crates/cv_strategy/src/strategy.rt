ghost use Rattle.std.specs.Prelude.{◌≡◌, IfOk, IfSome, length};
ghost use Rattle.cv_pool.specs.PoolView.{Grows};
ghost use Rattle.cv_step_writer.specs.Proposals.{IsProposalBelow};
ghost use Rattle.cv_strategy.specs.declared.strategy.Phase.TheVariants.{Settling};
ghost use Rattle.cv_strategy.specs.Phases.{phase_behind};

use crate::moves::suggest as suggest_move;
use crate::sparing::{CostlyStep, Payments, Spared};
use cv_bound::closings::ClosedQueries;
use cv_direct::Proposer;
use cv_further::{suggest_carrying, suggest_renaming};
use cv_grounds::nodes_up_to;
use cv_settling::suggest as suggest_settling;
use cv_step_writer::Proposal;
use cv_syntax::{Decls, NodeId, Pool, PoolError, query_at};
use std::alloc::{AllocError, Global};

/// What is proposed at present.
#[derive(Clone, Copy)]
enum Phase {
    /// A step that settles the game.
    Settling,
    /// A step that closes a query.
    Closing,
    /// A move.
    Moving,
    /// A step that drops a body of a test by all that is known there: this and what follows are further moves.
    Pruning,
    /// A step that puts the value of a `let` in the place of its variable.
    Carrying,
    /// A step that gives each definition of a variable a name.
    Renaming,
}

/// How many nodes the games of a search have together at most, in which steps that settle and moves are proposed, each counted as often
/// as one is.
pub const MOST_NODES: u32 = 5_000_000;

/// How far the strategy has come: a game is settled first, then queries are closed, and then a move is made, behind which it
/// begins again; where there is none a further move, if these are asked for. Bodies are dropped, and values carried, as long as that
/// goes on. Proposals of a phase are numbered, but for the steps that are spared; the query of a number is counted from 1. What closes
/// queries, or drops bodies, is made for the first one that is asked for, and kept for its game. With further moves the costly steps are
/// noted that were accepted.
#[derive(Drop)]
pub struct Strategy {
    phase: Phase,
    number: u32,
    proposer: Option<Proposer>,
    spared: Spared,
    /// The queries for which moves are made, where these aren't all.
    goal: Option<Vec<u64>>,
    payments: Payments,
    left: u32,
    goes_further: bool,
    is_going_on: bool,
}

/// Whether a query isn't closed.
fn is_some_open(decls: &Decls, closed: &ClosedQueries) -> bool {
    let mut number: u64 = 0;
    'decls: for k in 0..decls.len() {
        if query_at(decls, k).is_none() {
            continue;
        }
        number = number.saturating_add(1);
        if !closed.is_closed(number) {
            return true;
        }
    }
    false
}

impl Strategy {
    /// The strategy at a first game: whether it makes further moves, which steps it doesn't propose, and how many nodes the games that
    /// it looks at may have together.
    pub fn new(alloc: Global, goes_further: bool, spared: Spared, effort: u32) -> Strategy
        ensures { result.phase ≡ Settling }
    {
        Strategy {
            phase: Phase::Settling,
            number: 0,
            proposer: None,
            spared,
            goal: None,
            payments: Payments::new(alloc),
            left: effort,
            goes_further,
            is_going_on: false,
        }
    }

    /// Makes moves for the queries of these numbers alone.
    pub fn ask_only(&mut self, queries: Vec<u64>) {
        self.goal = Some(queries);
    }

    /// How many nodes the games at which it still looks may have together: none once a game had more.
    pub fn effort(&self) -> u32 {
        self.left
    }

    /// The steps that it doesn't propose, and the costly steps of the sums of the queries that were closed, in their order.
    pub fn into_steps(self) -> (Spared, Vec<CostlyStep>) {
        let Strategy {
            spared,
            payments,
            ..
        } = self;
        (spared, payments.into_steps())
    }

    /// Whether a query isn't closed for which moves are made.
    fn is_asked(&self, decls: &Decls, closed: &ClosedQueries) -> bool {
        match &self.goal {
            Some(queries) => queries.iter().any(|number| !closed.is_closed(*number)),
            None => is_some_open(decls, closed),
        }
    }

    /// Counts the nodes of a game, and tells whether a step may be proposed in it.
    fn may_look(&mut self, pool: &Pool, game: NodeId) -> bool {
        let nodes = nodes_up_to(pool, game, self.left);
        if nodes > self.left {
            self.left = 0;
            return false;
        }
        self.left -= nodes;
        true
    }

    /// Goes to the first step that settles a game.
    pub fn restart(&mut self)
        ensures { self.new.phase ≡ Settling }
    {
        self.begin(Phase::Settling);
    }

    /// The next step to try that settles a game, as long as one may be proposed.
    #[tactic(auto, using(crate::proofs::Growing::growing))]
    pub fn settle(
        &mut self,
        alloc: Global,
        pool: &mut Pool,
        decls: &Decls,
        game: NodeId,
    ) -> Result<Option<Proposal>, PoolError>
        ensures below { IfOk result (λ o. IfSome o (IsProposalBelow (length pool.new.trees))) }
        ensures grows { Grows pool.old pool.new }
    {
        if self.may_look(pool, game) {
            suggest_settling(alloc, pool, decls, game, self.spared.chances(), self.number)
        } else {
            Ok(None)
        }
    }

    /// Whether moves are proposed.
    pub fn is_moving(&self) -> bool {
        !matches!(self.phase, Phase::Settling | Phase::Closing)
    }

    /// Goes to the first proposal of a phase.
    fn begin(&mut self, phase: Phase)
        ensures { self.new.phase ≡ phase }
    {
        self.phase = phase;
        self.number = 0;
        self.proposer = None;
        self.is_going_on = false;
    }

    /// Goes on in the phase, with the proposal of a number in the next game.
    fn continue_at(&mut self, number: u32)
        ensures { self.new.phase ≡ self.old.phase }
    {
        self.number = number;
        self.proposer = None;
        self.is_going_on = true;
    }

    /// The step that was proposed last was accepted: it leads to another game, but for one that closes a query.
    pub fn accept(&mut self)
        ensures { self.new.phase ≡ phase_behind self.old.phase }
    {
        self.payments.accept();
        match self.phase {
            Phase::Settling => self.begin(Phase::Settling),
            Phase::Closing => {
                self.payments.close();
                self.pass_over();
            }
            Phase::Moving => self.begin(Phase::Settling),
            Phase::Pruning => self.continue_at(self.number.saturating_sub(1)),
            Phase::Carrying => self.continue_at(0),
            Phase::Renaming => self.begin(Phase::Settling),
        }
    }

    /// The step that was proposed last isn't taken.
    pub fn pass_over(&mut self)
        ensures { self.new.phase ≡ self.old.phase }
    {
        self.number = self.number.saturating_add(1);
    }

    /// What closes queries of a game, and drops bodies: that which is kept, if one is.
    fn take_proposer(
        &mut self,
        alloc: Global,
        pool: &Pool,
        decls: &Decls,
        game: NodeId,
    ) -> Result<Proposer, PoolError> {
        match self.proposer.take() {
            Some(proposer) => Ok(proposer),
            None => match Proposer::of(alloc, pool, decls, game) {
                Ok(proposer) => Ok(proposer),
                Err(AllocError) => Err(PoolError::OutOfMemory),
            },
        }
    }

    /// The step that closes the query of the number, if one is found.
    #[tactic(auto, using(crate::proofs::Growing::growing))]
    fn close_query(
        &mut self,
        alloc: Global,
        pool: &mut Pool,
        decls: &Decls,
        game: NodeId,
        query: NodeId,
    ) -> Result<Option<Proposal>, PoolError>
        ensures below { IfOk result (λ o. IfSome o (IsProposalBelow (length pool.new.trees))) }
        ensures grows { Grows pool.old pool.new }
    {
        let mut proposer = self.take_proposer(alloc, pool, decls, game)?;
        let step = proposer.propose(alloc, pool, query, u64::from(self.number));
        self.proposer = Some(proposer);
        step
    }

    /// A step for the next open query that has one.
    #[tactic(auto, using(crate::proofs::Growing::growing))]
    fn close(
        &mut self,
        alloc: Global,
        pool: &mut Pool,
        decls: &Decls,
        game: NodeId,
        closed: &ClosedQueries,
    ) -> Result<Option<Proposal>, PoolError>
        ensures below { IfOk result (λ o. IfSome o (IsProposalBelow (length pool.new.trees))) }
        ensures grows { Grows pool.old pool.new }
    {
        let mut number: u32 = 0;
        'decls: for k in 0..decls.len() {
            let Some(query) = query_at(decls, k) else {
                continue;
            };
            number = number.saturating_add(1);
            if number < self.number || closed.is_closed(u64::from(number)) {
                continue;
            }
            self.number = number;
            let step = self.close_query(alloc, pool, decls, game, query)?;
            if step.is_some() {
                return Ok(step);
            }
        }
        Ok(None)
    }

    /// The step that drops a body to which no run comes.
    #[tactic(auto, using(crate::proofs::Growing::growing))]
    fn prune(
        &mut self,
        alloc: Global,
        pool: &mut Pool,
        decls: &Decls,
        game: NodeId,
    ) -> Result<Option<Proposal>, PoolError>
        ensures below { IfOk result (λ o. IfSome o (IsProposalBelow (length pool.new.trees))) }
        ensures grows { Grows pool.old pool.new }
    {
        let mut proposer = self.take_proposer(alloc, pool, decls, game)?;
        let mut number = self.number;
        let step = proposer.prune(alloc, pool, &mut number);
        self.number = number;
        self.proposer = Some(proposer);
        step
    }

    /// The next further move to try.
    #[tactic(auto, using(crate::proofs::Growing::growing))]
    fn go_further(
        &mut self,
        alloc: Global,
        pool: &mut Pool,
        decls: &Decls,
        game: NodeId,
    ) -> Result<Option<Proposal>, PoolError>
        ensures below { IfOk result (λ o. IfSome o (IsProposalBelow (length pool.new.trees))) }
        ensures grows { Grows pool.old pool.new }
    {
        if let Phase::Pruning = self.phase {
            let step = self.prune(alloc, pool, decls, game)?;
            if step.is_some() {
                return Ok(step);
            }
            self.begin(Phase::Carrying);
        }
        if let Phase::Carrying = self.phase {
            let step = suggest_carrying(alloc, pool, decls, game, self.number)?;
            if step.is_some() {
                return Ok(step);
            }
            self.begin(Phase::Renaming);
        }
        match suggest_renaming(alloc, pool, decls, game, self.number) {
            Ok(step) => Ok(step),
            Err(AllocError) => Err(PoolError::OutOfMemory),
        }
    }

    /// The next move to try.
    #[tactic(auto, using(crate::proofs::Growing::growing))]
    fn make_move(
        &mut self,
        alloc: Global,
        pool: &mut Pool,
        decls: &Decls,
        game: NodeId,
    ) -> Result<Option<Proposal>, PoolError>
        ensures below { IfOk result (λ o. IfSome o (IsProposalBelow (length pool.new.trees))) }
        ensures grows { Grows pool.old pool.new }
    {
        if let Phase::Moving = self.phase {
            let step = suggest_move(alloc, pool, decls, game, &self.spared, self.number)?;
            if step.is_some() || !self.goes_further {
                return Ok(step);
            }
            self.begin(Phase::Pruning);
        }
        self.go_further(alloc, pool, decls, game)
    }

    /// The next step of those that go on in their phase.
    #[tactic(auto, using(crate::proofs::Growing::growing))]
    fn go_on(
        &mut self,
        alloc: Global,
        pool: &mut Pool,
        decls: &Decls,
        game: NodeId,
    ) -> Result<Option<Proposal>, PoolError>
        ensures below { IfOk result (λ o. IfSome o (IsProposalBelow (length pool.new.trees))) }
        ensures grows { Grows pool.old pool.new }
    {
        if !self.may_look(pool, game) {
            return Ok(None);
        }
        match self.phase {
            Phase::Pruning => self.prune(alloc, pool, decls, game),
            Phase::Carrying => suggest_carrying(alloc, pool, decls, game, self.number),
            _ => Ok(None),
        }
    }

    /// The next step to try, by the phase: it settles the game, closes a query or is a move.
    #[tactic(auto, using(crate::proofs::Growing::growing))]
    fn go_by_phase(
        &mut self,
        alloc: Global,
        pool: &mut Pool,
        decls: &Decls,
        game: NodeId,
        closed: &ClosedQueries,
        may_move: bool,
    ) -> Result<Option<Proposal>, PoolError>
        ensures below { IfOk result (λ o. IfSome o (IsProposalBelow (length pool.new.trees))) }
        ensures grows { Grows pool.old pool.new }
    {
        if let Phase::Settling = self.phase {
            let step = self.settle(alloc, pool, decls, game)?;
            if step.is_some() {
                return Ok(step);
            }
            self.begin(Phase::Closing);
        }
        if let Phase::Closing = self.phase {
            let step = self.close(alloc, pool, decls, game, closed)?;
            if step.is_some() {
                return Ok(step);
            }
            self.begin(Phase::Moving);
        }
        if !may_move || !self.is_asked(decls, closed) || !self.may_look(pool, game) {
            return Ok(None);
        }
        self.make_move(alloc, pool, decls, game)
    }

    /// Notes what is proposed, if it is a costly step.
    fn note(&mut self, step: &Option<Proposal>) -> Result<(), PoolError> {
        match self.payments.propose(step) {
            Ok(()) => Ok(()),
            Err(AllocError) => Err(PoolError::OutOfMemory),
        }
    }

    /// The next step: one of those that go on in their phase, or by the phase.
    #[tactic(auto, using(crate::proofs::Growing::growing))]
    fn find_next(
        &mut self,
        alloc: Global,
        pool: &mut Pool,
        decls: &Decls,
        game: NodeId,
        closed: &ClosedQueries,
        may_move: bool,
    ) -> Result<Option<Proposal>, PoolError>
        ensures below { IfOk result (λ o. IfSome o (IsProposalBelow (length pool.new.trees))) }
        ensures grows { Grows pool.old pool.new }
    {
        if self.is_going_on {
            let step = self.go_on(alloc, pool, decls, game)?;
            if step.is_some() {
                return Ok(step);
            }
            self.begin(Phase::Settling);
        }
        self.go_by_phase(alloc, pool, decls, game, closed, may_move)
    }

    /// The next step to try in a game where these queries are closed, if there is one: moves come only where a query is open.
    #[tactic(auto, using(crate::proofs::Growing::growing))]
    pub fn propose(
        &mut self,
        alloc: Global,
        pool: &mut Pool,
        decls: &Decls,
        game: NodeId,
        closed: &ClosedQueries,
        may_move: bool,
    ) -> Result<Option<Proposal>, PoolError>
        ensures below { IfOk result (λ o. IfSome o (IsProposalBelow (length pool.new.trees))) }
        ensures grows { Grows pool.old pool.new }
    {
        let step = self.find_next(alloc, pool, decls, game, closed, may_move)?;
        if self.goes_further {
            self.note(&step)?;
        }
        Ok(step)
    }
}
