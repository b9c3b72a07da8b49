use crate::scores::Score;
use crate::sparing::{CostlyStep, Spared};
use crate::strategy::{MOST_NODES, Strategy};
use cv_report::Verdict;
use std::alloc::{AllocError, Global};

/// How many rehearsals there are at most.
pub const MOST_REHEARSALS: u32 = 65;

/// How far the rehearsals of a search have come: the steps that are spared, the costly steps of its sums without them and how heavy these
/// are, how many of the costly steps are needed, from the first one on, and how many nodes the games of further rehearsals may have
/// together.
#[derive(Drop)]
pub struct Rehearsals {
    has_begun: bool,
    spared: Spared,
    costly: Vec<CostlyStep>,
    score: Score,
    needed: usize,
    effort: u32,
}

impl Rehearsals {
    /// Nothing was rehearsed. Takes no memory.
    pub fn new(alloc: Global) -> Rehearsals {
        Rehearsals {
            has_begun: false,
            spared: Spared::new(alloc),
            costly: Vec::new(alloc),
            score: Score::new(alloc),
            needed: 0,
            effort: MOST_NODES,
        }
    }

    /// The steps that are spared in the next rehearsal: none in the first one, and then one more than so far, as long as there is one and
    /// games may be looked at.
    fn next_spared(&self, alloc: Global) -> Result<Option<Spared>, AllocError> {
        let mut spared = self.spared.copy(alloc)?;
        if !self.has_begun {
            return Ok(Some(spared));
        }
        let Some(step) = self.costly.get(self.needed).copied() else {
            return Ok(None);
        };
        if self.effort == 0 {
            return Ok(None);
        }
        spared.add(step)?;
        Ok(Some(spared))
    }

    /// The strategy of the next rehearsal, if there is to be one. But for the first it makes moves for the queries alone that are closed
    /// without it.
    pub fn next_strategy(&self, alloc: Global) -> Result<Option<Strategy>, AllocError> {
        let Some(spared) = self.next_spared(alloc)? else {
            return Ok(None);
        };
        let mut strategy = Strategy::new(alloc, true, spared, self.effort);
        if self.has_begun {
            strategy.ask_only(self.score.closed(alloc)?);
        }
        Ok(Some(strategy))
    }

    /// Whether a rehearsal is better than those before. One for which the games have too many nodes isn't, but for the first.
    fn is_better(&self, score: &Score, effort: u32) -> bool {
        let is_whole = effort > 0 || !self.has_begun;
        is_whole && score.is_better(&self.score)
    }

    /// Takes in the verdicts that a rehearsal by a strategy came to: what it spares is spared from now on where that is better.
    pub fn rate(
        &mut self,
        alloc: Global,
        strategy: Strategy,
        verdicts: &[Verdict],
    ) -> Result<(), AllocError> {
        let score = Score::of(alloc, verdicts)?;
        let effort = strategy.effort();
        if self.is_better(&score, effort) {
            let (spared, costly) = strategy.into_steps();
            self.spared = spared;
            self.costly = costly;
            self.score = score;
        } else {
            self.needed = self.needed.saturating_add(1);
        }
        self.has_begun = true;
        self.effort = effort;
        Ok(())
    }

    /// The steps that are to be spared.
    pub fn into_spared(self) -> Spared {
        self.spared
    }
}
