// The rounds in which a closure takes what follows.
use crate::closure::Closure;
use crate::theory::Theory;
use std::alloc::AllocError;

/// How many rounds there are at most.
const MOST_ROUNDS: u32 = 4;

/// How many terms are looked at in a round at most.
const MOST_TURNS: u32 = 1_000_000;

impl Closure {
    /// Takes what follows of the terms on the agenda by truth values, functions that are `[data]` and arrays whose values are taken to
    /// differ, until there are none.
    fn look(&mut self, theory: &Theory) -> Result<(), AllocError> {
        self.settle()?;
        for _ in 0..MOST_TURNS {
            let Some(t) = self.agenda.take() else {
                return Ok(());
            };
            if !self.spend(1) {
                return Ok(());
            }
            self.open_truth(t)?;
            self.open_arguments(&theory.data, t)?;
            self.settle()?;
        }
        Ok(())
    }

    /// Takes what follows from what is known, by congruence, truth values, functions that are `[data]`, arrays whose values are
    /// taken to differ, and declared equations, in at most four rounds.
    pub fn saturate(&mut self, theory: &Theory) -> Result<(), AllocError> {
        self.look(theory)?;
        for _ in 0..MOST_ROUNDS {
            let before = self.progress();
            self.try_equations(theory)?;
            self.look(theory)?;
            if self.progress() == before {
                return Ok(());
            }
        }
        Ok(())
    }
}
