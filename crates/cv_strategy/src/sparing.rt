use cv_settling::Chance;
use cv_step_writer::Proposal;
use cv_syntax::NameId;
use std::alloc::{AllocError, Global};

/// A step that costs something, by what it names, so that it isn't proposed again.
#[derive(Clone, Copy, Debug, PartialEq, Eq)]
pub enum CostlyStep {
    /// A cryptographic step: its equivalence, and the variable that stands for its key.
    Crypto { equivalence: NameId, x: NameId },
    /// A step that takes equalities of a variable to hold by chance alone.
    Chance(Chance),
}

impl CostlyStep {
    /// The costly step that is proposed, if it is one. A step `fresh` names nothing, and counts as none.
    fn of(proposal: &Proposal) -> Option<CostlyStep> {
        match proposal {
            Proposal::Crypto { equivalence, x } => Some(CostlyStep::Crypto {
                equivalence: *equivalence,
                x: *x,
            }),
            Proposal::Birthday { x, .. } => Some(CostlyStep::Chance(Chance::Birthday(*x))),
            Proposal::Guess { x, .. } => Some(CostlyStep::Chance(Chance::Guess(*x))),
            _ => None,
        }
    }
}

/// Costly steps that a strategy doesn't propose: they don't count in the numbering of what it does.
#[derive(Drop)]
pub struct Spared {
    crypto: Vec<(NameId, NameId)>,
    chances: Vec<Chance>,
}

impl Spared {
    /// No step. Takes no memory.
    pub fn new(alloc: Global) -> Spared {
        Spared {
            crypto: Vec::new(alloc),
            chances: Vec::new(alloc),
        }
    }

    /// The same steps.
    pub fn copy(&self, alloc: Global) -> Result<Spared, AllocError> {
        let mut copy = Spared::new(alloc);
        copy.crypto.extend_from_slice(&self.crypto)?;
        copy.chances.extend_from_slice(&self.chances)?;
        Ok(copy)
    }

    /// Spares one step more.
    pub fn add(&mut self, step: CostlyStep) -> Result<(), AllocError> {
        match step {
            CostlyStep::Crypto { equivalence, x } => self.crypto.push((equivalence, x))?,
            CostlyStep::Chance(chance) => self.chances.push(chance)?,
        }
        Ok(())
    }

    /// Whether a cryptographic step is spared.
    pub(crate) fn has_crypto(&self, equivalence: u32, x: u32) -> bool {
        self.crypto
            .iter()
            .any(|(e, y)| e.0 == equivalence && y.0 == x)
    }

    /// The spared steps that rest on chance.
    pub(crate) fn chances(&self) -> &[Chance] {
        self.chances.as_slice()
    }
}

/// The costly steps that were accepted, in their order, and how many of them stood before the last query was closed: these stand in sums.
#[derive(Drop)]
pub(crate) struct Payments {
    steps: Vec<CostlyStep>,
    proposed: Option<CostlyStep>,
    before_closing: usize,
}

impl Payments {
    /// No step. Takes no memory.
    pub(crate) fn new(alloc: Global) -> Payments {
        Payments {
            steps: Vec::new(alloc),
            proposed: None,
            before_closing: 0,
        }
    }

    /// Notes what is proposed, with room for it among the steps.
    pub(crate) fn propose(&mut self, proposal: &Option<Proposal>) -> Result<(), AllocError> {
        self.proposed = match proposal {
            Some(step) => CostlyStep::of(step),
            None => None,
        };
        if self.proposed.is_some() {
            self.steps.reserve(1)?;
        }
        Ok(())
    }

    /// Notes that the step was accepted which was proposed last.
    pub(crate) fn accept(&mut self) {
        if let Some(step) = self.proposed.take() {
            let _ = self.steps.push(step);
        }
    }

    /// Notes that a query was closed.
    pub(crate) fn close(&mut self) {
        self.before_closing = self.steps.len();
    }

    /// The steps that stand in sums.
    pub(crate) fn into_steps(self) -> Vec<CostlyStep> {
        let Payments {
            steps,
            before_closing,
            ..
        } = self;
        let mut paid = steps;
        paid.truncate(before_closing);
        paid
    }
}
