use crate::terms::TermId;
use std::alloc::{AllocError, Global};

/// Terms that are to be looked at, the oldest first, each once at a time.
#[derive(Drop)]
pub(crate) struct Agenda {
    terms: Vec<TermId>,
    next: usize,
    is_there: Vec<bool>,
}

impl Agenda {
    /// No terms.
    pub(crate) fn new(alloc: Global) -> Agenda {
        Agenda {
            terms: Vec::new(alloc),
            next: 0,
            is_there: Vec::new(alloc),
        }
    }

    /// Notes whether a term is there.
    fn mark(&mut self, t: TermId, is_there: bool) {
        if let Some(mark) = self.is_there.get_mut(t.0 as usize) {
            *mark = is_there;
        }
    }

    /// Puts a term at the end, unless it is there.
    pub(crate) fn add(&mut self, t: TermId) -> Result<(), AllocError> {
        let count = (t.0 as usize).saturating_add(1);
        if self.is_there.len() < count {
            self.is_there.resize(count, false)?;
        }
        if self.is_there.get(t.0 as usize).copied().unwrap_or(false) {
            return Ok(());
        }
        self.mark(t, true);
        self.terms.push(t)?;
        Ok(())
    }

    /// Puts terms at the end, but for those that are there.
    pub(crate) fn add_all(&mut self, terms: &[TermId]) -> Result<(), AllocError> {
        for t in terms {
            self.add(*t)?;
        }
        Ok(())
    }

    /// Takes the oldest term off.
    pub(crate) fn take(&mut self) -> Option<TermId> {
        let Some(t) = self.terms.get(self.next).copied() else {
            self.terms.clear();
            self.next = 0;
            return None;
        };
        self.next = self.next.saturating_add(1);
        self.mark(t, false);
        Some(t)
    }
}
