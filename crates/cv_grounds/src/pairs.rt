// What is known at two places of a game, of each of which a copy is reached in one run.
use crate::grounds::Grounds;
use crate::nodes::items;
use crate::survey::Survey;
use crate::translating::{Given, transfer, translate};
use cv_closure::{Closure, Source, Standing, TermId, Terms, Theory};
use cv_syntax::{Head, NodeId, Pool};
use std::alloc::{AllocError, Global};

/// Where a route ends: at an event's place, at these terms for the replications above it, over a table of their own.
#[derive(Drop)]
pub struct End {
    pub place: u32,
    pub table: Terms,
    pub indices: Vec<TermId>,
}

/// The terms of a list as those of a closure, with terms for names; fewer, the first ones, where the closure is full.
fn translate_all(
    alloc: Global,
    closure: &mut Closure,
    pool: &Pool,
    given: &Given,
    list: Option<NodeId>,
) -> Result<Vec<TermId>, AllocError> {
    let mut terms = Vec::new(alloc);
    for n in &items(alloc, pool, list)? {
        let Some(term) = translate(alloc, closure, pool, given, *n)? else {
            return Ok(terms);
        };
        terms.push(term)?;
    }
    Ok(terms)
}

/// The closure of what is known at two places, the indices of the first place, and those of the second one with their marks. Facts
/// and cells that both have are those of the first place.
#[derive(Drop)]
pub struct Copies {
    grounds: Grounds,
    first: Given,
    second: Given,
}

impl Copies {
    /// What is known at two places, where the values of these arrays are taken to differ. What follows may take so much effort.
    pub fn at(
        alloc: Global,
        pool: &Pool,
        survey: &Survey,
        places: (u32, u32),
        distinct: &[u32],
        effort: u32,
    ) -> Result<Copies, AllocError> {
        let mut grounds = Grounds::nothing(alloc, effort)?;
        for array in distinct {
            grounds.closure.tell_apart(*array)?;
        }
        let first = grounds.add_place(alloc, pool, survey, places.0, Standing::Here)?;
        let second = grounds.add_place(alloc, pool, survey, places.1, Standing::There)?;
        grounds.add_sites(alloc, pool, survey)?;
        Ok(Copies {
            grounds,
            first,
            second,
        })
    }

    /// What follows.
    pub fn closure(&self) -> &Closure {
        &self.grounds.closure
    }

    /// Takes the equation of this number as given, between terms of both copies, where they are there.
    fn give_one(&mut self, number: u32, m: TermId, n: TermId) -> Result<(), AllocError> {
        match self.grounds.closure.term(Head::Eq, &[m, n])? {
            Some(term) => self
                .grounds
                .closure
                .assume_ground(term, Source::Same(number)),
            None => Ok(()),
        }
    }

    /// Takes the equations between terms of both copies as given, in order, and takes what follows.
    fn give_all(
        &mut self,
        theory: &Theory,
        ms: &[TermId],
        ns: &[TermId],
    ) -> Result<(), AllocError> {
        for (k, (m, n)) in ms.iter().zip(ns).enumerate() {
            let number = u32::try_from(k).unwrap_or(u32::MAX).saturating_add(1);
            self.give_one(number, *m, *n)?;
        }
        self.grounds.closure.saturate(theory)
    }

    /// Takes as given that two lists of terms are equal, one at the first place and one at the second; and takes what follows.
    pub fn give_terms(
        &mut self,
        alloc: Global,
        pool: &Pool,
        theory: &Theory,
        terms: Option<NodeId>,
        others: Option<NodeId>,
    ) -> Result<(), AllocError> {
        let closure = &mut self.grounds.closure;
        let ms = translate_all(alloc, closure, pool, &self.first, terms)?;
        let ns = translate_all(alloc, closure, pool, &self.second, others)?;
        self.give_all(theory, &ms, &ns)
    }

    /// Takes as given that two routes end alike, one from the first place and one from the second; and takes what follows.
    pub fn give(
        &mut self,
        alloc: Global,
        theory: &Theory,
        end: &End,
        other: &End,
    ) -> Result<(), AllocError> {
        let closure = &mut self.grounds.closure;
        let ms = transfer(alloc, closure, &self.first, &end.table, &end.indices)?;
        let ns = transfer(alloc, closure, &self.second, &other.table, &other.indices)?;
        self.give_all(theory, &ms, &ns)
    }

    /// The outermost indices of the first place with those of the second one, so many.
    pub fn indices(
        &self,
        alloc: Global,
        count: usize,
    ) -> Result<Vec<(TermId, TermId)>, AllocError> {
        let mut indices = Vec::new(alloc);
        for (m, n) in self.first.terms().iter().zip(self.second.terms()) {
            if indices.len() < count {
                indices.push((*m, *n))?;
            }
        }
        Ok(indices)
    }
}
