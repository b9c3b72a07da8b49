// What is known at a place of a game, in a closure.
use crate::survey::{Known, Link, Survey};
use crate::translating::{Given, translate};
use cv_closure::{Cell, Closure, Source, Standing, TermId, Theory};
use cv_syntax::{Head, NodeId, Pool};
use std::alloc::{AllocError, Global};

/// How many cells' sites are looked at, at most.
const MOST_CELLS: usize = 200;

/// How far a cell that is looked at may be from the place, by sites of sites.
const MOST_DEEP: u32 = 3;

/// The closure of what is known at a place: its facts, those at the only sites of the cells that are defined there, and those
/// at the sites of cells there, with how far each cell is from the place.
#[derive(Drop)]
pub struct Grounds {
    pub closure: Closure,
    depths: Vec<u32>,
}

/// A cell at current indices: its number, its variable, and of each of its index terms that is another term than the current index, but
/// equal to it, both.
#[derive(Drop)]
pub struct CurrentCell {
    pub cell: usize,
    pub variable: u32,
    pub indices: Vec<(TermId, TermId)>,
}

/// Whose facts are added: a place's own, or those at the site of a cell, with the cell's index terms and how far cells are
/// that stand there.
#[derive(Drop)]
struct Origin {
    standing: Standing,
    indices: Vec<TermId>,
    depth: u32,
}

impl Origin {
    /// Of a place.
    fn at(alloc: Global, standing: Standing) -> Origin {
        Origin {
            standing,
            indices: Vec::new(alloc),
            depth: 0,
        }
    }

    /// How a fact of this number is right.
    fn source(&self, fact: u32) -> Source {
        match self.standing {
            Standing::Here => Source::Fact(fact),
            Standing::There => Source::OtherFact(fact),
            Standing::Behind(cell) => Source::Site { cell, fact },
        }
    }
}

/// The variable of a cell.
fn variable_of(closure: &Closure, cell: TermId) -> Option<u32> {
    match closure.terms().head(cell) {
        Some(Head::Leaf(x) | Head::Read(x)) => Some(x),
        _ => None,
    }
}

impl Grounds {
    /// Nothing is known, and what follows may take so much effort.
    pub(crate) fn nothing(alloc: Global, effort: u32) -> Result<Grounds, AllocError> {
        Ok(Grounds {
            closure: Closure::new(alloc, effort)?,
            depths: Vec::new(alloc),
        })
    }

    /// What is known at a place, and what follows from it with so much effort.
    pub fn at(
        alloc: Global,
        pool: &Pool,
        survey: &Survey,
        theory: &Theory,
        last: u32,
        effort: u32,
    ) -> Result<Grounds, AllocError> {
        let mut grounds = Grounds::nothing(alloc, effort)?;
        let _indices = grounds.add_place(alloc, pool, survey, last, Standing::Here)?;
        grounds.add_sites(alloc, pool, survey)?;
        grounds.closure.saturate(theory)?;
        Ok(grounds)
    }

    /// Adds all that is known at a place, and gives its indices: in the second copy with their marks.
    pub(crate) fn add_place(
        &mut self,
        alloc: Global,
        pool: &Pool,
        survey: &Survey,
        last: u32,
        standing: Standing,
    ) -> Result<Given, AllocError> {
        self.add_known(alloc, pool, survey, last, &Origin::at(alloc, standing))
    }

    /// Adds an index: at a place it is itself, in the second copy with its mark, and at a site the cell's index term stands for
    /// it.
    fn add_index(
        &mut self,
        given: &mut Given,
        origin: &Origin,
        index: u32,
    ) -> Result<(), AllocError> {
        let there = match origin.standing {
            Standing::Behind(_) => origin.indices.get(given.len()).copied(),
            Standing::Here => self.closure.term(Head::Leaf(index), &[])?,
            Standing::There => self.closure.term(Head::Primed(index), &[])?,
        };
        match there {
            Some(term) => given.add(index, term),
            None => Ok(()),
        }
    }

    /// Adds a cell that is defined, where it isn't known to be.
    fn add_cell(
        &mut self,
        alloc: Global,
        pool: &Pool,
        given: &Given,
        origin: &Origin,
        n: NodeId,
    ) -> Result<(), AllocError> {
        match translate(alloc, &mut self.closure, pool, given, n)? {
            Some(term) => self.add_defined(origin, term),
            None => Ok(()),
        }
    }

    /// Adds a cell that is defined by its term, where it isn't known to be.
    fn add_defined(&mut self, origin: &Origin, term: TermId) -> Result<(), AllocError> {
        if self.closure.cell_of(term).is_some() {
            return Ok(());
        }
        let standing = origin.standing;
        let _number = self.closure.add_cell(Cell { term, standing })?;
        self.depths.push(origin.depth)?;
        Ok(())
    }

    /// Adds the cell of an array whose values are taken to differ, where it was chosen at random under so many indices.
    fn add_choice(
        &mut self,
        given: &Given,
        origin: &Origin,
        array: u32,
        indices: usize,
    ) -> Result<(), AllocError> {
        let terms = given.terms();
        if !self.closure.is_told_apart(array) || indices > terms.len() {
            return Ok(());
        }
        match self.closure.term(Head::Read(array), &terms[..indices])? {
            Some(term) => self.add_defined(origin, term),
            None => Ok(()),
        }
    }

    /// Adds the cells of arrays whose values are taken to differ that were chosen at random above.
    fn add_choices(
        &mut self,
        survey: &Survey,
        last: u32,
        given: &Given,
        origin: &Origin,
    ) -> Result<(), AllocError> {
        for link in &survey.choices(last)? {
            if let Known::Chosen(array) = link.known {
                self.add_choice(given, origin, array, link.indices as usize)?;
            }
        }
        Ok(())
    }

    /// A variable at the current indices.
    fn variable(&mut self, given: &Given, x: u32) -> Result<Option<TermId>, AllocError> {
        if given.len() == 0 {
            return self.closure.term(Head::Leaf(x), &[]);
        }
        self.closure.term(Head::Read(x), given.terms())
    }

    /// The term of a fact.
    fn fact(
        &mut self,
        alloc: Global,
        pool: &Pool,
        given: &Given,
        known: Known,
    ) -> Result<Option<TermId>, AllocError> {
        match known {
            Known::Equal { variable, term } => {
                let Some(value) = translate(alloc, &mut self.closure, pool, given, term)? else {
                    return Ok(None);
                };
                match self.variable(given, variable)? {
                    Some(cell) => self.closure.term(Head::Eq, &[cell, value]),
                    None => Ok(None),
                }
            }
            Known::Holds(n) => translate(alloc, &mut self.closure, pool, given, n),
            Known::Fails(n) => match translate(alloc, &mut self.closure, pool, given, n)? {
                Some(term) => self.closure.term(Head::Not, &[term]),
                None => Ok(None),
            },
            _ => Ok(None),
        }
    }

    /// Adds what a construct gives.
    fn add_link(
        &mut self,
        alloc: Global,
        pool: &Pool,
        given: &mut Given,
        origin: &Origin,
        link: Link,
    ) -> Result<(), AllocError> {
        match link.known {
            Known::Index(index) => self.add_index(given, origin, index),
            Known::Cell(n) => self.add_cell(alloc, pool, given, origin, n),
            known => match self.fact(alloc, pool, given, known)? {
                Some(term) => self.closure.assume_ground(term, origin.source(link.facts)),
                None => Ok(()),
            },
        }
    }

    /// Adds all that is known at a place or at the site of a cell, from the root down.
    fn add_known(
        &mut self,
        alloc: Global,
        pool: &Pool,
        survey: &Survey,
        last: u32,
        origin: &Origin,
    ) -> Result<Given, AllocError> {
        let mut given = Given::new(alloc);
        let known = survey.known(last)?;
        if !self.closure.spend(known.len()) {
            return Ok(given);
        }
        for link in known.iter().rev() {
            self.add_link(alloc, pool, &mut given, origin, *link)?;
        }
        self.add_choices(survey, last, &given, origin)?;
        Ok(given)
    }

    /// The index terms of a cell.
    fn indices(&self, alloc: Global, cell: TermId) -> Result<Vec<TermId>, AllocError> {
        let mut indices = Vec::new(alloc);
        for index in self.closure.terms().arguments(cell) {
            indices.push(*index)?;
        }
        Ok(indices)
    }

    /// Adds what is known at the only site of a cell.
    fn add_site(
        &mut self,
        alloc: Global,
        pool: &Pool,
        survey: &Survey,
        k: usize,
    ) -> Result<(), AllocError> {
        let Some(last) = self.site(survey, k) else {
            return Ok(());
        };
        let (Some(cell), Some(depth)) = (
            self.closure.cells().get(k).copied(),
            self.depths.get(k).copied(),
        ) else {
            return Ok(());
        };
        if depth >= MOST_DEEP {
            return Ok(());
        }
        let origin = Origin {
            standing: Standing::Behind(k),
            indices: self.indices(alloc, cell.term)?,
            depth: depth.saturating_add(1),
        };
        let _given = self.add_known(alloc, pool, survey, last, &origin)?;
        Ok(())
    }

    /// Adds what is known at the sites of cells, of those too that are found so.
    pub(crate) fn add_sites(
        &mut self,
        alloc: Global,
        pool: &Pool,
        survey: &Survey,
    ) -> Result<(), AllocError> {
        for k in 0..MOST_CELLS {
            if k >= self.closure.cells().len() {
                return Ok(());
            }
            self.add_site(alloc, pool, survey, k)?;
        }
        Ok(())
    }

    /// What is known behind the only definition of a cell's variable, where there is one alone.
    pub fn site(&self, survey: &Survey, k: usize) -> Option<u32> {
        let cell = self.closure.cells().get(k)?;
        survey.site(variable_of(&self.closure, cell.term)?)
    }

    /// The indices that are current at the place, or at the site of a cell, with what stands for them.
    pub fn given(
        &mut self,
        alloc: Global,
        survey: &Survey,
        last: u32,
        cell: Option<usize>,
    ) -> Result<Given, AllocError> {
        let mut origin = Origin::at(alloc, Standing::Here);
        if let Some(k) = cell {
            origin.standing = Standing::Behind(k);
            if let Some(there) = self.closure.cells().get(k).copied() {
                origin.indices = self.indices(alloc, there.term)?;
            }
        }
        let mut given = Given::new(alloc);
        let known = survey.known(last)?;
        if !self.closure.spend(known.len()) {
            return Ok(given);
        }
        for link in known.iter().rev() {
            if let Known::Index(index) = link.known {
                self.add_index(&mut given, &origin, index)?;
            }
        }
        Ok(given)
    }

    /// The index terms of a cell that are other terms than the current indices, each with the one to which it is equal. There are none
    /// where some index term isn't known to be equal to the current index.
    fn current_indices(
        &self,
        alloc: Global,
        cell: TermId,
        current: &Given,
    ) -> Result<Option<Vec<(TermId, TermId)>>, AllocError> {
        let mut others = Vec::new(alloc);
        let terms = self.closure.terms().arguments(cell);
        if terms.len() > current.len() {
            return Ok(None);
        }
        for (term, index) in terms.iter().zip(current.terms()) {
            if !self.closure.are_equal(*term, *index) {
                return Ok(None);
            }
            if *term != *index {
                others.push((*term, *index))?;
            }
        }
        Ok(Some(others))
    }

    /// The cells that are defined at a place, by what is known there, of which the index terms are the current indices.
    pub fn current_cells(
        &mut self,
        alloc: Global,
        survey: &Survey,
        last: u32,
    ) -> Result<Vec<CurrentCell>, AllocError> {
        let mut found = Vec::new(alloc);
        let current = self.given(alloc, survey, last, None)?;
        for cell in 0..self.closure.cells().len() {
            let Some(term) = self.closure.cells().get(cell).map(|c| c.term) else {
                return Ok(found);
            };
            let Some(variable) = variable_of(&self.closure, term) else {
                return Ok(found);
            };
            if let Some(indices) = self.current_indices(alloc, term, &current)? {
                found.push(CurrentCell {
                    cell,
                    variable,
                    indices,
                })?;
            }
        }
        Ok(found)
    }
}
