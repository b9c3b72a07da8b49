// What a closure joined, written out as the lines of a derivation.
use crate::lines::{Claim, Derivation, Line, Reason};
use cv_closure::{Arguments, Closure, Join, Source, Standing, Step, TermId, Terms, Why};
use cv_syntax_trees::Head;
use std::alloc::{AllocError, AllocFailed, Global};

/// Why a derivation isn't written.
#[derive(Clone, Copy)]
pub(crate) enum Stop {
    /// It would be too long, or one of its lines too heavy.
    TooLong,
    OutOfMemory,
}

impl From<AllocError> for Stop {
    fn from(_e: AllocError) -> Stop {
        Stop::OutOfMemory
    }
}

impl<T: Drop> From<AllocFailed<T>> for Stop {
    fn from(_e: AllocFailed<T>) -> Stop {
        Stop::OutOfMemory
    }
}

/// How deep a derivation goes back to why its lines hold.
const MOST_DEEP: u32 = 400;

/// How many terms the lines of a derivation have at most.
const MOST_TERMS: u32 = 100_000;

/// A derivation that is being written: its terms and lines, where the terms of the closure are in its table, which line says
/// each of its terms, which line says that a cell is defined, and the bounds.
#[derive(Drop)]
pub(crate) struct Scribe {
    alloc: Global,
    terms: Terms,
    lines: Vec<Line>,
    copies: Vec<Option<TermId>>,
    said: Vec<u64>,
    cells: Vec<u64>,
    most_lines: usize,
    most_weight: u64,
}

/// How much a reason weighs.
fn weight_of(terms: &Terms, by: &Reason) -> u64 {
    match by {
        Reason::Equation(_, instance) => {
            let mut weight = 2_u64;
            for t in instance {
                weight = weight.saturating_add(terms.weight(*t));
            }
            weight
        }
        Reason::Cong(lines) => 1_u64.saturating_add(lines.len() as u64),
        Reason::Distinct(_, _, _, _) => 5,
        _ => 3,
    }
}

impl Scribe {
    /// Nothing is written yet of what a closure joined.
    pub(crate) fn new(
        alloc: Global,
        closure: &Closure,
        most_lines: usize,
        most_weight: u64,
    ) -> Result<Scribe, AllocError> {
        let mut copies = Vec::new(alloc);
        copies.resize(closure.terms().len() as usize, None)?;
        Ok(Scribe {
            alloc,
            terms: Terms::new(alloc, MOST_TERMS)?,
            lines: Vec::new(alloc),
            copies,
            said: Vec::new(alloc),
            cells: Vec::new(alloc),
            most_lines,
            most_weight,
        })
    }

    /// What is written.
    pub(crate) fn derivation(self) -> Derivation {
        let Scribe { terms, lines, .. } = self;
        Derivation { terms, lines }
    }

    /// How many lines are written.
    pub(crate) fn len(&self) -> u64 {
        self.lines.len() as u64
    }

    /// A term of the derivation.
    fn made(&mut self, head: Head, arguments: &[TermId]) -> Result<TermId, Stop> {
        match self.terms.add(head, arguments)? {
            Some(t) => Ok(t),
            None => Err(Stop::TooLong),
        }
    }

    /// The equation of two terms of the derivation.
    fn equation(&mut self, m: TermId, n: TermId) -> Result<TermId, Stop> {
        self.made(Head::Eq, &[m, n])
    }

    /// A term of the closure, as one of the derivation.
    pub(crate) fn copy(&mut self, closure: &Closure, t: TermId) -> Result<TermId, Stop> {
        if let Some(there) = self.copies.get(t.0 as usize).copied().unwrap_or(None) {
            return Ok(there);
        }
        let Some(head) = closure.terms().head(t) else {
            return Err(Stop::TooLong);
        };
        let mut arguments = Vec::new(self.alloc);
        for k in 0..closure.terms().arguments(t).len() {
            let Some(argument) = closure.terms().argument(t, k) else {
                return Err(Stop::TooLong);
            };
            if argument.0 >= t.0 {
                return Err(Stop::TooLong);
            }
            let copy = self.copy(closure, argument)?;
            arguments.push(copy)?;
        }
        let made = self.made(head, &arguments)?;
        if let Some(copy) = self.copies.get_mut(t.0 as usize) {
            *copy = Some(made);
        }
        Ok(made)
    }

    /// The line that says a term, if there is one.
    fn line_of(&self, t: TermId) -> Option<u64> {
        match self.said.get(t.0 as usize) {
            Some(0) | None => None,
            Some(line) => Some(*line),
        }
    }

    /// Writes a line, within the bounds.
    pub(crate) fn write(&mut self, claim: Claim, by: Reason) -> Result<u64, Stop> {
        let term = match claim {
            Claim::Holds(t) => t,
            Claim::Defined(c) => c,
        };
        let weight = self
            .terms
            .weight(term)
            .saturating_add(weight_of(&self.terms, &by));
        if self.lines.len() >= self.most_lines || weight >= self.most_weight {
            return Err(Stop::TooLong);
        }
        self.lines.push(Line { claim, by })?;
        Ok(self.len())
    }

    /// The line that says a term: one that is there, or a new one with this reason.
    fn say(&mut self, t: TermId, by: Reason) -> Result<u64, Stop> {
        if let Some(line) = self.line_of(t) {
            return Ok(line);
        }
        let line = self.write(Claim::Holds(t), by)?;
        let count = self.terms.len() as usize;
        if self.said.len() < count {
            self.said.resize(count, 0)?;
        }
        if let Some(said) = self.said.get_mut(t.0 as usize) {
            *said = line;
        }
        Ok(line)
    }

    /// The line that says an equation of truth values, whose sides are terms of the derivation.
    fn truth(&mut self, m: TermId, n: TermId) -> Result<u64, Stop> {
        let claim = self.equation(m, n)?;
        self.say(claim, Reason::Bool)
    }

    /// The line that says that a cell of the closure is defined.
    pub(crate) fn cell(&mut self, closure: &Closure, k: usize) -> Result<u64, Stop> {
        if let Some(line) = self.cells.get(k).copied() {
            if line > 0 {
                return Ok(line);
            }
        }
        let Some(cell) = closure.cells().get(k).copied() else {
            return Err(Stop::TooLong);
        };
        let by = match cell.standing {
            Standing::Here => Reason::Here,
            Standing::There => Reason::OtherHere,
            Standing::Behind(other) => {
                if other >= k {
                    return Err(Stop::TooLong);
                }
                Reason::Of(self.cell(closure, other)?)
            }
        };
        let term = self.copy(closure, cell.term)?;
        let line = self.write(Claim::Defined(term), by)?;
        self.note_cell(k, line)?;
        Ok(line)
    }

    /// Notes the line of a cell.
    fn note_cell(&mut self, k: usize, line: u64) -> Result<(), Stop> {
        if self.cells.len() <= k {
            self.cells.resize(k.saturating_add(1), 0)?;
        }
        if let Some(there) = self.cells.get_mut(k) {
            *there = line;
        }
        Ok(())
    }

    /// Terms of the closure, as those of the derivation.
    pub(crate) fn copies(
        &mut self,
        closure: &Closure,
        terms: &[TermId],
    ) -> Result<Vec<TermId>, Stop> {
        let mut copies = Vec::new(self.alloc);
        for t in terms {
            let copy = self.copy(closure, *t)?;
            copies.push(copy)?;
        }
        Ok(copies)
    }

    /// The line that says an instance of an equation.
    fn instance(
        &mut self,
        closure: &Closure,
        claim: TermId,
        number: u32,
        instance: usize,
    ) -> Result<u64, Stop> {
        let Some(found) = closure.instance_at(instance) else {
            return Err(Stop::TooLong);
        };
        let terms = self.copies(closure, found)?;
        self.say(claim, Reason::Equation(u64::from(number), terms))
    }

    /// The line that says a term of the closure that is known.
    #[cycle(explaining)]
    fn known(&mut self, closure: &Closure, t: TermId, left: u32) -> Result<u64, Stop> {
        let claim = self.copy(closure, t)?;
        if let Some(line) = self.line_of(claim) {
            return Ok(line);
        }
        if left == 0 {
            return Err(Stop::TooLong);
        }
        match closure.source(t) {
            Some(Source::Fact(k)) => self.say(claim, Reason::Fact(u64::from(k))),
            Some(Source::OtherFact(k)) => self.say(claim, Reason::OtherFact(u64::from(k))),
            Some(Source::Same(k)) => self.say(claim, Reason::Same(u64::from(k))),
            Some(Source::Site { cell, fact }) => {
                let line = self.cell(closure, cell)?;
                self.say(claim, Reason::Site(line, u64::from(fact)))
            }
            Some(Source::Equation { number, instance }) => {
                self.instance(closure, claim, number, instance)
            }
            Some(Source::Left(whole)) => {
                let line = self.known(closure, whole, left - 1)?;
                self.say(claim, Reason::Left(line))
            }
            Some(Source::Right(whole)) => {
                let line = self.known(closure, whole, left - 1)?;
                self.say(claim, Reason::Right(line))
            }
            Some(Source::Yes) => self.say(claim, Reason::Bool),
            Some(Source::Equal) => self.known_by_class(closure, t, claim, left - 1),
            None => match self.sides(closure, t) {
                Some((m, n)) => self.equal(closure, m, n, left - 1),
                None => self.known_by_class(closure, t, claim, left - 1),
            },
        }
    }

    /// The sides of a term that is an equation of equal terms.
    fn sides(&self, closure: &Closure, t: TermId) -> Option<(TermId, TermId)> {
        if !closure.is_reflexive(t) {
            return None;
        }
        Some((
            closure.terms().argument(t, 0)?,
            closure.terms().argument(t, 1)?,
        ))
    }

    /// The line that says a term of the closure that is equal to `true`.
    #[cycle(explaining)]
    fn known_by_class(
        &mut self,
        closure: &Closure,
        t: TermId,
        claim: TermId,
        left: u32,
    ) -> Result<u64, Stop> {
        let yes = self.made(Head::Yes, &[])?;
        let first = self.say(yes, Reason::Bool)?;
        let second = self.equal(closure, closure.yes(), t, left)?;
        self.say(claim, Reason::Mp(first, second))
    }

    /// The line that says that two terms of the closure are equal, which are in one class.
    #[cycle(explaining)]
    pub(crate) fn equal(
        &mut self,
        closure: &Closure,
        a: TermId,
        b: TermId,
        left: u32,
    ) -> Result<u64, Stop> {
        let m = self.copy(closure, a)?;
        let n = self.copy(closure, b)?;
        let claim = self.equation(m, n)?;
        if let Some(line) = self.line_of(claim) {
            return Ok(line);
        }
        if a == b {
            return self.say(claim, Reason::Refl);
        }
        let steps = closure.classes().path(self.alloc, a, b)?;
        self.chain(closure, m, &steps, left)
    }

    /// The line that says that a term is equal to the last one of a chain of steps.
    #[cycle(explaining)]
    fn chain(
        &mut self,
        closure: &Closure,
        from: TermId,
        steps: &[Step],
        left: u32,
    ) -> Result<u64, Stop> {
        let mut so_far = None;
        for step in steps {
            let line = self.step(closure, *step, left)?;
            let to = self.copy(closure, step.to)?;
            so_far = match so_far {
                None => Some(line),
                Some(before) => Some(self.lead(from, to, before, line)?),
            };
        }
        match so_far {
            Some(line) => Ok(line),
            None => Err(Stop::TooLong),
        }
    }

    /// The line that says that two terms of the derivation are equal, by two lines that meet.
    fn lead(&mut self, from: TermId, to: TermId, before: u64, line: u64) -> Result<u64, Stop> {
        let claim = self.equation(from, to)?;
        self.say(claim, Reason::Trans(before, line))
    }

    /// The line that says that the terms of a step are equal.
    #[cycle(explaining)]
    fn step(&mut self, closure: &Closure, step: Step, left: u32) -> Result<u64, Stop> {
        let Some(join) = closure.classes().join_at(step.join) else {
            return Err(Stop::TooLong);
        };
        let line = self.joined(closure, join, left)?;
        if join.left == step.from {
            return Ok(line);
        }
        let from = self.copy(closure, step.from)?;
        let to = self.copy(closure, step.to)?;
        let claim = self.equation(from, to)?;
        self.say(claim, Reason::Sym(line))
    }

    /// The line that says that the terms of a join are equal.
    #[cycle(explaining)]
    fn joined(&mut self, closure: &Closure, join: Join, left: u32) -> Result<u64, Stop> {
        let m = self.copy(closure, join.left)?;
        let n = self.copy(closure, join.right)?;
        let claim = self.equation(m, n)?;
        if let Some(line) = self.line_of(claim) {
            return Ok(line);
        }
        if left == 0 {
            return Err(Stop::TooLong);
        }
        self.explain(closure, join, claim, left - 1)
    }

    /// The line with this claim, that the terms of a join are equal.
    #[cycle(explaining)]
    fn explain(
        &mut self,
        closure: &Closure,
        join: Join,
        claim: TermId,
        left: u32,
    ) -> Result<u64, Stop> {
        match join.why {
            Why::Stated(t) => self.known(closure, t, left),
            Why::Truth => self.say(claim, Reason::Bool),
            Why::Known => {
                let first = self.known(closure, join.left, left)?;
                let m = self.copy(closure, join.left)?;
                let second = self.truth(m, claim)?;
                self.say(claim, Reason::Mp(first, second))
            }
            Why::Denied(t) => {
                let first = self.known(closure, t, left)?;
                let denial = self.copy(closure, t)?;
                let second = self.truth(denial, claim)?;
                self.say(claim, Reason::Mp(first, second))
            }
            Why::Congruent => {
                let lines = self.arguments(closure, join.left, join.right, left)?;
                self.say(claim, Reason::Cong(lines))
            }
            Why::Inside(there) => {
                let line = self.equal(closure, there.left, there.right, left)?;
                self.inside(closure, there, line)
            }
            Why::Apart(there) => {
                let line = self.equal(closure, there.left, there.right, left)?;
                self.apart(closure, claim, there, line)
            }
        }
    }

    /// The lines that say that the arguments of two terms are equal, one by one.
    #[cycle(explaining)]
    fn arguments(
        &mut self,
        closure: &Closure,
        a: TermId,
        b: TermId,
        left: u32,
    ) -> Result<Vec<u64>, Stop> {
        let mut lines = Vec::new(self.alloc);
        for k in 0..closure.terms().arguments(a).len() {
            let (Some(m), Some(n)) = (
                closure.terms().argument(a, k),
                closure.terms().argument(b, k),
            ) else {
                return Err(Stop::TooLong);
            };
            let line = self.equal(closure, m, n, left)?;
            lines.push(line)?;
        }
        Ok(lines)
    }

    /// The equations of the arguments of two terms from a place on, joined to the right: the first one alone, and all, the
    /// last ones first.
    fn conjunctions(
        &mut self,
        closure: &Closure,
        f: TermId,
        g: TermId,
    ) -> Result<Vec<(TermId, TermId)>, Stop> {
        let mut parts = Vec::new(self.alloc);
        let mut behind = None;
        for k in (0..closure.terms().arguments(f).len()).rev() {
            let (Some(m), Some(n)) = (
                closure.terms().argument(f, k),
                closure.terms().argument(g, k),
            ) else {
                return Err(Stop::TooLong);
            };
            let first = self.copy(closure, m)?;
            let second = self.copy(closure, n)?;
            let one = self.equation(first, second)?;
            let all = match behind {
                None => one,
                Some(rest) => self.made(Head::And, &[one, rest])?,
            };
            parts.push((one, all))?;
            behind = Some(all);
        }
        Ok(parts)
    }

    /// The line that says that arguments of two calls are equal, where a line says that the calls are, of a function that is
    /// `[data]`.
    fn inside(&mut self, closure: &Closure, there: Arguments, line: u64) -> Result<u64, Stop> {
        let mut parts = self.conjunctions(closure, there.left, there.right)?;
        let Some((mut one, mut all)) = parts.pop() else {
            return Err(Stop::TooLong);
        };
        let first = self.copy(closure, there.left)?;
        let second = self.copy(closure, there.right)?;
        let calls = self.equation(first, second)?;
        let lemma = self.equation(calls, all)?;
        let by_data = self.say(lemma, Reason::Data)?;
        let mut at = self.say(all, Reason::Mp(line, by_data))?;
        for _ in 0..there.place {
            let Some((next, rest)) = parts.pop() else {
                return Err(Stop::TooLong);
            };
            at = self.say(rest, Reason::Right(at))?;
            one = next;
            all = rest;
        }
        if one == all {
            return Ok(at);
        }
        self.say(one, Reason::Left(at))
    }

    /// The line that says that a term is defined, which is a cell that is known to be.
    fn defined(&mut self, closure: &Closure, t: TermId) -> Result<u64, Stop> {
        match closure.cell_of(t) {
            Some(k) => self.cell(closure, k),
            None => Err(Stop::TooLong),
        }
    }

    /// The line with this claim, that indices of two cells are equal, where a line says that the cells are, of an array whose values
    /// are taken to differ.
    fn apart(
        &mut self,
        closure: &Closure,
        claim: TermId,
        there: Arguments,
        line: u64,
    ) -> Result<u64, Stop> {
        let first = self.defined(closure, there.left)?;
        let second = self.defined(closure, there.right)?;
        let number = (there.place as u64).saturating_add(1);
        self.say(claim, Reason::Distinct(line, first, second, number))
    }

    /// The line that says that a term of the closure is true.
    pub(crate) fn holds(&mut self, closure: &Closure, t: TermId) -> Result<u64, Stop> {
        self.known(closure, t, MOST_DEEP)
    }

    /// The line that says that two terms of the closure are equal.
    pub(crate) fn are_equal(
        &mut self,
        closure: &Closure,
        a: TermId,
        b: TermId,
    ) -> Result<u64, Stop> {
        self.equal(closure, a, b, MOST_DEEP)
    }

    /// The line that says `false`, where the closure is contradictory.
    pub(crate) fn never(&mut self, closure: &Closure) -> Result<u64, Stop> {
        let second = self.are_equal(closure, closure.yes(), closure.no())?;
        let yes = self.made(Head::Yes, &[])?;
        let first = self.say(yes, Reason::Bool)?;
        let no = self.made(Head::No, &[])?;
        self.say(no, Reason::Mp(first, second))
    }

    /// What a line says.
    pub(crate) fn claim(&self, line: u64) -> Option<Claim> {
        if line == 0 {
            return None;
        }
        match self.lines.get(line as usize - 1) {
            Some(there) => Some(there.claim),
            None => None,
        }
    }
}
