// What follows by equations of truth values, by functions that are `[data]`, and by arrays whose values are taken to differ.
use crate::classes::{Arguments, Why};
use crate::closure::{Closure, Source};
use crate::terms::TermId;
use cv_syntax_trees::Head;
use std::alloc::AllocError;
use std::collections::HashSet;

impl Closure {
    /// Makes a term of truth values, and joins it with what it is by an equation of truth values.
    fn join_truth(
        &mut self,
        head: Head,
        arguments: &[TermId],
        value: TermId,
    ) -> Result<(), AllocError> {
        match self.term(head, arguments)? {
            Some(t) => self.equate(t, value, Why::Truth),
            None => Ok(()),
        }
    }

    /// What follows of an equation.
    fn open_equation(&mut self, t: TermId, m: TermId, n: TermId) -> Result<(), AllocError> {
        let (yes, is_true) = (self.yes, self.is_true(t));
        if self.are_equal(m, n) && !is_true {
            self.join_truth(Head::Eq, &[m, m], yes)?;
        }
        if self.is_true(n) && !self.are_equal(t, m) {
            self.join_truth(Head::Eq, &[m, yes], m)?;
        }
        match self.terms.find(Head::Eq, &[n, m]) {
            Some(turned) => self.equate(t, turned, Why::Truth),
            None => Ok(()),
        }
    }

    /// What follows of a conjunction.
    fn open_conjunction(&mut self, t: TermId, m: TermId, n: TermId) -> Result<(), AllocError> {
        let (yes, no) = (self.yes, self.no);
        if self.is_true(n) && !self.are_equal(t, m) {
            self.join_truth(Head::And, &[m, yes], m)?;
        }
        if self.is_true(m) && !self.are_equal(t, n) {
            self.join_truth(Head::And, &[yes, n], n)?;
        }
        if self.is_false(n) && !self.is_false(t) {
            self.join_truth(Head::And, &[m, no], no)?;
        }
        if self.is_false(m) && !self.is_false(t) {
            self.join_truth(Head::And, &[no, n], no)?;
        }
        Ok(())
    }

    /// What follows of a disjunction.
    fn open_disjunction(&mut self, t: TermId, m: TermId, n: TermId) -> Result<(), AllocError> {
        let (yes, no) = (self.yes, self.no);
        if self.is_true(n) && !self.is_true(t) {
            self.join_truth(Head::Or, &[m, yes], yes)?;
        }
        if self.is_true(m) && !self.is_true(t) {
            self.join_truth(Head::Or, &[yes, n], yes)?;
        }
        if self.is_false(n) && !self.are_equal(t, m) {
            self.join_truth(Head::Or, &[m, no], m)?;
        }
        if self.is_false(m) && !self.are_equal(t, n) {
            self.join_truth(Head::Or, &[no, n], n)?;
        }
        Ok(())
    }

    /// What follows of a negation.
    fn open_negation(&mut self, t: TermId, m: TermId) -> Result<(), AllocError> {
        let (yes, no) = (self.yes, self.no);
        if self.is_true(m) && !self.is_false(t) {
            self.join_truth(Head::Not, &[yes], no)?;
        }
        if self.is_false(m) && !self.is_true(t) {
            self.join_truth(Head::Not, &[no], yes)?;
        }
        if self.is_false(t) && !self.is_true(m) {
            self.join_truth(Head::Not, &[no], yes)?;
            self.join_truth(Head::Not, &[t], m)?;
        }
        Ok(())
    }

    /// What follows of a term by its head, where it is one of truth values.
    fn open_term(&mut self, t: TermId) -> Result<(), AllocError> {
        let (Some(head), Some(first)) = (self.terms.head(t), self.terms.argument(t, 0)) else {
            return Ok(());
        };
        if let Head::Not = head {
            return self.open_negation(t, first);
        }
        let Some(second) = self.terms.argument(t, 1) else {
            return Ok(());
        };
        match head {
            Head::Eq => self.open_equation(t, first, second),
            Head::And => self.open_conjunction(t, first, second),
            Head::Or => self.open_disjunction(t, first, second),
            _ => Ok(()),
        }
    }

    /// Whether a term is of truth values by its head.
    fn is_of_truths(&self, t: TermId) -> bool {
        match self.terms.head(t) {
            Some(Head::Eq | Head::And | Head::Or | Head::Not) => true,
            _ => false,
        }
    }

    /// Whether a term is an equation of two terms that are known to be equal.
    pub fn is_reflexive(&self, t: TermId) -> bool {
        match (
            self.terms.head(t),
            self.terms.argument(t, 0),
            self.terms.argument(t, 1),
        ) {
            (Some(Head::Eq), Some(m), Some(n)) => self.are_equal(m, n),
            _ => false,
        }
    }

    /// What follows of a term by equations of truth values.
    pub(crate) fn open_truth(&mut self, t: TermId) -> Result<(), AllocError> {
        if !self.is_of_truths(t) {
            return Ok(());
        }
        if self.is_true(t) && !self.is_reflexive(t) {
            self.assume(t, Source::Equal)?;
        }
        self.open_term(t)
    }

    /// Whether a term is a call of a function that is `[data]`, or a cell that is defined of an array whose values are taken to differ:
    /// equal ones have equal arguments.
    fn is_one_to_one(&self, data: &HashSet<u32>, t: TermId) -> bool {
        match self.terms.head(t) {
            Some(Head::Apply(function)) => data.contains(&function),
            Some(Head::Read(array)) => self.is_told_apart(array) && self.cell_of(t).is_some(),
            _ => false,
        }
    }

    /// Whether two terms are calls of one function, or one is a cell of an array and the other a cell of it that is defined.
    fn is_alike(&self, t: TermId, other: TermId) -> bool {
        match (self.terms.head(t), self.terms.head(other)) {
            (Some(Head::Apply(f)), Some(Head::Apply(g))) => f == g,
            (Some(Head::Read(x)), Some(Head::Read(y))) => x == y && self.cell_of(other).is_some(),
            _ => false,
        }
    }

    /// The next member of a term's class that is alike.
    fn next_alike(&self, t: TermId) -> Option<TermId> {
        let mut at = self.classes.next(t);
        for _ in 0..self.classes.count(t) {
            if at == t {
                return None;
            }
            if self.is_alike(t, at) {
                return Some(at);
            }
            at = self.classes.next(at);
        }
        None
    }

    /// Why arguments of two equal terms are equal: of cells of an array, or of calls.
    fn why_inside(&self, arguments: Arguments) -> Why {
        match self.terms.head(arguments.left) {
            Some(Head::Read(_)) => Why::Apart(arguments),
            _ => Why::Inside(arguments),
        }
    }

    /// Joins the arguments of two terms that are equal, of a function that is `[data]` or of an array whose values are taken to differ.
    fn join_arguments(&mut self, left: TermId, right: TermId) -> Result<(), AllocError> {
        for place in 0..self.terms.arguments(left).len() {
            let (Some(m), Some(n)) = (
                self.terms.argument(left, place),
                self.terms.argument(right, place),
            ) else {
                return Ok(());
            };
            let why = self.why_inside(Arguments { left, right, place });
            self.equate(m, n, why)?;
        }
        Ok(())
    }

    /// What follows of a term, where it is a call of a function that is `[data]`, or a cell that is defined of an array whose values
    /// are taken to differ: its arguments are those of an equal one.
    pub(crate) fn open_arguments(
        &mut self,
        data: &HashSet<u32>,
        t: TermId,
    ) -> Result<(), AllocError> {
        let count = self.classes.count(t) as usize;
        if !self.is_one_to_one(data, t) || !self.spend(count) {
            return Ok(());
        }
        match self.next_alike(t) {
            Some(other) => self.join_arguments(t, other),
            None => Ok(()),
        }
    }
}
