// The equations that a file declares, and their instances among the terms of a closure.
use crate::closure::{Closure, Source, Tried};
use crate::terms::{TermId, Terms};
use cv_syntax_trees::Head;
use std::alloc::{AllocError, Global};
use std::collections::HashSet;

/// How many instances of an equation a closure takes at most.
const MOST_INSTANCES: u32 = 500;

/// How many terms are compared with the patterns of an equation at most, in one round.
const MOST_TRIES: u32 = 100_000;

/// An equation that is declared, by its number from 1: its variables, and its term over the table of patterns.
#[derive(Drop)]
pub struct Equation {
    pub number: u32,
    pub variables: Vec<u32>,
    pub term: TermId,
}

/// What a file declares: equations, the functions that are `[data]`, and the types that are `[large]`.
#[derive(Drop)]
pub struct Theory {
    pub patterns: Terms,
    pub equations: Vec<Equation>,
    pub data: HashSet<u32>,
    pub large: HashSet<u32>,
}

/// The pattern of an equation, with what its variables stand for so far, in the order in which that was found, and how many
/// terms may still be compared.
#[derive(Drop)]
struct Matching {
    found: Vec<Option<TermId>>,
    trail: Vec<usize>,
    left: u32,
}

/// The place of a variable among those of an equation, where the pattern is one.
fn slot_of(patterns: &Terms, variables: &[u32], p: TermId) -> Option<usize> {
    let Some(Head::Leaf(x)) = patterns.head(p) else {
        return None;
    };
    for (k, variable) in variables.iter().enumerate() {
        if *variable == x {
            return Some(k);
        }
    }
    None
}

impl Matching {
    /// Nothing is found yet, for so many variables. So many terms may be compared.
    fn new(alloc: Global, count: usize, left: u32) -> Result<Matching, AllocError> {
        let mut found = Vec::new(alloc);
        found.resize(count, None)?;
        Ok(Matching {
            found,
            trail: Vec::new(alloc),
            left,
        })
    }

    /// Notes what a variable stands for.
    fn bind(&mut self, slot: usize, t: TermId) -> Result<(), AllocError> {
        self.trail.push(slot)?;
        if let Some(found) = self.found.get_mut(slot) {
            *found = Some(t);
        }
        Ok(())
    }

    /// Takes back what was found since then.
    fn undo(&mut self, mark: usize) {
        for _ in 0..self.trail.len() {
            if self.trail.len() <= mark {
                return;
            }
            let Some(slot) = self.trail.pop() else {
                return;
            };
            if let Some(found) = self.found.get_mut(slot) {
                *found = None;
            }
        }
    }

    /// What all variables stand for, where each stands for something.
    fn all(&self, alloc: Global) -> Result<Option<Vec<TermId>>, AllocError> {
        let mut all = Vec::new(alloc);
        for found in &self.found {
            let Some(t) = *found else {
                return Ok(None);
            };
            all.push(t)?;
        }
        Ok(Some(all))
    }

    /// Counts a comparison, where one is left.
    fn try_one(&mut self) -> bool {
        if self.left == 0 {
            return false;
        }
        self.left -= 1;
        true
    }
}

impl Closure {
    /// Whether a variable stands for a term, or may.
    fn stands_for(
        &self,
        slot: usize,
        t: TermId,
        matching: &mut Matching,
    ) -> Result<bool, AllocError> {
        match matching.found.get(slot).copied().unwrap_or(None) {
            Some(there) => Ok(self.are_equal(there, t)),
            None => {
                matching.bind(slot, t)?;
                Ok(true)
            }
        }
    }

    /// Whether a term has the head of a pattern, and as many arguments.
    fn has_head_of(&self, patterns: &Terms, p: TermId, t: TermId) -> bool {
        let (Some(wanted), Some(there)) = (patterns.head(p), self.terms.head(t)) else {
            return false;
        };
        wanted.code() == there.code()
            && patterns.arguments(p).len() == self.terms.arguments(t).len()
    }

    /// Whether a member of a term's class is an instance of a pattern. The first one that is one counts.
    #[cycle(matching)]
    fn matches(
        &self,
        patterns: &Terms,
        variables: &[u32],
        p: TermId,
        t: TermId,
        matching: &mut Matching,
    ) -> Result<bool, AllocError> {
        if let Some(slot) = slot_of(patterns, variables, p) {
            return self.stands_for(slot, t, matching);
        }
        let mut at = t;
        for _ in 0..self.classes.count(t) {
            if !matching.try_one() {
                return Ok(false);
            }
            if self.matches_itself(patterns, variables, p, at, matching)? {
                return Ok(true);
            }
            at = self.classes.next(at);
        }
        Ok(false)
    }

    /// Whether a term itself is an instance of a pattern that is no variable, by members of its arguments' classes.
    #[cycle(matching)]
    fn matches_itself(
        &self,
        patterns: &Terms,
        variables: &[u32],
        p: TermId,
        t: TermId,
        matching: &mut Matching,
    ) -> Result<bool, AllocError> {
        if !self.has_head_of(patterns, p, t) {
            return Ok(false);
        }
        let mark = matching.trail.len();
        for k in 0..patterns.arguments(p).len() {
            let (Some(q), Some(m)) = (patterns.argument(p, k), self.terms.argument(t, k)) else {
                return Ok(false);
            };
            if q.0 >= p.0 || !self.matches(patterns, variables, q, m, matching)? {
                matching.undo(mark);
                return Ok(false);
            }
        }
        Ok(true)
    }

    /// The instance of a pattern, by what its variables stand for. There is none where the closure is full.
    fn instance(
        &mut self,
        patterns: &Terms,
        variables: &[u32],
        p: TermId,
        found: &[TermId],
    ) -> Result<Option<TermId>, AllocError> {
        if let Some(slot) = slot_of(patterns, variables, p) {
            return Ok(found.get(slot).copied());
        }
        let Some(head) = patterns.head(p) else {
            return Ok(None);
        };
        let mut arguments = Vec::new(self.alloc);
        for k in 0..patterns.arguments(p).len() {
            let Some(q) = patterns.argument(p, k) else {
                return Ok(None);
            };
            if q.0 >= p.0 {
                return Ok(None);
            }
            let Some(t) = self.instance(patterns, variables, q, found)? else {
                return Ok(None);
            };
            arguments.push(t)?;
        }
        self.term(head, &arguments)
    }

    /// Takes the instance that was found as known, and tells whether it is new.
    fn take_instance(
        &mut self,
        patterns: &Terms,
        equation: &Equation,
        matching: &Matching,
    ) -> Result<bool, AllocError> {
        let Some(found) = matching.all(self.alloc)? else {
            return Ok(false);
        };
        let Some(t) = self.instance(patterns, &equation.variables, equation.term, &found)? else {
            return Ok(false);
        };
        if self.source(t).is_some() {
            return Ok(false);
        }
        let instance = self.add_instance(found)?;
        let number = equation.number;
        self.assume(t, Source::Equation { number, instance })?;
        Ok(true)
    }

    /// Takes the instance of an equation by which a term is one of a pattern, and besides a member of its class one of another
    /// pattern, where one is given. Tells whether that is new.
    fn try_term(
        &mut self,
        patterns: &Terms,
        equation: &Equation,
        pattern: TermId,
        other: Option<TermId>,
        t: TermId,
        matching: &mut Matching,
    ) -> Result<bool, AllocError> {
        let variables = equation.variables.as_slice();
        matching.undo(0);
        if !matching.try_one() {
            return Ok(false);
        }
        if !self.matches_itself(patterns, variables, pattern, t, matching)? {
            return Ok(false);
        }
        if let Some(second) = other {
            if !self.matches(patterns, variables, second, t, matching)? {
                return Ok(false);
            }
        }
        self.take_instance(patterns, equation, matching)
    }

    /// Takes the instances of an equation among terms by a pattern, and where it is given by another one of an equal term.
    fn try_terms(
        &mut self,
        patterns: &Terms,
        equation: &Equation,
        pattern: TermId,
        other: Option<TermId>,
        terms: &[TermId],
        matching: &mut Matching,
    ) -> Result<(), AllocError> {
        let mut taken = 0;
        for t in terms {
            if taken >= MOST_INSTANCES {
                return Ok(());
            }
            if self.try_term(patterns, equation, pattern, other, *t, matching)? {
                taken += 1;
                self.settle()?;
            }
        }
        Ok(())
    }

    /// Takes the instances of an equation by a pattern, and where it is given by another one of an equal term.
    fn try_pattern(
        &mut self,
        patterns: &Terms,
        equation: &Equation,
        pattern: TermId,
        other: Option<TermId>,
        from: u32,
    ) -> Result<(), AllocError> {
        let Some(head) = patterns.head(pattern) else {
            return Ok(());
        };
        let most = self.effort().min(MOST_TRIES);
        if most == 0 {
            return Ok(());
        }
        let terms = self.terms_of(head, from)?;
        let mut matching = Matching::new(self.alloc, equation.variables.len(), most)?;
        self.try_terms(patterns, equation, pattern, other, &terms, &mut matching)?;
        let spent = most.saturating_sub(matching.left);
        let _may_go_on = self.spend((spent as usize).saturating_add(1));
        Ok(())
    }

    /// Takes the instances of an equation of two terms by its left side, and where that is an equation itself, by its sides.
    fn try_left_side(
        &mut self,
        patterns: &Terms,
        equation: &Equation,
        left: TermId,
        from: u32,
    ) -> Result<(), AllocError> {
        if slot_of(patterns, &equation.variables, left).is_some() {
            return Ok(());
        }
        self.try_pattern(patterns, equation, left, None, from)?;
        let (Some(Head::Eq), Some(m), Some(n)) = (
            patterns.head(left),
            patterns.argument(left, 0),
            patterns.argument(left, 1),
        ) else {
            return Ok(());
        };
        if slot_of(patterns, &equation.variables, m).is_some()
            || slot_of(patterns, &equation.variables, n).is_some()
        {
            return Ok(());
        }
        self.try_pattern(patterns, equation, m, Some(n), from)
    }

    /// Takes the instances of an equation by terms with a number from this one on.
    fn try_equation(
        &mut self,
        patterns: &Terms,
        equation: &Equation,
        from: u32,
    ) -> Result<(), AllocError> {
        let term = equation.term;
        let Some(first) = patterns.argument(term, 0) else {
            return Ok(());
        };
        match patterns.head(term) {
            Some(Head::Eq) => self.try_left_side(patterns, equation, first, from),
            Some(Head::Not) => {
                self.try_pattern(patterns, equation, term, None, from)?;
                self.try_left_side(patterns, equation, first, from)
            }
            _ => self.try_pattern(patterns, equation, term, None, from),
        }
    }

    /// From which term on equations are to be tried: where nothing was joined since they were, by the terms that came since.
    fn untried(&self) -> u32 {
        if self.tried.joins == self.classes.joined() {
            self.tried.terms
        } else {
            0
        }
    }

    /// Takes the instances of all equations that weren't tried.
    pub(crate) fn try_equations(&mut self, theory: &Theory) -> Result<(), AllocError> {
        let from = self.untried();
        self.tried = Tried {
            terms: self.terms.len(),
            joins: self.classes.joined(),
        };
        for equation in &theory.equations {
            self.try_equation(&theory.patterns, equation, from)?;
        }
        self.settle()
    }
}
