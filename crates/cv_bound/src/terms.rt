ghost use Rattle.std.specs.Prelude.{◌≡◌, ◌+◌, ◌<◌, ◌≤◌, ◌++◌, ◌∷◌, [], position, flat_map, IfOk, OnOk, Some, None, vec_len, vec_capacity, length};
ghost use Rattle.cv_bound.specs.Sums as sums;
ghost use Rattle.cv_bound.specs.Sums.{AllFit, counted, merged, same_factors, with_term, with_terms};
ghost use Rattle.cv_bound.specs.Places.{is_like, terms_grown};

use crate::cost::{Collision, Cost};
use cv_syntax::NameId;
use std::alloc::{AllocError, Global};

/// Which experiments with a context its advantage tells apart.
#[derive(Clone, Copy, Debug, PartialEq, Eq)]
pub enum Experiment {
    /// That a correspondence is broken.
    Events,
    /// The guess where a secret's value is shown.
    Real,
    /// The guess where a random value is shown in its place.
    Random,
}

/// A term of a sum.
#[derive(Drop)]
pub enum Term {
    Collision(Collision),
    /// The advantage of the context of a step against an equivalence.
    Advantage {
        step: u32,
        equiv: NameId,
        experiment: Experiment,
    },
}

impl Term {
    /// An equal term.
    pub(crate) fn copy(&self, alloc: Global) -> Result<Term, AllocError>
        ensures { IfOk result (λ copy. copy ≡ self.now) }
    {
        match self {
            Term::Collision(c) => Ok(Term::Collision(c.copy(alloc)?)),
            Term::Advantage {
                step,
                equiv,
                experiment,
            } => Ok(Term::Advantage {
                step: *step,
                equiv: *equiv,
                experiment: *experiment,
            }),
        }
    }
}

/// Whether the factors are the same, in the same order.
#[tactic(auto, using(crate::proofs::Merging::same_laws))]
fn are_same(left: &[(NameId, u8)], right: &[(NameId, u8)]) -> bool
    ensures { result ≡ same_factors left.now right.now }
{
    if left.len() != right.len() {
        return false;
    }
    'factors: for k in 0..left.len() {
        let (x, m) = left[k];
        let (y, n) = right[k];
        if x.0 != y.0 || m != n {
            return false;
        }
    }
    true
}

/// Whether two collisions differ at most in their coefficient.
fn are_alike(left: &Collision, right: &Collision) -> bool
    ensures { result ≡ sums.are_alike left.now right.now }
{
    left.over.0 == right.over.0
        && left.half == right.half
        && are_same(left.factors.as_slice(), right.factors.as_slice())
}

/// Whether a term is a collision that is like another one.
fn is_like(term: &Term, c: &Collision) -> bool
    ensures { result ≡ is_like c.now term.now }
{
    match term {
        Term::Collision(d) => are_alike(d, c),
        Term::Advantage { .. } => false,
    }
}

/// The place of the first term that is like a collision.
fn place_of(terms: &[Term], c: &Collision) -> Option<usize>
    ensures { result ≡ position (is_like c.now) terms.now }
{
    terms.iter().position(|term| is_like(term, c))
}

/// Adds to the coefficient of a collision.
fn grow(terms: &mut Vec<Term>, k: usize, times: u64)
    requires place { k < vec_len terms.old }
    requires fits { AllFit (terms_grown terms.old.items k times) }
    ensures items { terms.new.items ≡ terms_grown terms.old.items k times }
    ensures len { vec_len terms.new ≡ vec_len terms.old }
    ensures capacity { vec_capacity terms.new ≡ vec_capacity terms.old }
{
    let term = &mut terms[k];
    if let Term::Collision(c) = term {
        c.times += times;
    }
}

/// Merges a collision into the first term that is like it, or puts it at the end.
fn merge(terms: &mut Vec<Term>, c: Collision)
    requires room { vec_len terms.old < vec_capacity terms.old }
    requires fits { AllFit (merged terms.old.items c) }
    ensures items { terms.new.items ≡ merged terms.old.items c }
    ensures len { vec_len terms.new ≤ vec_len terms.old + 1 }
    ensures capacity { vec_capacity terms.old ≤ vec_capacity terms.new }
{
    match place_of(terms, &c) {
        Some(k) => grow(terms, k, c.times),
        None => {
            let _ = terms.push(Term::Collision(c));
        }
    }
}

/// Adds a term.
fn put(terms: &mut Vec<Term>, term: Term)
    requires room { vec_len terms.old < vec_capacity terms.old }
    requires fits { AllFit (with_term terms.old.items term) }
    ensures items { terms.new.items ≡ with_term terms.old.items term }
    ensures len { vec_len terms.new ≤ vec_len terms.old + 1 }
    ensures capacity { vec_capacity terms.old ≤ vec_capacity terms.new }
{
    match term {
        Term::Collision(c) => merge(terms, c),
        Term::Advantage { .. } => {
            let _ = terms.push(term);
        }
    }
}

/// Adds terms in order, for which there is room.
pub(crate) fn put_all(terms: &mut Vec<Term>, more: Vec<Term>)
    requires room { vec_len terms.old + vec_len more ≤ vec_capacity terms.old }
    requires fits { AllFit (with_terms terms.old.items more.items) }
    ensures { terms.new.items ≡ with_terms terms.old.items more.items }
{
    let mut left = more;
    left.reverse();
    'left: while let Some(term) = left.pop() {
        put(terms, term);
    }
}

/// Equal terms.
pub(crate) fn copies(alloc: Global, terms: &[Term]) -> Result<Vec<Term>, AllocError>
    ensures { IfOk result (λ copy. copy.items ≡ terms.now) }
{
    let mut copy = Vec::new(alloc);
    'terms: for k in 0..terms.len() {
        copy.push(terms[k].copy(alloc)?)?;
    }
    Ok(copy)
}

/// The terms of collisions, each twice for secrecy.
fn collision_terms(
    alloc: Global,
    collisions: &[Collision],
    secrecy: bool,
) -> Result<Vec<Term>, AllocError>
    ensures { IfOk result (λ terms. terms.items ≡ flat_map (counted secrecy) collisions.now) }
{
    let mut terms = Vec::new(alloc);
    'collisions: for k in 0..collisions.len() {
        terms.push(Term::Collision(collisions[k].copy(alloc)?))?;
        if secrecy {
            terms.push(Term::Collision(collisions[k].copy(alloc)?))?;
        }
    }
    Ok(terms)
}

/// The terms of a cost.
pub(crate) fn terms_of(alloc: Global, cost: &Cost, secrecy: bool) -> Result<Vec<Term>, AllocError>
    ensures { IfOk result (λ terms. terms.items ≡ sums.terms_of cost.now secrecy) }
{
    match cost {
        Cost::Zero => Ok(Vec::new(alloc)),
        Cost::Collisions(list) => collision_terms(alloc, list.as_slice(), secrecy),
        Cost::Advantage { step, equiv } => advantage_terms(alloc, *step, *equiv, secrecy),
    }
}

/// The terms of an advantage: one, or two for secrecy.
fn advantage_terms(
    alloc: Global,
    step: u32,
    equiv: NameId,
    secrecy: bool,
) -> Result<Vec<Term>, AllocError>
    ensures { IfOk result (λ terms. terms.items
        ≡ sums.terms_of (Cost.Advantage step equiv) secrecy) }
{
    let in_experiment = |experiment| Term::Advantage {
        step,
        equiv,
        experiment,
    };
    let mut terms = Vec::new(alloc);
    if !secrecy {
        terms.push(in_experiment(Experiment::Events))?;
        return Ok(terms);
    }
    terms.push(in_experiment(Experiment::Real))?;
    terms.push(in_experiment(Experiment::Random))?;
    Ok(terms)
}
