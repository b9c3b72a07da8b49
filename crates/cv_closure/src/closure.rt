ghost use Rattle.std.specs.Prelude.{◌≡◌};

use crate::agenda::Agenda;
use crate::classes::{Classes, Join, Why};
use crate::terms::{TermId, Terms};
use crate::uses::Links;
use cv_syntax_trees::Head;
use std::alloc::{AllocError, Global};
use std::collections::HashSet;

/// How a line is right that says that a term is true.
#[derive(Clone, Copy)]
pub enum Source {
    /// It is the fact of this number at the place.
    Fact(u32),
    /// It is the fact of this number at the place of the second copy.
    OtherFact(u32),
    /// It is the equation of this number that is given for two copies.
    Same(u32),
    /// It is the fact of this number at the only site of a cell, the cell by its number from 0.
    Site { cell: usize, fact: u32 },
    /// It is the equation of this number, with the terms of an instance for its variables.
    Equation { number: u32, instance: usize },
    /// It is the left side of a conjunction that is true.
    Left(TermId),
    /// It is the right side of a conjunction that is true.
    Right(TermId),
    /// It is `true`.
    Yes,
    /// It is equal to `true`.
    Equal,
}

/// Where a cell is directly defined, and a fact stands.
#[derive(Clone, Copy)]
pub enum Standing {
    /// At the place.
    Here,
    /// At the place of the second copy.
    There,
    /// At the only site of another cell, which stands before it, by its number from 0.
    Behind(usize),
}

/// A cell that is defined.
#[derive(Clone, Copy)]
pub struct Cell {
    pub term: TermId,
    pub standing: Standing,
}

/// How many terms a closure has at most.
pub const MOST_TERMS: u32 = 4_000;

/// How many joins are made at most before a closure is left as it is.
const MOST_TURNS: u32 = 1_000_000;

/// How many buckets there are for terms by their heads alone.
const HEADS: usize = 512;

/// How many buckets there are for terms by their heads and the classes of their arguments.
const BUCKETS: usize = 4096;

/// Terms in classes of equal ones, closed under congruence, with what is known to be true, and the arrays whose values are taken to
/// differ. Each join keeps why. What is done for it is counted, and it grows no more once it was given so much effort as it may
/// take.
#[derive(Drop)]
pub struct Closure {
    pub(crate) alloc: Global,
    pub(crate) terms: Terms,
    pub(crate) classes: Classes,
    cells: Vec<Cell>,
    places: Vec<usize>,
    distinct: HashSet<u32>,
    instances: Vec<Vec<TermId>>,
    pub(crate) yes: TermId,
    pub(crate) no: TermId,
    known: Vec<Option<Source>>,
    uses: Links,
    signed: Links,
    heads: Links,
    pub(crate) agenda: Agenda,
    waiting: Vec<Join>,
    made: usize,
    pub(crate) tried: Tried,
    effort: u32,
    pub grounds: u32,
    heaviest: u64,
}

/// Up to which term, and after how many joins, the equations were tried.
#[derive(Clone, Copy)]
pub(crate) struct Tried {
    pub(crate) terms: u32,
    pub(crate) joins: usize,
}

/// A bucket for a head.
fn bucket_of(head: Head) -> usize {
    let code = head.code();
    let sum = u64::from(code.tag)
        .wrapping_mul(31)
        .wrapping_add(u64::from(code.a));
    (sum % 512) as usize
}

impl Closure {
    /// The closure of nothing: `true` and `false`, each in its class. It may take so much effort.
    pub fn new(alloc: Global, effort: u32) -> Result<Closure, AllocError> {
        let mut closure = Closure {
            alloc,
            terms: Terms::new(alloc, MOST_TERMS)?,
            classes: Classes::new(alloc),
            cells: Vec::new(alloc),
            places: Vec::new(alloc),
            distinct: HashSet::new(alloc),
            instances: Vec::new(alloc),
            yes: TermId(0),
            no: TermId(1),
            known: Vec::new(alloc),
            uses: Links::new(alloc, MOST_TERMS as usize)?,
            signed: Links::new(alloc, BUCKETS)?,
            heads: Links::new(alloc, HEADS)?,
            agenda: Agenda::new(alloc),
            waiting: Vec::new(alloc),
            made: 0,
            tried: Tried { terms: 0, joins: 0 },
            effort,
            grounds: 0,
            heaviest: 0,
        };
        let _yes = closure.term(Head::Yes, &[])?;
        let _no = closure.term(Head::No, &[])?;
        closure.classes.favour(TermId(0));
        closure.classes.favour(TermId(1));
        closure.assume(TermId(0), Source::Yes)?;
        Ok(closure)
    }

    /// The terms.
    pub fn terms(&self) -> &Terms {
        &self.terms
    }

    /// The classes of the terms.
    pub fn classes(&self) -> &Classes {
        &self.classes
    }

    /// The term `true`.
    pub fn yes(&self) -> TermId {
        self.yes
    }

    /// The term `false`.
    pub fn no(&self) -> TermId {
        self.no
    }

    /// What an instance of an equation has for the variables.
    pub fn instance_at(&self, k: usize) -> Option<&[TermId]> {
        match self.instances.get(k) {
            Some(terms) => Some(terms.as_slice()),
            None => None,
        }
    }

    /// Whether two terms are known to be equal.
    pub fn are_equal(&self, a: TermId, b: TermId) -> bool {
        self.classes.are_joined(a, b)
    }

    /// Whether a term is known to be true.
    pub fn is_true(&self, t: TermId) -> bool {
        self.classes.are_joined(t, self.yes)
    }

    /// Whether a term is known to be false.
    pub fn is_false(&self, t: TermId) -> bool {
        self.classes.are_joined(t, self.no)
    }

    /// Whether what is known contradicts itself.
    pub fn is_contradictory(&self) -> bool {
        self.classes.are_joined(self.yes, self.no)
    }

    /// How a term is known to be true, by itself.
    pub fn source(&self, t: TermId) -> Option<Source> {
        self.known.get(t.0 as usize).copied().unwrap_or(None)
    }

    /// How many terms and joins there are: it grows with each of them.
    pub(crate) fn progress(&self) -> usize {
        self.classes
            .joined()
            .saturating_add(self.terms.len() as usize)
    }

    /// How much effort it may still take.
    pub fn effort(&self) -> u32 {
        self.effort
    }

    /// Counts an effort, and tells whether it may be taken.
    pub fn spend(&mut self, effort: usize) -> bool {
        let effort = u32::try_from(effort).unwrap_or(u32::MAX);
        if self.effort < effort {
            self.effort = 0;
            return false;
        }
        self.effort -= effort;
        true
    }

    /// How many facts were given, their conjuncts counted.
    pub fn grounds(&self) -> u32
        ensures { result ≡ self.now.grounds }
    {
        self.grounds
    }

    /// The weight of the heaviest of the facts, cells and targets that were given.
    pub fn heaviest(&self) -> u64 {
        self.heaviest
    }

    /// Notes the weight of a fact, a cell or a target.
    pub fn weigh(&mut self, t: TermId) {
        self.heaviest = self.heaviest.max(self.terms.weight(t));
    }

    /// The term with this head and these arguments. It joins the class of a term with this head and equal arguments once the
    /// closure is settled. There is none where the closure is full, or may take no more effort.
    pub fn term(&mut self, head: Head, arguments: &[TermId]) -> Result<Option<TermId>, AllocError> {
        if !self.spend(arguments.len().saturating_add(1)) {
            return Ok(None);
        }
        let before = self.terms.len();
        let Some(t) = self.terms.add(head, arguments)? else {
            return Ok(None);
        };
        if self.terms.len() > before {
            self.classes.add()?;
            self.known.push(None)?;
            self.places.push(0)?;
            self.heads.add(bucket_of(head), t)?;
            self.agenda.add(t)?;
            self.note_uses(t, arguments)?;
            self.sign(t)?;
        }
        Ok(Some(t))
    }

    /// Notes a new term at each of its arguments, once.
    fn note_uses(&mut self, t: TermId, arguments: &[TermId]) -> Result<(), AllocError> {
        for argument in arguments {
            self.uses.add_once(argument.0 as usize, t)?;
        }
        Ok(())
    }

    /// The terms with a number from this one on that may have a head, the oldest first.
    pub(crate) fn terms_of(&self, head: Head, from: u32) -> Result<Vec<TermId>, AllocError> {
        let mut newest = Vec::new(self.alloc);
        self.heads.collect(bucket_of(head), &mut newest)?;
        let mut terms = Vec::new(self.alloc);
        for t in newest.iter().rev() {
            if t.0 >= from {
                terms.push(*t)?;
            }
        }
        Ok(terms)
    }

    /// Notes a cell that is defined, and gives its number.
    pub fn add_cell(&mut self, cell: Cell) -> Result<usize, AllocError> {
        self.weigh(cell.term);
        self.cells.push(cell)?;
        let count = self.cells.len();
        if let Some(place) = self.places.get_mut(cell.term.0 as usize) {
            *place = count;
        }
        Ok(count - 1)
    }

    /// The cells that are known to be defined.
    pub fn cells(&self) -> &[Cell] {
        &self.cells
    }

    /// The number of a cell, where it is known to be defined.
    pub fn cell_of(&self, term: TermId) -> Option<usize> {
        match self.places.get(term.0 as usize).copied().unwrap_or(0) {
            0 => None,
            place => Some(place - 1),
        }
    }

    /// Takes the values of an array to differ: where two of its cells are defined and equal, so are their indices.
    pub fn tell_apart(&mut self, array: u32) -> Result<(), AllocError> {
        self.distinct.insert(array)?;
        Ok(())
    }

    /// Whether the values of an array are taken to differ.
    pub fn is_told_apart(&self, array: u32) -> bool {
        self.distinct.contains(&array)
    }

    /// Keeps the terms of an instance, and gives its number.
    pub(crate) fn add_instance(&mut self, terms: Vec<TermId>) -> Result<usize, AllocError> {
        self.instances.push(terms)?;
        Ok(self.instances.len() - 1)
    }

    /// A number that two terms share where they have one head and equal arguments.
    fn signature(&self, t: TermId) -> usize {
        let Some(head) = self.terms.head(t) else {
            return 0;
        };
        let code = head.code();
        let mut sum = u64::from(code.tag)
            .wrapping_mul(0x9E37_79B9)
            .wrapping_add(u64::from(code.a))
            .wrapping_mul(0x85EB_CA6B)
            .wrapping_add(u64::from(code.b));
        for argument in self.terms.arguments(t) {
            sum = sum
                .wrapping_mul(0xC2B2_AE35)
                .wrapping_add(u64::from(self.classes.class(*argument)));
        }
        (sum / 64 % 4096) as usize
    }

    /// Whether two terms have one head and equal arguments.
    fn are_congruent(&self, a: TermId, b: TermId) -> bool {
        let (Some(left), Some(right)) = (self.terms.head(a), self.terms.head(b)) else {
            return false;
        };
        let ms = self.terms.arguments(a);
        let ns = self.terms.arguments(b);
        left.code() == right.code() && ms.len() == ns.len() && self.are_all_equal(ms, ns)
    }

    /// Whether terms are equal, one by one.
    fn are_all_equal(&self, ms: &[TermId], ns: &[TermId]) -> bool {
        for (m, n) in ms.iter().zip(ns) {
            if !self.classes.are_joined(*m, *n) {
                return false;
            }
        }
        true
    }

    /// Another term with the head of this one and equal arguments, which was signed before.
    fn congruent(&self, t: TermId) -> Option<TermId> {
        let mut here = self.signed.first(self.signature(t));
        for _ in 0..self.signed.len() {
            let link = here?;
            if link.item != t && self.are_congruent(t, link.item) {
                return Some(link.item);
            }
            here = self.signed.next(link);
        }
        None
    }

    /// Puts a term where its head and the classes of its arguments say; a term that is there waits to be joined with it.
    fn sign(&mut self, t: TermId) -> Result<(), AllocError> {
        let arity = self.terms.arguments(t).len();
        if !self.spend(arity) {
            return Ok(());
        }
        if let Some(other) = self.congruent(t) {
            return self.equate(t, other, Why::Congruent);
        }
        let bucket = self.signature(t);
        self.signed.add(bucket, t)
    }

    /// Has two terms wait to be joined.
    pub(crate) fn equate(
        &mut self,
        left: TermId,
        right: TermId,
        why: Why,
    ) -> Result<(), AllocError> {
        if self.classes.are_joined(left, right) {
            return Ok(());
        }
        self.waiting.push(Join { left, right, why })?;
        Ok(())
    }

    /// The terms that have one of these as an argument.
    fn users(&self, members: &[TermId]) -> Result<Vec<TermId>, AllocError> {
        let mut users = Vec::new(self.alloc);
        for t in members {
            self.uses.collect(t.0 as usize, &mut users)?;
        }
        Ok(users)
    }

    /// Signs terms anew.
    fn sign_all(&mut self, terms: &[TermId]) -> Result<(), AllocError> {
        for t in terms {
            self.sign(*t)?;
        }
        Ok(())
    }

    /// Joins two terms, and finds what is congruent by that. What stands in the class that counts less, and what is made of it, is
    /// to be looked at again.
    fn merge(&mut self, join: Join) -> Result<(), AllocError> {
        if self.classes.are_joined(join.left, join.right) {
            return Ok(());
        }
        let smaller = self.classes.smaller(join.left, join.right);
        let members = self.classes.members(self.alloc, smaller)?;
        let users = self.users(&members)?;
        if !self.spend(members.len().saturating_add(users.len())) {
            return Ok(());
        }
        self.classes.join(join)?;
        self.agenda.add_all(&members)?;
        self.agenda.add_all(&users)?;
        self.sign_all(&users)
    }

    /// Makes the joins that wait, the oldest first.
    pub fn settle(&mut self) -> Result<(), AllocError> {
        for _ in 0..MOST_TURNS {
            let Some(join) = self.waiting.get(self.made).copied() else {
                self.waiting.clear();
                self.made = 0;
                return Ok(());
            };
            if !self.spend(1) {
                return Ok(());
            }
            self.made = self.made.saturating_add(1);
            self.merge(join)?;
        }
        Ok(())
    }

    /// Takes a fact as known, with its conjuncts.
    pub fn assume_ground(&mut self, t: TermId, source: Source) -> Result<(), AllocError> {
        let before = self.grounds;
        self.weigh(t);
        self.assume(t, source)?;
        self.grounds = self.grounds.max(before.saturating_add(1));
        Ok(())
    }

    /// Takes a term as known, with its conjuncts: the term is true, an equation joins its sides, and what a negation denies is
    /// false.
    pub(crate) fn assume(&mut self, t: TermId, source: Source) -> Result<(), AllocError> {
        let mut open = Vec::new(self.alloc);
        open.push((t, source))?;
        for _ in 0..MOST_TERMS {
            let Some((term, from)) = open.pop() else {
                return Ok(());
            };
            self.know(term, from, &mut open)?;
        }
        Ok(())
    }

    /// Takes one term as known. The sides of a conjunction are left open.
    fn know(
        &mut self,
        t: TermId,
        source: Source,
        open: &mut Vec<(TermId, Source)>,
    ) -> Result<(), AllocError> {
        if self.source(t).is_some() {
            return Ok(());
        }
        if let Some(known) = self.known.get_mut(t.0 as usize) {
            *known = Some(source);
        }
        self.equate(t, self.yes, Why::Known)?;
        let (Some(head), Some(first)) = (self.terms.head(t), self.terms.argument(t, 0)) else {
            return Ok(());
        };
        match head {
            Head::Not => self.equate(first, self.no, Why::Denied(t)),
            Head::And | Head::Eq => match self.terms.argument(t, 1) {
                Some(second) => self.know_sides(t, head, first, second, open),
                None => Ok(()),
            },
            _ => Ok(()),
        }
    }

    /// Joins the sides of an equation that is known, or leaves those of a conjunction open.
    fn know_sides(
        &mut self,
        t: TermId,
        head: Head,
        first: TermId,
        second: TermId,
        open: &mut Vec<(TermId, Source)>,
    ) -> Result<(), AllocError> {
        if let Head::Eq = head {
            return self.equate(first, second, Why::Stated(t));
        }
        self.grounds = self.grounds.saturating_add(1);
        open.push((second, Source::Right(t)))?;
        open.push((first, Source::Left(t)))?;
        Ok(())
    }
}
