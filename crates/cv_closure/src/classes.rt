use crate::terms::TermId;
use std::alloc::{AllocError, Global};

/// Why two terms are equal.
#[derive(Clone, Copy)]
pub enum Why {
    /// This term is true, and it is their equation.
    Stated(TermId),
    /// They have one head, and their arguments are equal.
    Congruent,
    /// The first one is known to be true, and the second is `true`.
    Known,
    /// This term is true, it is the negation of the first one, and the second is `false`.
    Denied(TermId),
    /// Their equation is one of truth values.
    Truth,
    /// They are the arguments of two terms that are equal, with one function that is `[data]`.
    Inside(Arguments),
    /// They are the indices of two cells that are equal and defined, of one array whose values are taken to differ.
    Apart(Arguments),
}

/// The arguments at one place of two terms.
#[derive(Clone, Copy)]
pub struct Arguments {
    pub left: TermId,
    pub right: TermId,
    pub place: usize,
}

/// Two terms that are equal, and why.
#[derive(Clone, Copy)]
pub struct Join {
    pub left: TermId,
    pub right: TermId,
    pub why: Why,
}

/// A term in its class: the class by its number, the next member in a circle, how many there are and how much they count, and the
/// edge of the proof forest to the term that is nearer to the root: that term, counted from 1, or 0, and the join that made the
/// edge.
#[derive(Clone, Copy)]
struct Member {
    class: u32,
    next: u32,
    count: u32,
    rank: u32,
    nearer: u32,
    join: usize,
}

/// How much a term counts that is favoured.
const FAVOURED: u32 = 1_000_000_000;

/// Classes of equal terms, with a forest of the joins that made them.
#[derive(Drop)]
pub struct Classes {
    members: Vec<Member>,
    joins: Vec<Join>,
}

/// A step from a term towards the root of the forest: the next term, and the join by which both are equal.
#[derive(Clone, Copy)]
pub(crate) struct Edge {
    pub(crate) to: TermId,
    pub(crate) join: usize,
}

/// A step between two terms, and the join by which both are equal.
#[derive(Clone, Copy)]
pub struct Step {
    pub from: TermId,
    pub to: TermId,
    pub join: usize,
}

/// Takes the last step off each of two lists, as long as both end with a step from one term.
fn drop_common(xs: &mut Vec<Step>, ys: &mut Vec<Step>) {
    for _ in 0..xs.len() {
        let (Some(x), Some(y)) = (xs.last().copied(), ys.last().copied()) else {
            return;
        };
        if x.from != y.from {
            return;
        }
        let _ = xs.pop();
        let _ = ys.pop();
    }
}

impl Classes {
    /// The steps from a term to the root of its tree.
    fn steps_up(&self, alloc: Global, t: TermId) -> Result<Vec<Step>, AllocError> {
        let mut steps = Vec::new(alloc);
        let mut from = t;
        for _ in 0..self.members.len() {
            let Some(Edge { to, join }) = self.edge(from) else {
                return Ok(steps);
            };
            steps.push(Step { from, to, join })?;
            from = to;
        }
        Ok(steps)
    }

    /// The steps from a term to another one of its class, by the forest.
    pub fn path(&self, alloc: Global, a: TermId, b: TermId) -> Result<Vec<Step>, AllocError> {
        let mut steps = self.steps_up(alloc, a)?;
        let mut others = self.steps_up(alloc, b)?;
        drop_common(&mut steps, &mut others);
        for _ in 0..others.len() {
            let Some(Step { from, to, join }) = others.pop() else {
                return Ok(steps);
            };
            steps.push(Step {
                from: to,
                to: from,
                join,
            })?;
        }
        Ok(steps)
    }

    /// No classes.
    pub fn new(alloc: Global) -> Classes {
        Classes {
            members: Vec::new(alloc),
            joins: Vec::new(alloc),
        }
    }

    /// How many joins made the classes.
    pub fn joined(&self) -> usize {
        self.joins.len()
    }

    /// Adds the next term, alone in its class.
    pub fn add(&mut self) -> Result<(), AllocError> {
        let number = u32::try_from(self.members.len()).unwrap_or(u32::MAX);
        self.members.push(Member {
            class: number,
            next: number,
            count: 1,
            rank: 1,
            nearer: 0,
            join: 0,
        })?;
        Ok(())
    }

    /// The members of a term's class.
    pub(crate) fn members(&self, alloc: Global, t: TermId) -> Result<Vec<TermId>, AllocError> {
        let mut members = Vec::new(alloc);
        let mut at = t;
        for _ in 0..self.count(t) {
            members.push(at)?;
            at = self.next(at);
        }
        Ok(members)
    }

    /// The number of a term's class; the term's own where it has none.
    pub fn class(&self, t: TermId) -> u32 {
        match self.members.get(t.0 as usize) {
            Some(member) => member.class,
            None => t.0,
        }
    }

    /// Whether two terms are equal.
    pub fn are_joined(&self, a: TermId, b: TermId) -> bool {
        self.class(a) == self.class(b)
    }

    /// The next member of a term's class, in a circle.
    pub fn next(&self, t: TermId) -> TermId {
        match self.members.get(t.0 as usize) {
            Some(member) => TermId(member.next),
            None => t,
        }
    }

    /// How many terms a term's class has.
    pub fn count(&self, t: TermId) -> u32 {
        match self.members.get(self.class(t) as usize) {
            Some(member) => member.count,
            None => 1,
        }
    }

    /// How much the members of a term's class count.
    fn rank(&self, t: TermId) -> u32 {
        match self.members.get(self.class(t) as usize) {
            Some(member) => member.rank,
            None => 1,
        }
    }

    /// Lets a term count more than all those together that aren't favoured, so that its class is hung below none of theirs.
    pub(crate) fn favour(&mut self, t: TermId) {
        if let Some(member) = self.members.get_mut(t.0 as usize) {
            member.rank = FAVOURED;
        }
    }

    /// A join, by its number.
    pub fn join_at(&self, k: usize) -> Option<Join> {
        self.joins.get(k).copied()
    }

    /// The step from a term towards the root of the forest.
    pub(crate) fn edge(&self, t: TermId) -> Option<Edge> {
        let member = self.members.get(t.0 as usize)?;
        if member.nearer == 0 {
            return None;
        }
        Some(Edge {
            to: TermId(member.nearer - 1),
            join: member.join,
        })
    }

    /// Puts the step from a term, and gives the one before.
    fn put_edge(&mut self, t: TermId, edge: Option<Edge>) -> Option<Edge> {
        let old = self.edge(t);
        if let Some(member) = self.members.get_mut(t.0 as usize) {
            match edge {
                Some(new) => {
                    member.nearer = new.to.0.saturating_add(1);
                    member.join = new.join;
                }
                None => member.nearer = 0,
            }
        }
        old
    }

    /// Turns the steps from a term to the root round, so that the term is the root.
    fn turn_round(&mut self, t: TermId) {
        let mut at = t;
        let mut edge = None;
        for _ in 0..self.members.len() {
            let Some(old) = self.put_edge(at, edge) else {
                return;
            };
            edge = Some(Edge {
                to: at,
                join: old.join,
            });
            at = old.to;
        }
    }

    /// Puts the members of a term's class into another one.
    fn put_class(&mut self, t: TermId, class: u32) {
        let mut at = t;
        for _ in 0..self.count(t) {
            let next = self.next(at);
            if let Some(member) = self.members.get_mut(at.0 as usize) {
                member.class = class;
            }
            at = next;
        }
    }

    /// Makes one circle of two.
    fn put_together(&mut self, a: TermId, b: TermId) {
        let behind_a = self.next(a);
        let behind_b = self.next(b);
        if let Some(member) = self.members.get_mut(a.0 as usize) {
            member.next = behind_b.0;
        }
        if let Some(member) = self.members.get_mut(b.0 as usize) {
            member.next = behind_a.0;
        }
    }

    /// Joins the classes of two terms, of which the first one's counts no more: its tree is turned round and hung below the
    /// other term.
    fn hang(&mut self, small: TermId, large: TermId, join: usize) {
        let class = self.class(large);
        let count = self.count(large).saturating_add(self.count(small));
        let rank = self.rank(large).saturating_add(self.rank(small));
        self.turn_round(small);
        let _ = self.put_edge(small, Some(Edge { to: large, join }));
        self.put_class(small, class);
        self.put_together(small, large);
        if let Some(member) = self.members.get_mut(class as usize) {
            member.count = count;
            member.rank = rank;
        }
    }

    /// The one of two terms whose class doesn't count more than the other's.
    pub(crate) fn smaller(&self, a: TermId, b: TermId) -> TermId {
        if self.rank(a) <= self.rank(b) { a } else { b }
    }

    /// Joins the classes of two terms, and keeps why. Where they are one class, nothing changes.
    pub fn join(&mut self, join: Join) -> Result<(), AllocError> {
        if self.are_joined(join.left, join.right) {
            return Ok(());
        }
        let number = self.joins.len();
        self.joins.push(join)?;
        if self.smaller(join.left, join.right) == join.left {
            self.hang(join.left, join.right, number);
        } else {
            self.hang(join.right, join.left, number);
        }
        Ok(())
    }
}
