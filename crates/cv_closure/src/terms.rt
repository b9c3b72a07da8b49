use cv_syntax_trees::Head;
use std::alloc::{AllocError, Global};

/// The number of a term in its table.
#[derive(Clone, Copy, PartialEq, Eq)]
pub struct TermId(pub u32);

/// A term: its head, where its arguments stand, its weight, and the next term of its bucket.
#[derive(Clone, Copy)]
struct Entry {
    head: Head,
    start: usize,
    arity: usize,
    weight: u64,
    next: u32,
}

/// How many buckets a table has.
const BUCKETS: usize = 1024;

/// Terms over the heads of the calculus, each once, with at most so many. The arguments of a term come before it.
#[derive(Drop)]
pub struct Terms {
    entries: Vec<Entry>,
    arguments: Vec<TermId>,
    buckets: Vec<u32>,
    most: u32,
}

/// A number that mostly tells a term from others.
fn spread(head: Head, arguments: &[TermId]) -> u64 {
    let code = head.code();
    let mut sum = u64::from(code.tag)
        .wrapping_mul(0x9E37_79B9)
        .wrapping_add(u64::from(code.a))
        .wrapping_mul(0x85EB_CA6B)
        .wrapping_add(u64::from(code.b));
    for argument in arguments {
        sum = sum
            .wrapping_mul(0xC2B2_AE35)
            .wrapping_add(u64::from(argument.0));
    }
    sum / 64
}

/// How much a node weighs: itself, and the name that it holds.
fn weight_of(head: Head) -> u64 {
    match head {
        Head::Leaf(_) | Head::Primed(_) | Head::Read(_) | Head::Apply(_) => 2,
        _ => 1,
    }
}

impl Terms {
    /// No term, with room for so many.
    pub fn new(alloc: Global, most: u32) -> Result<Terms, AllocError> {
        let mut buckets = Vec::new(alloc);
        buckets.resize(BUCKETS, 0)?;
        Ok(Terms {
            entries: Vec::new(alloc),
            arguments: Vec::new(alloc),
            buckets,
            most,
        })
    }

    /// How many terms there are.
    pub fn len(&self) -> u32 {
        u32::try_from(self.entries.len()).unwrap_or(u32::MAX)
    }

    /// The head of a term, where the table has it.
    pub fn head(&self, t: TermId) -> Option<Head> {
        match self.entries.get(t.0 as usize) {
            Some(entry) => Some(entry.head),
            None => None,
        }
    }

    /// The arguments of a term; none where the table hasn't it.
    pub fn arguments(&self, t: TermId) -> &[TermId] {
        match self.entries.get(t.0 as usize) {
            Some(entry) => part(&self.arguments, entry.start, entry.arity),
            None => &[],
        }
    }

    /// An argument of a term, counted from 0.
    pub fn argument(&self, t: TermId, k: usize) -> Option<TermId> {
        self.arguments(t).get(k).copied()
    }

    /// How much a term weighs: its nodes, and the names that they hold.
    pub fn weight(&self, t: TermId) -> u64 {
        match self.entries.get(t.0 as usize) {
            Some(entry) => entry.weight,
            None => 0,
        }
    }

    /// Whether a term has this head and these arguments.
    fn is(&self, t: TermId, head: Head, arguments: &[TermId]) -> bool {
        match self.head(t) {
            Some(there) => there.code() == head.code() && self.arguments(t) == arguments,
            None => false,
        }
    }

    /// The term with this head and these arguments, if it is there.
    pub fn find(&self, head: Head, arguments: &[TermId]) -> Option<TermId> {
        let mut here = self.first_of(bucket_of(head, arguments));
        for _ in 0..self.entries.len() {
            if here == 0 {
                return None;
            }
            let t = TermId(here - 1);
            if self.is(t, head, arguments) {
                return Some(t);
            }
            here = self.next_of(t);
        }
        None
    }

    /// The newest term of a bucket, counted from 1, or 0.
    fn first_of(&self, bucket: usize) -> u32 {
        self.buckets.get(bucket).copied().unwrap_or(0)
    }

    /// The term of the same bucket before this one, counted from 1, or 0.
    fn next_of(&self, t: TermId) -> u32 {
        match self.entries.get(t.0 as usize) {
            Some(entry) => entry.next,
            None => 0,
        }
    }

    /// The weight of a term that is to be made.
    fn weight_over(&self, head: Head, arguments: &[TermId]) -> u64 {
        let mut weight = weight_of(head);
        for argument in arguments {
            weight = weight.saturating_add(self.weight(*argument));
        }
        weight
    }

    /// The term with this head and these arguments: the one that is there, or a new one. There is none where the table is full.
    pub fn add(&mut self, head: Head, arguments: &[TermId]) -> Result<Option<TermId>, AllocError> {
        if let Some(there) = self.find(head, arguments) {
            return Ok(Some(there));
        }
        let number = self.len();
        if number >= self.most {
            return Ok(None);
        }
        let bucket = bucket_of(head, arguments);
        let start = self.arguments.len();
        let weight = self.weight_over(head, arguments);
        let next = self.first_of(bucket);
        self.keep(arguments)?;
        self.entries.push(Entry {
            head,
            start,
            arity: arguments.len(),
            weight,
            next,
        })?;
        if let Some(first) = self.buckets.get_mut(bucket) {
            *first = number.saturating_add(1);
        }
        Ok(Some(TermId(number)))
    }

    /// Keeps the arguments of a new term.
    fn keep(&mut self, arguments: &[TermId]) -> Result<(), AllocError> {
        for argument in arguments {
            self.arguments.push(*argument)?;
        }
        Ok(())
    }
}

/// The bucket of a term.
fn bucket_of(head: Head, arguments: &[TermId]) -> usize {
    (spread(head, arguments) % 1024) as usize
}

/// Items of a list from a place on, or none where it hasn't so many.
fn part(list: &[TermId], start: usize, count: usize) -> &[TermId] {
    if start <= list.len() && count <= list.len() - start {
        &list[start..start + count]
    } else {
        &[]
    }
}
