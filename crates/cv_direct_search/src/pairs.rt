// Pairs of places of the left event whose routes end at one place of a right event that is marked `inj`.
use crate::certificates::{Certificate, Entry, Pair};
use crate::routes::Scene;
use crate::searching::Effort;
use cv_closure_lines::{Claim, Derivation, Reason, Target, derive};
use cv_grounds::{Copies, End};
use cv_syntax::Head;
use std::alloc::{AllocError, Global};
use std::collections::HashSet;

/// Where the route to the right event of a number ends.
#[derive(Drop)]
struct RouteEnd {
    number: u64,
    end: End,
}

/// A place of the left event that has routes: what is known there, where its routes end to right events that are marked `inj`, and
/// its pairs with itself and with places behind it, of which so many are with places before the newest one.
#[derive(Drop)]
struct Left {
    place: u32,
    last: u32,
    ends: Vec<RouteEnd>,
    pairs: Vec<Pair>,
    before: usize,
}

impl Left {
    /// Where the route to the right event of a number ends, where the place has one.
    fn end(&self, number: u64) -> Option<&End> {
        for there in &self.ends {
            if there.number == number {
                return Some(&there.end);
            }
        }
        None
    }
}

/// The arrays whose values are taken to differ, and the places of the left event that have routes, as far as they were looked at.
#[derive(Drop)]
pub(crate) struct Pairing {
    distinct: Vec<u32>,
    lefts: Vec<Left>,
}

/// What a pair's derivation is to end with. At one place: all indices are equal. In two bodies of one construct: there are no such
/// copies, or else the indices of the construct are equal. In all other cases there are no such copies.
fn targets(scene: Scene, copies: &Copies, p: u32, q: u32) -> Result<Vec<Target>, AllocError> {
    let mut targets = Vec::new(scene.alloc);
    let mut count = None;
    if p == q {
        count = Some(usize::MAX);
    } else if !copies.closure().is_contradictory() {
        let parting = scene.lateness.parting(scene.pool, p, q);
        count = parting.map(|n| n as usize);
    }
    let Some(count) = count else {
        targets.push(Target::Never)?;
        return Ok(targets);
    };
    for (m, n) in &copies.indices(scene.alloc, count)? {
        targets.push(Target::Equal(*m, *n))?;
    }
    Ok(targets)
}

/// The derivation of the pair of two places, where it is found with the effort that is left: their routes end alike, at these ends.
fn derive_pair(
    scene: Scene,
    distinct: &[u32],
    first: (&Left, &End),
    second: (&Left, &End),
    effort: &mut Effort,
) -> Result<Option<Derivation>, AllocError> {
    effort.begin();
    let (left, end) = first;
    let (other, other_end) = second;
    let mut copies = Copies::at(
        scene.alloc,
        scene.pool,
        scene.survey,
        (left.last, other.last),
        distinct,
        effort.left,
    )?;
    copies.give(scene.alloc, scene.theory, end, other_end)?;
    effort.left = copies.closure().effort();
    let targets = targets(scene, &copies, left.place, other.place)?;
    if effort.left == 0 {
        return Ok(None);
    }
    let derivation = derive(scene.alloc, copies.closure(), &targets)?;
    if let Some(by) = &derivation {
        effort.spend(by.lines.len());
    }
    Ok(derivation)
}

/// The array of a cell that a line says is defined.
fn array_of(by: &Derivation, line: u64) -> Option<u32> {
    if line == 0 {
        return None;
    }
    let Claim::Defined(cell) = by.lines.get(line as usize - 1)?.claim else {
        return None;
    };
    match by.terms.head(cell) {
        Some(Head::Read(array)) => Some(array),
        _ => None,
    }
}

/// Adds the arrays whose values a derivation takes to differ.
fn add_arrays(by: &Derivation, arrays: &mut HashSet<u32>) -> Result<(), AllocError> {
    for line in &by.lines {
        if let Reason::Distinct(_, cell, _, _) = &line.by {
            if let Some(array) = array_of(by, *cell) {
                arrays.insert(array)?;
            }
        }
    }
    Ok(())
}

/// The arrays whose values pairs take to differ.
fn arrays_in(alloc: Global, pairs: &[Pair]) -> Result<HashSet<u32>, AllocError> {
    let mut arrays = HashSet::new(alloc);
    for pair in pairs {
        add_arrays(&pair.by, &mut arrays)?;
    }
    Ok(arrays)
}

/// Those of some arrays whose values pairs take to differ, in order.
fn used(alloc: Global, distinct: &[u32], pairs: &[Pair]) -> Result<Vec<u32>, AllocError> {
    let arrays = arrays_in(alloc, pairs)?;
    let mut used = Vec::new(alloc);
    for array in distinct {
        if arrays.contains(array) {
            used.push(*array)?;
        }
    }
    Ok(used)
}

/// Adds the pairs of a place with itself and with those behind it.
fn add_pairs(left: Left, pairs: &mut Vec<Pair>) -> Result<(), AllocError> {
    let Left { pairs: own, .. } = left;
    for pair in own {
        pairs.push(pair)?;
    }
    Ok(())
}

impl Pairing {
    /// No place was looked at yet, and the values of these arrays are taken to differ.
    pub(crate) fn new(alloc: Global, distinct: Vec<u32>) -> Pairing {
        Pairing {
            distinct,
            lefts: Vec::new(alloc),
        }
    }

    /// Goes to the next place, whose routes are to be found.
    pub(crate) fn begin(&mut self, scene: Scene, place: u32) -> Result<(), AllocError> {
        for k in 0..self.lefts.len() {
            if let Some(left) = self.lefts.get_mut(k) {
                left.before = left.pairs.len();
            }
        }
        self.lefts.push(Left {
            place,
            last: scene.last,
            ends: Vec::new(scene.alloc),
            pairs: Vec::new(scene.alloc),
            before: 0,
        })?;
        Ok(())
    }

    /// Gives the newest place up, with its pairs.
    pub(crate) fn give_up(&mut self) {
        let _newest = self.lefts.pop();
        for k in 0..self.lefts.len() {
            if let Some(left) = self.lefts.get_mut(k) {
                left.pairs.truncate(left.before);
            }
        }
    }

    /// The pairs of the places so far, in order, with the newest one, for a route to the right event of a number that ends there:
    /// nothing where theirs ends elsewhere. There are none where some pair isn't found.
    fn pairs_by(
        &self,
        scene: Scene,
        number: u64,
        end: &End,
        effort: &mut Effort,
    ) -> Result<Option<Vec<Option<Pair>>>, AllocError> {
        let Some(newest) = self.lefts.last() else {
            return Ok(None);
        };
        let mut pairs = Vec::new(scene.alloc);
        for left in &self.lefts {
            let there = if left.place == newest.place {
                Some(end)
            } else {
                left.end(number)
            };
            let Some(there) = there.filter(|e| e.place == end.place) else {
                pairs.push(None)?;
                continue;
            };
            let (first, second) = ((left, there), (newest, end));
            let Some(by) = derive_pair(scene, &self.distinct, first, second, effort)? else {
                return Ok(None);
            };
            pairs.push(Some(Pair {
                first: left.place,
                second: newest.place,
                event: number,
                by,
            }))?;
        }
        Ok(Some(pairs))
    }

    /// Gives each place its pair with the newest one.
    fn add(&mut self, pairs: Vec<Option<Pair>>) -> Result<(), AllocError> {
        let mut k = 0_usize;
        for pair in pairs {
            if let (Some(left), Some(pair)) = (self.lefts.get_mut(k), pair) {
                left.pairs.push(pair)?;
            }
            k = k.saturating_add(1);
        }
        Ok(())
    }

    /// Takes a route of the newest place to the right event of a number that is marked `inj`, where the pairs are found that it needs.
    /// Tells whether they are.
    pub(crate) fn take(
        &mut self,
        scene: Scene,
        number: u64,
        end: End,
        effort: &mut Effort,
    ) -> Result<bool, AllocError> {
        let Some(pairs) = self.pairs_by(scene, number, &end, effort)? else {
            return Ok(false);
        };
        self.add(pairs)?;
        if let Some(newest) = self.lefts.last_mut() {
            newest.ends.push(RouteEnd { number, end })?;
        }
        Ok(true)
    }

    /// The pairs that were found, in order.
    pub(crate) fn pairs(self, alloc: Global) -> Result<Vec<Pair>, AllocError> {
        let Pairing { lefts, .. } = self;
        let mut pairs = Vec::new(alloc);
        for left in lefts {
            add_pairs(left, &mut pairs)?;
        }
        Ok(pairs)
    }
}

/// The certificate with these entries and pairs, which names those arrays of which the pairs take the values to differ.
pub(crate) fn certificate_by(
    alloc: Global,
    distinct: &[u32],
    entries: Vec<Entry>,
    pairs: Vec<Pair>,
) -> Result<Certificate, AllocError> {
    let distinct = used(alloc, distinct, &pairs)?;
    Ok(Certificate::Events {
        entries,
        distinct,
        pairs,
    })
}
