// The equalities that hold by chance alone: of two cells of one array of random values, of a random value that nothing else reads, and
// of one with what was known before it was chosen.
use cv_settling_overview::comparisons::{Choice, Comparison};
use cv_settling_overview::variables::Variable;
use cv_settling_overview::walk::Overview;
use cv_step_writer::Proposal;
use cv_syntax::{Class, Decls, NameId};
use std::alloc::{AllocError, Global};
use std::collections::{HashMap, HashSet};

/// A step that takes equalities of a variable to hold by chance alone, by that variable.
#[derive(Clone, Copy, Debug, PartialEq, Eq)]
pub enum Chance {
    /// The step `birthday`: two cells of the variable are equal.
    Birthday(NameId),
    /// The step `guess`: the variable is equal to what doesn't rest on it.
    Guess(NameId),
}

/// How many equalities have a side that reads a variable, and how many have two.
#[derive(Clone, Copy)]
struct Count {
    either: u32,
    both: u32,
}

/// How often variables are compared.
#[derive(Drop)]
struct Counts {
    table: HashMap<u32, Count>,
}

impl Counts {
    /// How often a variable is compared.
    fn get(&self, x: u32) -> Count {
        match self.table.get(&x) {
            Some(count) => *count,
            None => Count { either: 0, both: 0 },
        }
    }

    /// Counts an equality for the variable that a side reads.
    fn add(&mut self, side: Option<u32>, both: bool) -> Result<(), AllocError> {
        let Some(x) = side else {
            return Ok(());
        };
        let there = self.get(x);
        let more = if both { 1 } else { 0 };
        let count = Count {
            either: there.either.saturating_add(1),
            both: there.both.saturating_add(more),
        };
        self.table.insert(x, count)?;
        Ok(())
    }

    /// How often the variables of a game are compared.
    fn of(alloc: Global, comparisons: &[Comparison]) -> Result<Counts, AllocError> {
        let mut counts = Counts {
            table: HashMap::new(alloc),
        };
        for seen in comparisons {
            if seen.left == seen.right {
                counts.add(seen.left, true)?;
            } else {
                counts.add(seen.left, false)?;
                counts.add(seen.right, false)?;
            }
        }
        Ok(counts)
    }
}

/// Whether a type is a large one.
fn is_large(decls: &Decls, of_type: u32) -> bool {
    match decls.class(NameId(of_type)) {
        Class::TypeName { large, .. } => large,
        _ => false,
    }
}

/// Whether all definitions of a variable are `new` of a large type.
fn is_chosen(decls: &Decls, variable: Variable) -> bool {
    match variable.of_type {
        Some(t) => variable.sites == variable.restrictions && is_large(decls, t),
        None => false,
    }
}

/// Whether an equality has two sides that read a variable, or one.
fn compares(seen: &Comparison, x: u32, both: bool) -> bool {
    let left = seen.left == Some(x);
    let right = seen.right == Some(x);
    if both { left && right } else { left || right }
}

/// The places of the equalities of a variable.
fn places_of(
    alloc: Global,
    overview: &Overview,
    x: u32,
    both: bool,
) -> Result<Vec<u64>, AllocError> {
    let mut places = Vec::new(alloc);
    for seen in &overview.comparisons {
        if compares(seen, x, both) {
            places.push(u64::from(seen.place))?;
        }
    }
    Ok(places)
}

/// Whether a step is among those that aren't suggested.
fn is_among(spared: &[Chance], step: Chance) -> bool {
    spared.iter().any(|one| *one == step)
}

/// A variable whose cells are compared: the first one, where so many are passed over.
fn birthday_variable(
    decls: &Decls,
    overview: &Overview,
    counts: &Counts,
    spared: &[Chance],
    left: &mut u32,
) -> Option<u32> {
    for x in overview.variables.order() {
        let is_candidate = counts.get(*x).both > 0 && is_chosen(decls, overview.variables.get(*x));
        if is_candidate && !is_among(spared, Chance::Birthday(NameId(*x))) {
            if *left == 0 {
                return Some(*x);
            }
            *left -= 1;
        }
    }
    None
}

/// A variable that is read in equalities alone, and of which no query asks: the first one, where so many are passed over.
fn guess_variable(
    decls: &Decls,
    overview: &Overview,
    counts: &Counts,
    queried: &HashSet<u32>,
    spared: &[Chance],
    left: &mut u32,
) -> Option<u32> {
    for x in overview.variables.order() {
        let compared = counts.get(*x).either;
        let variable = overview.variables.get(*x);
        let is_alone = compared > 0 && compared == variable.reads && !queried.contains(x);
        let is_candidate = is_alone && is_chosen(decls, variable);
        if is_candidate && !is_among(spared, Chance::Guess(NameId(*x))) {
            if *left == 0 {
                return Some(*x);
            }
            *left -= 1;
        }
    }
    None
}

/// Whether a side's values are of a large type, and what it is compared with was known before: the names of the other side that don't
/// stand above are constants.
fn is_missed(decls: &Decls, overview: &Overview, choice: &Choice) -> bool {
    is_large(decls, choice.of_type)
        && choice
            .later
            .iter()
            .all(|y| overview.variables.get(*y).sites == 0)
}

/// The place of an equality with what was known before: the first one, where so many are passed over.
fn fresh_place(decls: &Decls, overview: &Overview, left: &mut u32) -> Option<u32> {
    for seen in &overview.comparisons {
        if seen.choices.iter().any(|c| is_missed(decls, overview, c)) {
            if *left == 0 {
                return Some(seen.place);
            }
            *left -= 1;
        }
    }
    None
}

/// The step that takes an equality to hold by chance alone, but for some: the first one, where so many are passed over.
pub(crate) fn find(
    alloc: Global,
    decls: &Decls,
    overview: &Overview,
    queried: &HashSet<u32>,
    spared: &[Chance],
    left: &mut u32,
) -> Result<Option<Proposal>, AllocError> {
    let counts = Counts::of(alloc, &overview.comparisons)?;
    if let Some(x) = birthday_variable(decls, overview, &counts, spared, left) {
        let at = places_of(alloc, overview, x, true)?;
        return Ok(Some(Proposal::Birthday { x: NameId(x), at }));
    }
    if let Some(x) = guess_variable(decls, overview, &counts, queried, spared, left) {
        let at = places_of(alloc, overview, x, false)?;
        return Ok(Some(Proposal::Guess { x: NameId(x), at }));
    }
    match fresh_place(decls, overview, left) {
        Some(place) => Ok(Some(Proposal::Fresh {
            place: u64::from(place),
        })),
        None => Ok(None),
    }
}
