// A choice of alternatives at the places of the left event, no two of which have a right event marked `inj` in common: then each place
// needs pairs with itself alone.
use crate::certificates::{Certificate, Entry, Pair};
use crate::entries::Choice;
use crate::pairs::certificate_by;
use std::alloc::{AllocError, Global};
use std::collections::HashSet;

/// How many alternatives are tried together, at most.
const MOST_TRIES: usize = 10_000;

/// The right events marked `inj` that the choices so far have.
#[derive(Drop)]
struct Used {
    atoms: HashSet<u64>,
}

impl Used {
    /// Whether a choice has none of them.
    fn is_free(&self, choice: &Choice) -> bool {
        for atom in &choice.atoms {
            if self.atoms.contains(atom) {
                return false;
            }
        }
        true
    }

    /// Adds those of a choice.
    fn add(&mut self, choice: &Choice) -> Result<(), AllocError> {
        for atom in &choice.atoms {
            self.atoms.insert(*atom)?;
        }
        Ok(())
    }

    /// Takes those of a choice away.
    fn remove(&mut self, choice: &Choice) {
        for atom in &choice.atoms {
            let _was_there = self.atoms.remove(atom);
        }
    }
}

/// The first choice of a place, from a number on, that has nothing in common with the choices so far.
fn first_free(choices: &[Choice], from: usize, used: &Used) -> Option<usize> {
    for (k, choice) in choices.iter().enumerate() {
        if k >= from && used.is_free(choice) {
            return Some(k);
        }
    }
    None
}

/// The choice of a number at a place.
fn choice_at(places: &[Vec<Choice>], place: usize, k: usize) -> Option<&Choice> {
    places.get(place)?.get(k)
}

/// Numbers of choices, one for each place, no two of which have a right event in common: the first ones in the order of places and then
/// of alternatives, if they are found in so many tries.
fn numbers(alloc: Global, places: &[Vec<Choice>]) -> Result<Option<Vec<usize>>, AllocError> {
    let mut chosen = Vec::new(alloc);
    let mut used = Used {
        atoms: HashSet::new(alloc),
    };
    let mut from = 0;
    for _ in 0..MOST_TRIES {
        let Some(choices) = places.get(chosen.len()) else {
            return Ok(Some(chosen));
        };
        if let Some(k) = first_free(choices, from, &used) {
            if let Some(choice) = choices.get(k) {
                used.add(choice)?;
            }
            chosen.push(k)?;
            from = 0;
            continue;
        }
        let Some(k) = chosen.pop() else {
            return Ok(None);
        };
        if let Some(choice) = choice_at(places, chosen.len(), k) {
            used.remove(choice);
        }
        from = k.saturating_add(1);
    }
    Ok(None)
}

/// Adds the entry and the pairs of the choice of a number at a place.
fn add_choice(
    choices: Vec<Choice>,
    number: usize,
    entries: &mut Vec<Entry>,
    pairs: &mut Vec<Pair>,
) -> Result<(), AllocError> {
    let mut k = 0_usize;
    for choice in choices {
        let Choice {
            entry,
            pairs: own,
            ..
        } = choice;
        if k == number {
            entries.push(entry)?;
            add_pairs(own, pairs)?;
        }
        k = k.saturating_add(1);
    }
    Ok(())
}

/// Adds pairs.
fn add_pairs(own: Vec<Pair>, pairs: &mut Vec<Pair>) -> Result<(), AllocError> {
    for pair in own {
        pairs.push(pair)?;
    }
    Ok(())
}

/// The certificate by one choice at each place, where they can be so chosen that no two have a right event marked `inj` in common.
pub(crate) fn chosen(
    alloc: Global,
    distinct: &[u32],
    places: Vec<Vec<Choice>>,
) -> Result<Option<Certificate>, AllocError> {
    let Some(numbers) = numbers(alloc, &places)? else {
        return Ok(None);
    };
    let mut entries = Vec::new(alloc);
    let mut pairs = Vec::new(alloc);
    let mut k = 0_usize;
    for choices in places {
        let number = numbers.get(k).copied().unwrap_or(0);
        add_choice(choices, number, &mut entries, &mut pairs)?;
        k = k.saturating_add(1);
    }
    Ok(Some(certificate_by(alloc, distinct, entries, pairs)?))
}
