// What is said of the places of the left event of a correspondence, in one alternative or another.
use crate::certificates::{Entry, Pair};
use crate::pairs::Pairing;
use crate::queries::Atom;
use crate::routes::{Scene, Search};
use cv_closure::TermId;
use cv_closure_lines::copied;
use cv_grounds::{Event, Given, items, translate};
use std::alloc::{AllocError, Global};

/// What may be said of a place, whatever is said of other ones: its entry, the numbers of the right events marked `inj` in its
/// alternative, and its pairs with itself.
#[derive(Drop)]
pub(crate) struct Choice {
    pub(crate) entry: Entry,
    pub(crate) atoms: Vec<u64>,
    pub(crate) pairs: Vec<Pair>,
}

/// Whether events alone stand on the right in an alternative, and no variables that stand on the right alone.
fn is_of_events(scene: Scene) -> bool {
    for atom in scene.atoms() {
        if let Atom::Term(_) = atom {
            return false;
        }
    }
    scene.query.others.is_empty()
}

/// The numbers of the right events that are marked `inj` in an alternative.
fn marked(scene: Scene) -> Result<Vec<u64>, AllocError> {
    let mut numbers = Vec::new(scene.alloc);
    for atom in scene.atoms() {
        if let Atom::Event(event) = atom {
            if event.is_once {
                numbers.push(event.number)?;
            }
        }
    }
    Ok(numbers)
}

/// All that was put, again.
fn copy_of(alloc: Global, given: &Given) -> Result<Given, AllocError> {
    let mut copy = Given::new(alloc);
    copy.add_all(given)?;
    Ok(copy)
}

impl Search {
    /// What stands for the variables on the right alone.
    fn others(&self, scene: Scene) -> Result<Option<Vec<TermId>>, AllocError> {
        let mut terms = Vec::new(scene.alloc);
        for x in &scene.query.others {
            let Some(term) = self.given.get(*x) else {
                return Ok(None);
            };
            terms.push(term)?;
        }
        Ok(Some(terms))
    }

    /// Puts a left event's arguments for the query's variables, and tells whether they are as many.
    fn put_arguments(&mut self, scene: Scene, event: Event) -> Result<bool, AllocError> {
        let indices = self
            .grounds
            .given(scene.alloc, scene.survey, event.last, None)?;
        let list = items(scene.alloc, scene.pool, event.arguments)?;
        if list.len() != scene.query.variables.len() {
            return Ok(false);
        }
        for (x, n) in scene.query.variables.iter().zip(&list) {
            let closure = &mut self.grounds.closure;
            let Some(term) = translate(scene.alloc, closure, scene.pool, &indices, *n)? else {
                return Ok(false);
            };
            self.left.add(*x, term)?;
        }
        Ok(true)
    }

    /// The entry of a place by routes in the alternative.
    fn by_routes(
        &mut self,
        scene: Scene,
        pairing: &mut Pairing,
        place: u32,
    ) -> Result<Option<Entry>, AllocError> {
        let Some(routes) = self.routes(scene, pairing)? else {
            return Ok(None);
        };
        let Some(others) = self.others(scene)? else {
            return Ok(None);
        };
        let Some((table, terms)) = copied(scene.alloc, &self.grounds.closure, &others)? else {
            return Ok(None);
        };
        Ok(Some(Entry::With {
            place,
            table,
            terms,
            alternative: scene.number(),
            routes,
        }))
    }

    /// The entry of a place in the alternative, with the pairs that it needs.
    fn in_alternative(
        &mut self,
        scene: Scene,
        pairing: &mut Pairing,
        place: u32,
    ) -> Result<Option<Entry>, AllocError> {
        self.given = copy_of(scene.alloc, &self.left)?;
        if !scene.query.is_once {
            return self.by_routes(scene, pairing, place);
        }
        pairing.begin(scene, place)?;
        let entry = self.by_routes(scene, pairing, place)?;
        if entry.is_none() {
            pairing.give_up();
        }
        Ok(entry)
    }

    /// The entry of a place in the first alternative in which one is found.
    fn in_some_alternative(
        &mut self,
        scene: Scene,
        pairing: &mut Pairing,
        place: u32,
    ) -> Result<Option<Entry>, AllocError> {
        for alternative in 0..scene.query.alternatives.len() {
            let here = Scene {
                alternative,
                ..scene
            };
            if here.is_plain && !is_of_events(here) {
                continue;
            }
            if let Some(entry) = self.in_alternative(here, pairing, place)? {
                return Ok(Some(entry));
            }
        }
        Ok(None)
    }

    /// The entry of a place by events above it that have the very terms that the query asks for, where it asks for events alone, and
    /// isn't injective: then a place to which no run comes needs no pairs.
    fn plain_entry(
        &mut self,
        scene: Scene,
        pairing: &mut Pairing,
        place: u32,
    ) -> Result<Option<Entry>, AllocError> {
        if scene.query.is_once {
            return Ok(None);
        }
        let plain = Scene {
            is_plain: true,
            ..scene
        };
        self.in_some_alternative(plain, pairing, place)
    }

    /// What is said of a place of the left event, where enough follows from what is known there: that the right events plainly stand
    /// above, else that no run comes to it, else by any routes.
    pub(crate) fn entry(
        &mut self,
        scene: Scene,
        pairing: &mut Pairing,
        event: Event,
    ) -> Result<Option<Entry>, AllocError> {
        let place = event.place;
        let before = self.grounds.closure.terms().len();
        let are_put = self.put_arguments(scene, event)?;
        if are_put {
            if let Some(entry) = self.plain_entry(scene, pairing, place)? {
                return Ok(Some(entry));
            }
        }
        if let Some(by) = self.never(scene, place)? {
            return Ok(Some(Entry::Never { place, by }));
        }
        if !are_put {
            return Ok(None);
        }
        self.take(scene, before)?;
        self.in_some_alternative(scene, pairing, place)
    }

    /// What may be said of a place in the alternative, whatever is said of other ones, where the values of these arrays are taken to
    /// differ.
    fn choice(
        &mut self,
        scene: Scene,
        distinct: &[u32],
        place: u32,
    ) -> Result<Option<Choice>, AllocError> {
        let arrays = Vec::from_slice(scene.alloc, distinct)?;
        let mut pairing = Pairing::new(scene.alloc, arrays);
        let Some(entry) = self.in_alternative(scene, &mut pairing, place)? else {
            return Ok(None);
        };
        Ok(Some(Choice {
            entry,
            atoms: marked(scene)?,
            pairs: pairing.pairs(scene.alloc)?,
        }))
    }

    /// What may be said of a place of the left event, by alternatives: that no run comes to it, where that is found, alone.
    pub(crate) fn choices(
        &mut self,
        scene: Scene,
        distinct: &[u32],
        event: Event,
    ) -> Result<Vec<Choice>, AllocError> {
        let place = event.place;
        let mut choices = Vec::new(scene.alloc);
        let before = self.grounds.closure.terms().len();
        let are_put = self.put_arguments(scene, event)?;
        if let Some(by) = self.never(scene, place)? {
            choices.push(Choice {
                entry: Entry::Never { place, by },
                atoms: Vec::new(scene.alloc),
                pairs: Vec::new(scene.alloc),
            })?;
            return Ok(choices);
        }
        if !are_put {
            return Ok(choices);
        }
        self.take(scene, before)?;
        for alternative in 0..scene.query.alternatives.len() {
            let here = Scene {
                alternative,
                ..scene
            };
            if let Some(choice) = self.choice(here, distinct, place)? {
                choices.push(choice)?;
            }
        }
        Ok(choices)
    }
}
