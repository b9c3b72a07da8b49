// Routes to the right events of a correspondence, from one place of its left event.
use crate::certificates::Route;
use crate::pairs::Pairing;
use crate::queries::{Atom, Correspondence, RightEvent};
use crate::searching::Effort;
use cv_closure::{TermId, Theory};
use cv_closure_lines::{
    Claim, Derivation, MOST_LINES, Target, all_follow, copied, derive, derive_late,
};
use cv_grounds::{CurrentCell, End, Given, Grounds, Known, Link, Survey, items, open, translate};
use cv_settling_lateness::Lateness;
use cv_syntax::{Head, NodeId, Pool};
use std::alloc::{AllocError, Global};

/// What a search from a place of the left event reads: the pool, the survey of the game, which of its variables come later than a place,
/// what the file declares, the query, what is known at the place, which alternative is looked at, and whether an event counts only above
/// the place and with the very terms that the query asks for.
#[derive(Clone, Copy)]
pub(crate) struct Scene<'a> {
    pub(crate) alloc: Global,
    pub(crate) pool: &'a Pool,
    pub(crate) survey: &'a Survey,
    pub(crate) lateness: &'a Lateness,
    pub(crate) theory: &'a Theory,
    pub(crate) query: &'a Correspondence,
    pub(crate) last: u32,
    pub(crate) alternative: usize,
    pub(crate) is_plain: bool,
}

impl<'a> Scene<'a> {
    /// What stands on the right in the alternative.
    pub(crate) fn atoms(&self) -> &'a [Atom] {
        match self.query.alternatives.get(self.alternative) {
            Some(atoms) => atoms,
            None => &[],
        }
    }

    /// The number of the alternative, from 1, where there is more than one.
    pub(crate) fn number(&self) -> Option<u64> {
        if self.query.alternatives.len() < 2 {
            return None;
        }
        Some((self.alternative as u64).saturating_add(1))
    }
}

/// A search from a place: what is known there, what stands for the arguments of the left event, and what stands for the query's variables
/// so far.
#[derive(Drop)]
pub(crate) struct Search {
    pub(crate) grounds: Grounds,
    pub(crate) left: Given,
    pub(crate) given: Given,
}

/// A place where a right event may stand: above the left event, or above the only site of a cell, by its number, with the
/// arguments there, and how many replications stand above it.
#[derive(Clone, Copy)]
struct Candidate {
    place: u32,
    cell: Option<usize>,
    arguments: Option<NodeId>,
    replications: usize,
}

/// The candidate that a link is, of an event of this name.
fn candidate_by(link: Link, event: u32, cell: Option<usize>) -> Option<Candidate> {
    match link.known {
        Known::Event {
            event: there,
            place,
            arguments,
        } if there == event => Some(Candidate {
            place,
            cell,
            arguments,
            replications: link.indices as usize,
        }),
        _ => None,
    }
}

/// Whether each target is that a term is equal to itself.
fn are_plain(targets: &[Target]) -> bool {
    for target in targets {
        match target {
            Target::Equal(a, b) if *a == *b => {}
            _ => return false,
        }
    }
    true
}

/// The variable on the right alone that a term is, where nothing stands for it yet.
fn open_variable(scene: Scene, given: &Given, n: NodeId) -> Option<u32> {
    let Some(node) = open(scene.pool, n) else {
        return None;
    };
    let Head::Leaf(x) = node.head else {
        return None;
    };
    if given.get(x).is_none() && scene.query.alone.contains(&x) {
        Some(x)
    } else {
        None
    }
}

impl Search {
    /// The candidates for an event among what is known at a place: the one that is nearest to the root first, or the one that is nearest
    /// to the place, where the event is marked `inj`, since there more indices are the place's own.
    fn add_candidates(
        &mut self,
        scene: Scene,
        event: RightEvent,
        last: u32,
        cell: Option<usize>,
        list: &mut Vec<Candidate>,
    ) -> Result<(), AllocError> {
        let mut known = scene.survey.known(last)?;
        if !self.grounds.closure.spend(known.len()) {
            return Ok(());
        }
        if !event.is_once {
            known.reverse();
        }
        for link in &known {
            if let Some(there) = candidate_by(*link, event.event, cell) {
                list.push(there)?;
            }
        }
        Ok(())
    }

    /// The candidates for an event: above the place, and then above the only sites of cells.
    fn candidates(
        &mut self,
        scene: Scene,
        event: RightEvent,
    ) -> Result<Vec<Candidate>, AllocError> {
        let mut list = Vec::new(scene.alloc);
        self.add_candidates(scene, event, scene.last, None, &mut list)?;
        if scene.is_plain {
            return Ok(list);
        }
        for cell in 0..self.grounds.closure.cells().len() {
            if let Some(last) = self.grounds.site(scene.survey, cell) {
                self.add_candidates(scene, event, last, Some(cell), &mut list)?;
            }
        }
        Ok(list)
    }

    /// What stands for the indices at a candidate.
    fn indices(&mut self, scene: Scene, candidate: Candidate) -> Result<Given, AllocError> {
        let last = match candidate.cell {
            Some(cell) => self.grounds.site(scene.survey, cell).unwrap_or(0),
            None => scene.last,
        };
        self.grounds
            .given(scene.alloc, scene.survey, last, candidate.cell)
    }

    /// A term of the query, as one of the closure.
    fn wanted(&mut self, scene: Scene, n: NodeId) -> Result<Option<TermId>, AllocError> {
        translate(
            scene.alloc,
            &mut self.grounds.closure,
            scene.pool,
            &self.given,
            n,
        )
    }

    /// Takes what follows of the terms that came since.
    pub(crate) fn take(&mut self, scene: Scene, before: u32) -> Result<(), AllocError> {
        if self.grounds.closure.terms().len() > before {
            return self.grounds.closure.saturate(scene.theory);
        }
        Ok(())
    }

    /// The target that an argument of a candidate is what the query asks for; a variable that nothing stands for yet is to be
    /// that argument, and is noted.
    fn target(
        &mut self,
        scene: Scene,
        wanted: NodeId,
        there: TermId,
        fresh: &mut Given,
    ) -> Result<Option<Target>, AllocError> {
        if let Some(x) = open_variable(scene, &self.given, wanted) {
            return match fresh.get(x) {
                Some(term) => Ok(Some(Target::Equal(there, term))),
                None => {
                    fresh.add(x, there)?;
                    Ok(Some(Target::Equal(there, there)))
                }
            };
        }
        match self.wanted(scene, wanted)? {
            Some(term) => Ok(Some(Target::Equal(there, term))),
            None => Ok(None),
        }
    }

    /// The targets of a candidate, with what stands for variables by it.
    fn targets(
        &mut self,
        scene: Scene,
        arguments: Option<NodeId>,
        candidate: Candidate,
        fresh: &mut Given,
    ) -> Result<Option<Vec<Target>>, AllocError> {
        let indices = self.indices(scene, candidate)?;
        let wanted = items(scene.alloc, scene.pool, arguments)?;
        let there = items(scene.alloc, scene.pool, candidate.arguments)?;
        let mut targets = Vec::new(scene.alloc);
        if let Some(cell) = candidate.cell {
            targets.push(Target::Defined(cell))?;
        }
        if wanted.len() != there.len() {
            return Ok(None);
        }
        for (m, n) in wanted.iter().zip(&there) {
            let closure = &mut self.grounds.closure;
            let Some(term) = translate(scene.alloc, closure, scene.pool, &indices, *n)? else {
                return Ok(None);
            };
            let Some(target) = self.target(scene, *m, term, fresh)? else {
                return Ok(None);
            };
            targets.push(target)?;
        }
        Ok(Some(targets))
    }

    /// A derivation that ends with the targets, where they follow and effort is left.
    fn derive(
        &mut self,
        scene: Scene,
        targets: &[Target],
    ) -> Result<Option<Derivation>, AllocError> {
        if self.grounds.closure.effort() == 0 || !all_follow(&self.grounds.closure, targets) {
            return Ok(None);
        }
        let derivation = derive(scene.alloc, &self.grounds.closure, targets)?;
        let lines = match &derivation {
            Some(by) => by.lines.len(),
            None => MOST_LINES as usize,
        };
        let _may_go_on = self.grounds.closure.spend(lines);
        Ok(derivation)
    }

    /// The first cell that is defined at a place, by what is known there, and can't be: one at current indices of a variable that comes
    /// later.
    fn late_cell(&mut self, scene: Scene, place: u32) -> Result<Option<CurrentCell>, AllocError> {
        let cells = self
            .grounds
            .current_cells(scene.alloc, scene.survey, scene.last)?;
        for cell in cells {
            if scene.lateness.is_late(scene.pool, cell.variable, place) {
                return Ok(Some(cell));
            }
        }
        Ok(None)
    }

    /// A derivation that no run comes to a place: what is known there contradicts itself, or a cell is defined that comes later.
    pub(crate) fn never(
        &mut self,
        scene: Scene,
        place: u32,
    ) -> Result<Option<Derivation>, AllocError> {
        if let Some(by) = self.derive(scene, &[Target::Never])? {
            return Ok(Some(by));
        }
        match self.late_cell(scene, place)? {
            Some(late) => derive_late(scene.alloc, &self.grounds.closure, late.cell, &late.indices),
            None => Ok(None),
        }
    }

    /// Where a route by a candidate ends.
    fn end(&mut self, scene: Scene, candidate: Candidate) -> Result<Option<End>, AllocError> {
        let indices = self.indices(scene, candidate)?;
        let terms = indices.terms();
        if candidate.replications > terms.len() {
            return Ok(None);
        }
        let outermost = &terms[..candidate.replications];
        match copied(scene.alloc, &self.grounds.closure, outermost)? {
            Some((table, indices)) => Ok(Some(End {
                place: candidate.place,
                table,
                indices,
            })),
            None => Ok(None),
        }
    }

    /// Whether the route to a right event may go by a candidate: the pairs are found that it needs, where the event is marked `inj`.
    fn may_take(
        &mut self,
        scene: Scene,
        pairing: &mut Pairing,
        event: RightEvent,
        candidate: Candidate,
    ) -> Result<bool, AllocError> {
        if !event.is_once {
            return Ok(true);
        }
        let Some(end) = self.end(scene, candidate)? else {
            return Ok(false);
        };
        let left = self.grounds.closure.effort();
        let mut effort = Effort { left };
        let is_taken = pairing.take(scene, event.number, end, &mut effort)?;
        let spent = left.saturating_sub(effort.left);
        let _may_go_on = self.grounds.closure.spend(spent as usize);
        Ok(is_taken)
    }

    /// The derivation by which a candidate is a right event, where there is one.
    fn try_candidate(
        &mut self,
        scene: Scene,
        pairing: &mut Pairing,
        event: RightEvent,
        candidate: Candidate,
    ) -> Result<Option<Derivation>, AllocError> {
        let before = self.grounds.closure.terms().len();
        let mut fresh = Given::new(scene.alloc);
        let Some(targets) = self.targets(scene, event.arguments, candidate, &mut fresh)? else {
            return Ok(None);
        };
        if scene.is_plain && !are_plain(&targets) {
            return Ok(None);
        }
        self.take(scene, before)?;
        let Some(by) = self.derive(scene, &targets)? else {
            return Ok(None);
        };
        if !self.may_take(scene, pairing, event, candidate)? {
            return Ok(None);
        }
        self.given.add_all(&fresh)?;
        Ok(Some(by))
    }

    /// The route to a right event.
    fn event_route(
        &mut self,
        scene: Scene,
        pairing: &mut Pairing,
        event: RightEvent,
    ) -> Result<Option<Route>, AllocError> {
        for candidate in &self.candidates(scene, event)? {
            if let Some(by) = self.try_candidate(scene, pairing, event, *candidate)? {
                return Ok(route(*candidate, by));
            }
        }
        Ok(None)
    }

    /// The route to a right term.
    fn term_route(&mut self, scene: Scene, n: NodeId) -> Result<Option<Route>, AllocError> {
        let before = self.grounds.closure.terms().len();
        let Some(term) = self.wanted(scene, n)? else {
            return Ok(None);
        };
        self.take(scene, before)?;
        match self.derive(scene, &[Target::Holds(term)])? {
            Some(by) => Ok(Some(Route::Holds { by })),
            None => Ok(None),
        }
    }

    /// The routes to the right events, in order; nothing stands in the place of a right term.
    fn event_routes(
        &mut self,
        scene: Scene,
        pairing: &mut Pairing,
    ) -> Result<Option<Vec<Option<Route>>>, AllocError> {
        let mut routes = Vec::new(scene.alloc);
        for atom in scene.atoms() {
            let route = match atom {
                Atom::Event(event) => {
                    let Some(route) = self.event_route(scene, pairing, *event)? else {
                        return Ok(None);
                    };
                    Some(route)
                }
                Atom::Term(_) => None,
            };
            routes.push(route)?;
        }
        Ok(Some(routes))
    }

    /// Puts terms of their types for the variables on the right alone for which no event says what they stand for.
    fn put_others(&mut self, scene: Scene) -> Result<(), AllocError> {
        for x in &scene.query.others {
            if self.given.get(*x).is_none() {
                if let Some(term) = scene.query.term_like(&self.given, *x) {
                    self.given.add(*x, term)?;
                }
            }
        }
        Ok(())
    }

    /// The routes to all that stands on the right: to events first, since they say what variables stand for.
    pub(crate) fn routes(
        &mut self,
        scene: Scene,
        pairing: &mut Pairing,
    ) -> Result<Option<Vec<Route>>, AllocError> {
        let Some(found) = self.event_routes(scene, pairing)? else {
            return Ok(None);
        };
        self.put_others(scene)?;
        let mut routes = Vec::new(scene.alloc);
        for (atom, there) in scene.atoms().iter().zip(found) {
            let route = match (atom, there) {
                (_, Some(route)) => Some(route),
                (Atom::Term(n), None) => self.term_route(scene, *n)?,
                (Atom::Event(_), None) => None,
            };
            let Some(route) = route else {
                return Ok(None);
            };
            routes.push(route)?;
        }
        Ok(Some(routes))
    }
}

/// The cell that a derivation says is defined, the last one.
fn last_cell(by: &Derivation) -> Option<TermId> {
    let mut cell = None;
    for line in &by.lines {
        if let Claim::Defined(there) = line.claim {
            cell = Some(there);
        }
    }
    cell
}

/// The route by a candidate with its derivation.
fn route(candidate: Candidate, by: Derivation) -> Option<Route> {
    let place = candidate.place;
    if candidate.cell.is_none() {
        return Some(Route::Above { place, by });
    }
    match last_cell(&by) {
        Some(cell) => Some(Route::Cell { cell, place, by }),
        None => None,
    }
}
