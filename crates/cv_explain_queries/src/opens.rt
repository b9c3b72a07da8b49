// Why a query is open: at each place of its left event what is known there, which right events were looked for, and what of these isn't known.
use crate::closed::say_closed;
use crate::places::{above_of, say_defined, say_facts};
use cv_closure::TermId;
use cv_explain_games::Scene;
use cv_explain_source::{Page, items_of, opened, sites_of};
use cv_grounds::{Event, Given, Grounds, Known, Survey, open, theory_of, translate};
use cv_syntax::{Head, NodeId, Opened, Work};

/// How much is looked for at a place.
const EFFORT: u32 = 300_000;

/// The most places of an event, the most candidates and the most reads that are shown.
const MOST: usize = 200;

/// A search from a place: what is known there, and what stands for the query's variables.
#[derive(Drop)]
struct Search {
    grounds: Grounds,
    given: Given,
}

/// A place where a right event stands: above the left one, or above the site of a cell.
#[derive(Clone, Copy)]
struct Candidate {
    place: u32,
    cell: Option<usize>,
    arguments: Option<NodeId>,
    last: u32,
}

/// The name that a term is, where it is one.
fn name_of(work: &Work, term: NodeId) -> Option<u32> {
    match open(&work.pool, term)?.head {
        Head::Leaf(x) => Some(x),
        _ => None,
    }
}

/// Says at which places of the game an event stands.
fn say_places_of(page: &mut Page, scene: Scene, event: u32) {
    let mut is_first = true;
    for there in scene.survey.events() {
        if there.event == event {
            page.say(if is_first { "; it stands at " } else { ", " });
            page.count(u64::from(there.place));
            is_first = false;
        }
    }
    page.say(if is_first {
        "; the game executes it nowhere\n"
    } else {
        "\n"
    });
}

impl Search {
    /// Adds the candidates for an event among what is known somewhere.
    fn add_candidates(
        &self,
        page: &mut Page,
        scene: Scene,
        event: u32,
        at: (u32, Option<usize>),
        list: &mut Vec<Candidate>,
    ) {
        let (last, cell) = at;
        let known = scene.survey.known(last);
        for link in &page.took(known) {
            match link.known {
                Known::Event {
                    event: there,
                    place,
                    arguments,
                } if there == event => page.push(
                    list,
                    Candidate {
                        place,
                        cell,
                        arguments,
                        last,
                    },
                ),
                _ => {}
            }
        }
    }

    /// The candidates for an event: above a place, and above the only sites of cells.
    fn candidates(&self, page: &mut Page, scene: Scene, event: u32, last: u32) -> Vec<Candidate> {
        let mut list = Vec::new(page.alloc());
        self.add_candidates(page, scene, event, (last, None), &mut list);
        for cell in 0..self.grounds.closure.cells().len() {
            if let Some(site) = self.grounds.site(scene.survey, cell) {
                self.add_candidates(page, scene, event, (site, Some(cell)), &mut list);
            }
        }
        list
    }

    /// The indices that are current at a place, or at the site of a cell.
    fn indices(&mut self, page: &mut Page, scene: Scene, last: u32, cell: Option<usize>) -> Given {
        let found = self.grounds.given(page.alloc(), scene.survey, last, cell);
        match page.got(found) {
            Some(indices) => indices,
            None => Given::new(page.alloc()),
        }
    }

    /// A term of the game, or of the query, as the closure has it.
    fn translated(
        &mut self,
        page: &mut Page,
        scene: Scene,
        indices: Option<&Given>,
        term: NodeId,
    ) -> Option<TermId> {
        let by = indices.unwrap_or(&self.given);
        let closure = &mut self.grounds.closure;
        let found = translate(page.alloc(), closure, &scene.work.pool, by, term);
        page.got(found)?
    }

    /// Puts a left event's arguments for the query's variables.
    fn put_arguments(&mut self, page: &mut Page, scene: Scene, event: Event, wanted: &[NodeId]) {
        let indices = self.indices(page, scene, event.last, None);
        let there = items_of(page, &scene.work.pool, event.arguments);
        for (m, n) in wanted.iter().zip(&there) {
            let term = self.translated(page, scene, Some(&indices), *n);
            if let (Some(x), Some(term)) = (name_of(scene.work, *m), term) {
                let done = self.given.add(x, term);
                page.note(done);
            }
        }
    }

    /// Whether what a query asks for can be told: it is no variable of the query for which nothing stands.
    fn is_given(&self, work: &Work, wanted: NodeId) -> bool {
        match name_of(work, wanted) {
            Some(x) => self.given.get(x).is_some(),
            None => true,
        }
    }

    /// Whether two terms are known to be equal.
    fn are_equal(&mut self, page: &mut Page, scene: Scene, here: TermId, asked: TermId) -> bool {
        let done = self.grounds.closure.saturate(scene.theory);
        page.note(done);
        self.grounds.closure.are_equal(here, asked)
    }

    /// Says of an argument of a candidate that it isn't known to be what the query asks for; whether it isn't.
    fn say_target(
        &mut self,
        page: &mut Page,
        scene: Scene,
        indices: &Given,
        pair: (NodeId, NodeId),
        is_first: bool,
    ) -> bool {
        let (wanted, there) = pair;
        let here = self.translated(page, scene, Some(indices), there);
        let asked = if self.is_given(scene.work, wanted) {
            self.translated(page, scene, None, wanted)
        } else {
            None
        };
        let (Some(here), Some(asked)) = (here, asked) else {
            return false;
        };
        if self.are_equal(page, scene, here, asked) {
            return false;
        }
        let words = if is_first { ": not derived (" } else { ", (" };
        say_closed(page, words, scene.work, &self.grounds.closure, here);
        say_closed(page, " = ", scene.work, &self.grounds.closure, asked);
        page.say(")");
        true
    }

    /// Says before which cell something stands, or that it stands above.
    fn say_cell(&self, page: &mut Page, scene: Scene, cell: Option<usize>) {
        let closure = &self.grounds.closure;
        let Some(k) = cell else {
            return page.say(", above");
        };
        if let Some(there) = closure.cells().get(k) {
            say_closed(page, ", before the cell ", scene.work, closure, there.term);
        }
    }

    /// Says what of a candidate isn't known.
    fn say_candidate(
        &mut self,
        page: &mut Page,
        scene: Scene,
        candidate: Candidate,
        wanted: Option<NodeId>,
    ) {
        page.number("      it stands at ", u64::from(candidate.place));
        self.say_cell(page, scene, candidate.cell);
        let indices = self.indices(page, scene, candidate.last, candidate.cell);
        let asked = items_of(page, &scene.work.pool, wanted);
        let there = items_of(page, &scene.work.pool, candidate.arguments);
        let mut is_first = true;
        for (m, n) in asked.iter().zip(&there) {
            if self.say_target(page, scene, &indices, (*m, *n), is_first) {
                is_first = false;
            }
        }
        page.say(if is_first {
            ": its arguments are those that are asked for\n"
        } else {
            "\n"
        });
    }

    /// Says of a right event where it was looked for.
    fn say_event(
        &mut self,
        page: &mut Page,
        scene: Scene,
        event: u32,
        arguments: Option<NodeId>,
        last: u32,
    ) {
        page.event("    wanted event ", scene.work, event, arguments);
        page.say("\n");
        let candidates = self.candidates(page, scene, event, last);
        if candidates.is_empty() {
            page.say(
                "      no such event stands above, and none before a cell that is defined here",
            );
            say_places_of(page, scene, event);
        }
        for candidate in candidates.iter().take(MOST) {
            self.say_candidate(page, scene, *candidate, arguments);
        }
    }

    /// Says of a right term whether it is known.
    fn say_term(&mut self, page: &mut Page, scene: Scene, n: NodeId) {
        page.say("    wanted ");
        page.term(scene.work, n);
        let term = self.translated(page, scene, None, n);
        let done = self.grounds.closure.saturate(scene.theory);
        page.note(done);
        page.say(match term {
            Some(t) if self.grounds.closure.is_true(t) => ": it is known\n",
            _ => ": it isn't derived\n",
        });
    }

    /// Says of a right side, by its nodes, what isn't known of its events and terms; the terms of its events are no such terms.
    fn say_rights(&mut self, page: &mut Page, scene: Scene, rights: &[NodeId], last: u32) {
        for n in rights {
            match open(&scene.work.pool, *n) {
                Some(node) => match node.head {
                    Head::Occurs(event) | Head::OccursOnce(event) => {
                        self.say_event(page, scene, event, node.first, last);
                    }
                    _ => self.say_term(page, scene, *n),
                },
                None => {}
            }
        }
    }
}

/// The events and terms of a right side, those of all alternatives.
fn atoms_of(page: &mut Page, work: &Work, rights: Option<NodeId>) -> Vec<NodeId> {
    let mut atoms = Vec::new(page.alloc());
    let mut left = Vec::new(page.alloc());
    page.push(&mut left, rights);
    for _ in 0..MOST {
        let Some(next) = left.pop() else {
            return atoms;
        };
        let Some(n) = next else { continue };
        match open(&work.pool, n) {
            Some(node) if matches!(node.head, Head::Cons | Head::SomeOf) => {
                page.push(&mut left, node.second);
                page.push(&mut left, node.first);
            }
            _ => page.push(&mut atoms, n),
        }
    }
    atoms
}

/// Says what stands for the variables of a query at a place of its left event.
fn say_given(page: &mut Page, work: &Work, wanted: &[NodeId], there: &[NodeId]) {
    let mut is_first = true;
    for (m, n) in wanted.iter().zip(there) {
        page.say(if is_first { "    with " } else { ", " });
        page.term(work, *m);
        page.say(" for ");
        page.term(work, *n);
        is_first = false;
    }
    page.say(if is_first { "" } else { "\n" });
}

/// Says of a place of the left event of a query what is known there, and what isn't.
fn say_place(page: &mut Page, scene: Scene, event: Event, wanted: &[NodeId], rights: &[NodeId]) {
    let work = scene.work;
    scene.listing.say_place(page, "  ", work, event.place);
    page.say("\n");
    let there = items_of(page, &work.pool, event.arguments);
    say_given(page, work, wanted, &there);
    let around = above_of(page, &work.pool, scene.game.root, event.place);
    say_facts(page, work, scene.game, event.place, &around);
    say_defined(page, work, scene.survey, event.last, &around);
    let grounds = Grounds::at(
        page.alloc(),
        &work.pool,
        scene.survey,
        scene.theory,
        event.last,
        EFFORT,
    );
    let Some(grounds) = page.got(grounds) else {
        return;
    };
    if grounds.closure.is_contradictory() {
        return page.say("    what is known here contradicts itself: no run comes here\n");
    }
    let mut search = Search {
        grounds,
        given: Given::new(page.alloc()),
    };
    search.put_arguments(page, scene, event, wanted);
    search.say_rights(page, scene, rights, event.last);
}

/// Says of each place of the left event of a query what is known there, and what isn't; whether there is such a place.
fn say_all_places(
    page: &mut Page,
    scene: Scene,
    event: u32,
    wanted: &[NodeId],
    rights: &[NodeId],
) -> bool {
    let mut is_there = false;
    for there in scene.survey.events().iter().take(MOST) {
        if there.event == event {
            is_there = true;
            say_place(page, scene, *there, wanted, rights);
        }
    }
    is_there
}

/// Says why a correspondence is open.
fn say_correspondence(page: &mut Page, scene: Scene, both: Opened) {
    let work = scene.work;
    let Some(left) = opened(&work.pool, both.first) else {
        return;
    };
    let (Head::Occurs(event) | Head::OccursOnce(event)) = left.head else {
        return;
    };
    let rights = atoms_of(page, work, both.second);
    let wanted = items_of(page, &work.pool, left.first);
    if !say_all_places(page, scene, event, &wanted, &rights) {
        page.say("  no place of this game executes its left event\n");
    }
    if let Head::OccursOnce(_) = left.head {
        page.say(
            "  it is injective: besides, two left events with one right event have to be one; see docs/FORMATS.md, Closing a query\n",
        );
    }
}

/// Says where a variable is read.
fn say_reads(page: &mut Page, scene: Scene, x: u32) {
    let mut count = 0_usize;
    for (place, _n, node) in scene.listing.nodes() {
        match node.head {
            Head::Leaf(y) | Head::Read(y) if x == y && count < MOST => {
                count = count.saturating_add(1);
                scene.listing.say_place(page, "  read ", scene.work, *place);
                page.say("\n");
            }
            _ => {}
        }
    }
}

/// Says why a query of secrecy is open.
fn say_secrecy(page: &mut Page, scene: Scene, x: u32) {
    let work = scene.work;
    page.quote("  it asks for the secrecy of ", &work.names, x);
    page.say(
        ": each definition of it is to be a `new` and never read, or a `let` that copies such a variable\n",
    );
    for (site, _kind) in &sites_of(page, &work.pool, scene.game.root, x) {
        scene.listing.say_place(page, "  defined ", work, *site);
        page.say("\n");
    }
    say_reads(page, scene, x);
}

/// Says why a query is open in a game.
pub fn say_open(page: &mut Page, scene: Scene, query: NodeId) {
    let pool = &scene.work.pool;
    let Some(node) = open(pool, query) else {
        return;
    };
    match node.head {
        Head::Query => {
            if let Some(both) = opened(pool, node.second) {
                say_correspondence(page, scene, both);
            }
        }
        Head::Secret(x) | Head::SecretOnce(x) => say_secrecy(page, scene, x),
        _ => {}
    }
}
