// What is known at each place of a game, the sites of variables, the arrays that are chosen at random, the events, the definitions by
// terms, and the bodies of tests.
use crate::nodes::{binders, items, open};
use cv_scope_rules::Position;
use cv_syntax::{Game, Head, NodeId, Opened, Pool};
use std::alloc::{AllocError, Global};
use std::collections::{HashMap, HashSet};

/// What a construct gives to the places below it.
#[derive(Clone, Copy)]
pub enum Known {
    /// The index of a replication.
    Index(u32),
    /// A cell of a `defined` list.
    Cell(NodeId),
    /// A variable is chosen at random.
    Chosen(u32),
    /// A variable, at the current indices, is equal to a term.
    Equal {
        variable: u32,
        term: NodeId,
    },
    /// A condition holds.
    Holds(NodeId),
    /// A condition doesn't hold.
    Fails(NodeId),
    /// An event was executed.
    Event {
        event: u32,
        place: u32,
        arguments: Option<NodeId>,
    },
}

/// What is known at a place: the newest, how many facts and how many indices there are with it, and the link to what is known
/// besides, counted from 1, or 0.
#[derive(Clone, Copy)]
pub struct Link {
    pub known: Known,
    pub facts: u32,
    pub indices: u32,
    before: u32,
}

/// The definitions of a variable that were seen: whether there is one alone, what is known behind the last one, and the type of which
/// all of them choose at random, where they do.
#[derive(Clone, Copy)]
struct Site {
    is_only: bool,
    last: u32,
    choice: Option<u32>,
}

/// An event of a game: its name, its place, its arguments, and what is known there.
#[derive(Clone, Copy)]
pub struct Event {
    pub event: u32,
    pub place: u32,
    pub arguments: Option<NodeId>,
    pub last: u32,
}

/// A definition of a variable by a term: the variable, its place, the term, and what is known there.
#[derive(Clone, Copy)]
pub struct Definition {
    pub variable: u32,
    pub place: u32,
    pub term: Option<NodeId>,
    pub last: u32,
}

/// Which body of a test: one of an `if`, or that of the branch of a number, from 1.
#[derive(Clone, Copy)]
pub enum Side {
    Then,
    Else,
    Branch(u32),
}

/// A body of a test: the place of the test, which body it is, and what is known there.
#[derive(Clone, Copy)]
pub struct Part {
    pub place: u32,
    pub side: Side,
    pub last: u32,
}

/// A node on the way: what the tree is for the node above, what is known there, the condition of the `if` around, the indices of
/// the branch around, the place of the test around, and the number of its branch, from 1.
#[derive(Clone, Copy)]
struct Walk {
    position: Position,
    last: u32,
    tested: Option<NodeId>,
    own: Option<NodeId>,
    test: u32,
    branch: u32,
}

/// What is known at each place of a game. A link that isn't there stands for nothing known.
#[derive(Drop)]
pub struct Survey {
    alloc: Global,
    links: Vec<Link>,
    sites: HashMap<u32, Site>,
    arrays: Vec<u32>,
    events: Vec<Event>,
    definitions: Vec<Definition>,
    parts: Vec<Part>,
    place: u32,
}

impl Survey {
    /// The survey of a game.
    pub fn of(alloc: Global, pool: &Pool, game: Game) -> Result<Survey, AllocError> {
        let mut survey = Survey {
            alloc,
            links: Vec::new(alloc),
            sites: HashMap::new(alloc),
            arrays: Vec::new(alloc),
            events: Vec::new(alloc),
            definitions: Vec::new(alloc),
            parts: Vec::new(alloc),
            place: 0,
        };
        let walk = Walk {
            position: Position::Anywhere,
            last: 0,
            tested: None,
            own: None,
            test: 0,
            branch: 0,
        };
        survey.walk(pool, game.root, walk)?;
        Ok(survey)
    }

    /// The events, in the order of their places.
    pub fn events(&self) -> &[Event] {
        &self.events
    }

    /// The definitions by terms, in the order of their places.
    pub fn definitions(&self) -> &[Definition] {
        &self.definitions
    }

    /// The bodies of tests, in the order of their places.
    pub fn parts(&self) -> &[Part] {
        &self.parts
    }

    /// What is known behind the only definition of a variable, where there is one alone.
    pub fn site(&self, variable: u32) -> Option<u32> {
        match self.sites.get(&variable) {
            Some(site) if site.is_only => Some(site.last),
            _ => None,
        }
    }

    /// The link of this number.
    fn link(&self, number: u32) -> Option<Link> {
        if number == 0 {
            return None;
        }
        self.links.get(number as usize - 1).copied()
    }

    /// What is known, from the newest to the oldest: choices at random alone, or all else.
    fn chain(&self, last: u32, are_choices: bool) -> Result<Vec<Link>, AllocError> {
        let mut links = Vec::new(self.alloc);
        let mut number = last;
        for _ in 0..self.links.len() {
            let Some(link) = self.link(number) else {
                return Ok(links);
            };
            if matches!(link.known, Known::Chosen(_)) == are_choices {
                links.push(link)?;
            }
            number = link.before;
        }
        Ok(links)
    }

    /// All that is known but for choices at random, from the newest to the oldest.
    pub fn known(&self, last: u32) -> Result<Vec<Link>, AllocError> {
        self.chain(last, false)
    }

    /// The choices at random that are known, from the newest to the oldest.
    pub fn choices(&self, last: u32) -> Result<Vec<Link>, AllocError> {
        self.chain(last, true)
    }

    /// Whether all definitions of a variable choose at random, of one type.
    pub fn is_random(&self, variable: u32) -> bool {
        match self.sites.get(&variable) {
            Some(site) => site.choice.is_some(),
            None => false,
        }
    }

    /// Whether all definitions of a variable choose at random of one of these types.
    fn is_choice_of(&self, variable: u32, types: &HashSet<u32>) -> bool {
        match self.sites.get(&variable) {
            Some(site) => match site.choice {
                Some(ty) => types.contains(&ty),
                None => false,
            },
            None => false,
        }
    }

    /// The arrays, in the order of their first definitions, all of whose definitions choose at random of one of these types.
    pub fn random_arrays(&self, types: &HashSet<u32>) -> Result<Vec<u32>, AllocError> {
        let mut arrays = Vec::new(self.alloc);
        for array in &self.arrays {
            if self.is_choice_of(*array, types) {
                arrays.push(*array)?;
            }
        }
        Ok(arrays)
    }

    /// How many facts and indices there are with a link.
    fn counts(&self, last: u32) -> (u32, u32) {
        match self.link(last) {
            Some(link) => (link.facts, link.indices),
            None => (0, 0),
        }
    }

    /// Adds what is known to what is known besides.
    fn add(&mut self, before: u32, known: Known) -> Result<u32, AllocError> {
        let (mut facts, mut indices) = self.counts(before);
        match known {
            Known::Equal { .. } | Known::Holds(_) | Known::Fails(_) => facts = facts.saturating_add(
                1,
            ),
            Known::Index(_) => indices = indices.saturating_add(1),
            _ => {}
        }
        self.links.push(Link {
            known,
            facts,
            indices,
            before,
        })?;
        Ok(u32::try_from(self.links.len()).unwrap_or(0))
    }

    /// Adds a condition that is known, where there is one.
    fn add_condition(
        &mut self,
        before: u32,
        condition: Option<NodeId>,
        holds: bool,
    ) -> Result<u32, AllocError> {
        match condition {
            Some(n) if holds => self.add(before, Known::Holds(n)),
            Some(n) => self.add(before, Known::Fails(n)),
            None => Ok(before),
        }
    }

    /// Notes a definition of a variable, with the type of which it chooses at random, where it does.
    fn note(&mut self, variable: u32, last: u32, ty: Option<u32>) -> Result<(), AllocError> {
        let (is_only, choice) = match self.sites.get(&variable) {
            Some(site) if site.choice == ty => (false, ty),
            Some(_) => (false, None),
            None => (true, ty),
        };
        let site = Site {
            is_only,
            last,
            choice,
        };
        self.sites.insert(variable, site)?;
        Ok(())
    }

    /// Adds a choice at random of a variable.
    fn choose(&mut self, before: u32, variable: u32, ty: u32) -> Result<u32, AllocError> {
        let (_facts, indices) = self.counts(before);
        if indices > 0 && self.sites.get(&variable).is_none() {
            self.arrays.push(variable)?;
        }
        let last = self.add(before, Known::Chosen(variable))?;
        self.note(variable, last, Some(ty))?;
        Ok(last)
    }

    /// Notes a definition of each variable of a list of binders.
    fn note_all(&mut self, pool: &Pool, list: Option<NodeId>, last: u32) -> Result<(), AllocError> {
        for variable in &binders(self.alloc, pool, list)? {
            self.note(*variable, last, None)?;
        }
        Ok(())
    }

    /// Adds the cells of a `defined` list.
    fn add_cells(
        &mut self,
        pool: &Pool,
        before: u32,
        list: Option<NodeId>,
    ) -> Result<u32, AllocError> {
        let mut last = before;
        for cell in &items(self.alloc, pool, list)? {
            last = self.add(last, Known::Cell(*cell))?;
        }
        Ok(last)
    }

    /// Notes a body of a test.
    fn note_part(&mut self, walk: Walk, side: Side, last: u32) -> Result<(), AllocError> {
        let place = walk.test;
        self.parts.push(Part { place, side, last })?;
        Ok(())
    }

    /// What is known in a body of an `if`, which is noted.
    fn body(&mut self, walk: Walk, side: Side, holds: bool) -> Result<u32, AllocError> {
        let last = self.add_condition(walk.last, walk.tested, holds)?;
        self.note_part(walk, side, last)?;
        Ok(last)
    }

    /// How the walk goes on at the first child of a node at this place.
    fn first(&mut self, walk: Walk, node: Opened, place: u32) -> Result<Walk, AllocError> {
        let mut inside = Walk {
            position: walk.position.first(node.head),
            ..walk
        };
        match (node.head, walk.position) {
            (Head::Cons, Position::Bodies) => inside.last = self.body(walk, Side::Then, true)?,
            (Head::Cons, Position::ElseBody) => inside.last = self.body(walk, Side::Else, false)?,
            (Head::Find(_), _) => {
                inside.test = place;
                inside.branch = 1;
            }
            _ => {}
        }
        Ok(inside)
    }

    /// What is known at the rest of a list.
    fn rest(&mut self, pool: &Pool, walk: Walk, node: Opened) -> Result<u32, AllocError> {
        match walk.position {
            Position::Guards => self.add_cells(pool, walk.last, node.first),
            Position::Guarded => {
                let last = self.add_condition(walk.last, node.first, true)?;
                self.note_part(walk, Side::Branch(walk.branch), last)?;
                self.note_all(pool, walk.own, last)?;
                Ok(last)
            }
            _ => Ok(walk.last),
        }
    }

    /// Adds the definition of a variable by a term.
    fn define(
        &mut self,
        before: u32,
        variable: u32,
        term: Option<NodeId>,
    ) -> Result<u32, AllocError> {
        let last = match term {
            Some(term) => self.add(before, Known::Equal { variable, term })?,
            None => before,
        };
        self.note(variable, last, None)?;
        Ok(last)
    }

    /// What is known at a node's second child.
    fn behind(
        &mut self,
        pool: &Pool,
        walk: Walk,
        node: Opened,
        place: u32,
    ) -> Result<u32, AllocError> {
        match node.head {
            Head::Cons => self.rest(pool, walk, node),
            Head::Repl(index, _) => self.add(walk.last, Known::Index(index)),
            Head::In(_) => {
                let list = node.first.and_then(|n| open(pool, n));
                if let Some(inputs) = list {
                    self.note_all(pool, inputs.second, walk.last)?;
                }
                Ok(walk.last)
            }
            Head::New(variable, ty) => self.choose(walk.last, variable, ty),
            Head::Let(variable, _) => self.define(walk.last, variable, node.first),
            Head::Event(event) => {
                let arguments = node.first;
                self.add(
                    walk.last,
                    Known::Event {
                        event,
                        place,
                        arguments,
                    },
                )
            }
            _ => Ok(walk.last),
        }
    }

    /// How the walk goes on at a node's second child.
    fn second(
        &mut self,
        pool: &Pool,
        walk: Walk,
        node: Opened,
        place: u32,
    ) -> Result<Walk, AllocError> {
        let mut next = Walk {
            position: walk.position.second(node.head),
            last: self.behind(pool, walk, node, place)?,
            ..walk
        };
        match (node.head, walk.position) {
            (Head::If, _) => {
                next.tested = node.first;
                next.test = place;
            }
            (Head::Branch, _) => next.own = node.first,
            (Head::Cons, Position::Branches) => next.branch = walk.branch.saturating_add(1),
            _ => {}
        }
        Ok(next)
    }

    /// Notes an event, or a definition by a term, at its place.
    fn visit(&mut self, walk: Walk, node: Opened) -> Result<(), AllocError> {
        let (place, last) = (self.place, walk.last);
        match node.head {
            Head::Event(event) => {
                let arguments = node.first;
                self.events.push(Event {
                    event,
                    place,
                    arguments,
                    last,
                })?;
            }
            Head::Let(variable, _) => {
                let term = node.first;
                self.definitions.push(Definition {
                    variable,
                    place,
                    term,
                    last,
                })?;
            }
            _ => {}
        }
        Ok(())
    }

    /// Walks over a tree.
    fn walk(&mut self, pool: &Pool, start: NodeId, from: Walk) -> Result<(), AllocError> {
        let mut at = Some(start);
        let mut walk = from;
        for _ in 0..pool.live() {
            let Some(n) = at else {
                return Ok(());
            };
            let Some(node) = open(pool, n) else {
                return Ok(());
            };
            let place = self.place;
            self.visit(walk, node)?;
            self.place = self.place.saturating_add(node.head.weight());
            if let Some(child) = node.first {
                if child.0 >= start.0 {
                    return Ok(());
                }
                let inside = self.first(walk, node, place)?;
                self.walk(pool, child, inside)?;
            }
            walk = self.second(pool, walk, node, place)?;
            at = node.second;
        }
        Ok(())
    }
}
