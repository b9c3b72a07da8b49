// One walk over a game, which collects what settling steps may be of.
use crate::comparisons::{Comparison, Scope, comparison_at};
use crate::facts::{Citation, Equated, Facts, is_name};
use crate::variables::{Site, Variables};
use cv_grounds::{binders, items, open};
use cv_scope_rules::Position;
use cv_settling_lateness::Lateness;
use cv_step_writer::Body;
use cv_syntax::{Head, NodeId, Opened, Pool};
use std::alloc::{AllocError, Global};
use std::collections::HashMap;

/// Why a body is not reached.
#[derive(Drop)]
pub enum Why {
    /// Its own fact is `false`, or the negation of `true`.
    Alone,
    /// Its own fact is the negation of this conjunct.
    Held(Citation),
    /// This conjunct is the negation of its own fact.
    Denied(Citation),
    /// Its list has this cell, whose only definition may be one that is not reached.
    Cell(NodeId),
    /// Its list has this cell of a variable that comes later, at the current indices: of each of its index terms that isn't one, the
    /// equation.
    Late { cell: NodeId, indices: Vec<Equated> },
}

/// A body that may be dropped: the place of its test, which body it is, the condition, the tree that goes, which is the body of an
/// `if` or a branch, the number of the body's own fact, and why it is not reached.
#[derive(Drop)]
pub struct Pruning {
    pub place: u32,
    pub body: Body,
    pub condition: NodeId,
    pub dropped: NodeId,
    pub fact: u64,
    pub why: Why,
}

/// A node of a game at its place.
#[derive(Clone, Copy)]
pub struct Placed {
    pub place: u32,
    pub node: NodeId,
}

/// A definition of a variable where `false` is known: where it stands, and the indices that are current there.
#[derive(Drop)]
pub struct Falsehood {
    pub citation: Citation,
    pub indices: Vec<u32>,
}

/// The parts of an `if`.
#[derive(Clone, Copy)]
struct Test {
    condition: NodeId,
    then_body: NodeId,
    else_body: NodeId,
}

/// The parts of a branch.
#[derive(Clone, Copy)]
pub struct Branch {
    pub indices: Option<NodeId>,
    pub cells: Option<NodeId>,
    pub condition: NodeId,
    pub body: NodeId,
}

/// The parts of an `if`.
fn test_of(pool: &Pool, node: Opened) -> Option<Test> {
    let bodies = open(pool, node.second?)?;
    let rest = open(pool, bodies.second?)?;
    Some(Test {
        condition: node.first?,
        then_body: bodies.first?,
        else_body: rest.first?,
    })
}

/// The parts of a branch.
pub fn branch_of(pool: &Pool, n: NodeId) -> Option<Branch> {
    let branch = open(pool, n)?;
    let guards = open(pool, branch.second?)?;
    let guarded = open(pool, guards.second?)?;
    Some(Branch {
        indices: branch.first,
        cells: guards.first,
        condition: guarded.first?,
        body: guarded.second?,
    })
}

/// Whether a term is `false`.
fn is_false(pool: &Pool, n: NodeId) -> bool {
    match open(pool, n) {
        Some(node) => match node.head {
            Head::No => true,
            _ => false,
        },
        None => false,
    }
}

/// Whether a term has parts.
fn is_compound(head: Head) -> bool {
    match head {
        Head::Read(_) | Head::Apply(_) | Head::Eq | Head::And | Head::Or | Head::Not => true,
        _ => false,
    }
}

/// A node on the way: what the tree is for the node above, the condition of the `if` around, the indices of the branch around;
/// whether the node is that of a channel, whether a term there may be rewritten, and whether it is in a condition of a `find`.
#[derive(Clone, Copy)]
struct Walk {
    position: Position,
    tested: Option<NodeId>,
    own: Option<NodeId>,
    is_channel: bool,
    is_rewritable: bool,
    in_condition: bool,
}

/// What a walk over a game collects, each in the order of places: its variables, the bodies that may be dropped, the tests whose
/// bodies are equal, the terms that may be rewritten, the equalities among them, and the definitions where `false` is known, with the last
/// one of a variable.
#[derive(Drop)]
pub struct Overview {
    alloc: Global,
    pub variables: Variables,
    pub prunings: Vec<Pruning>,
    pub mergers: Vec<Placed>,
    pub terms: Vec<Placed>,
    pub comparisons: Vec<Comparison>,
    falsehoods: Vec<Falsehood>,
    unreached: HashMap<u32, usize>,
    lateness: Lateness,
    facts: Facts,
    scope: Scope,
    place: u32,
}

impl Overview {
    /// The overview of a game.
    pub fn of(alloc: Global, pool: &Pool, game: NodeId) -> Result<Overview, AllocError> {
        let mut overview = Overview {
            alloc,
            variables: Variables::new(alloc),
            prunings: Vec::new(alloc),
            mergers: Vec::new(alloc),
            terms: Vec::new(alloc),
            comparisons: Vec::new(alloc),
            falsehoods: Vec::new(alloc),
            unreached: HashMap::new(alloc),
            lateness: Lateness::of(alloc, pool, game)?,
            facts: Facts::new(alloc),
            scope: Scope::new(alloc),
            place: 0,
        };
        let walk = Walk {
            position: Position::Anywhere,
            tested: None,
            own: None,
            is_channel: false,
            is_rewritable: true,
            in_condition: false,
        };
        overview.walk(pool, game, walk)?;
        Ok(overview)
    }

    /// The only definition of a variable, where `false` is known there.
    pub fn falsehood(&self, x: u32) -> Option<&Falsehood> {
        if self.variables.get(x).sites != 1 {
            return None;
        }
        match self.unreached.get(&x) {
            Some(k) => self.falsehoods.get(*k),
            None => None,
        }
    }

    /// Why what stands behind a condition is not reached, where that is known.
    fn why_not(&self, pool: &Pool, condition: NodeId) -> Result<Option<Why>, AllocError> {
        let Some(node) = open(pool, condition) else {
            return Ok(None);
        };
        if let Head::No = node.head {
            return Ok(Some(Why::Alone));
        }
        if let Some(found) = self.facts.denying(condition)? {
            return Ok(Some(Why::Denied(found)));
        }
        let Head::Not = node.head else {
            return Ok(None);
        };
        let Some(inner) = node.first else {
            return Ok(None);
        };
        match self.facts.holding(pool, inner)? {
            Some(found) => Ok(Some(Why::Held(found))),
            None => Ok(None),
        }
    }

    /// Why what stands behind the negation of a condition is not reached, where that is known.
    fn why_always(&self, pool: &Pool, condition: NodeId) -> Result<Option<Why>, AllocError> {
        let Some(node) = open(pool, condition) else {
            return Ok(None);
        };
        if let Head::Yes = node.head {
            return Ok(Some(Why::Alone));
        }
        match self.facts.holding(pool, condition)? {
            Some(found) => Ok(Some(Why::Held(found))),
            None => Ok(None),
        }
    }

    /// Notes a body that may be dropped.
    fn note_pruning(
        &mut self,
        body: Body,
        condition: NodeId,
        dropped: NodeId,
        why: Why,
    ) -> Result<(), AllocError> {
        let fact = self.facts.count().saturating_add(1);
        self.prunings.push(Pruning {
            place: self.place,
            body,
            condition,
            dropped,
            fact,
            why,
        })?;
        Ok(())
    }

    /// Notes what may be done with an `if`.
    fn note_test(&mut self, pool: &Pool, n: NodeId, node: Opened) -> Result<(), AllocError> {
        let Some(test) = test_of(pool, node) else {
            return Ok(());
        };
        if let Some(why) = self.why_not(pool, test.condition)? {
            self.note_pruning(Body::Then, test.condition, test.then_body, why)?;
        }
        if let Some(why) = self.why_always(pool, test.condition)? {
            self.note_pruning(Body::Else, test.condition, test.else_body, why)?;
        }
        if test.then_body == test.else_body {
            let place = self.place;
            self.mergers.push(Placed { place, node: n })?;
        }
        Ok(())
    }

    /// The equations of the index terms of a cell with the current indices, of those that are no current index themselves. There are
    /// none where for some index term no equation is a fact.
    fn current_indices(
        &mut self,
        pool: &Pool,
        cell: NodeId,
    ) -> Result<Option<Vec<Equated>>, AllocError> {
        let mut equations = Vec::new(self.alloc);
        let Some(node) = open(pool, cell) else {
            return Ok(None);
        };
        let terms = items(self.alloc, pool, node.first)?;
        if terms.len() > self.facts.indices().len() {
            return Ok(None);
        }
        for (term, index) in terms.iter().zip(self.facts.indices()) {
            if !is_name(pool, Some(*term), *index) {
                let equated = self.facts.equating(pool, *term, *index)?;
                let Some(equated) = equated else {
                    return Ok(None);
                };
                equations.push(equated)?;
            }
        }
        Ok(Some(equations))
    }

    /// Whether a cell is one of a variable that comes later, and not an index of the branch.
    fn is_late(&mut self, pool: &Pool, branch: Branch, cell: NodeId) -> Result<bool, AllocError> {
        let Some(node) = open(pool, cell) else {
            return Ok(false);
        };
        let x = match node.head {
            Head::Leaf(x) | Head::Read(x) => x,
            _ => return Ok(false),
        };
        if !self.lateness.is_late(pool, x, self.place) {
            return Ok(false);
        }
        let own = binders(self.alloc, pool, branch.indices)?;
        Ok(!own.contains(&x))
    }

    /// Notes that a branch may be dropped, where a cell of its list comes later.
    fn note_late_cell(
        &mut self,
        pool: &Pool,
        number: u64,
        n: NodeId,
        branch: Branch,
        cell: NodeId,
    ) -> Result<(), AllocError> {
        if !self.is_late(pool, branch, cell)? {
            return Ok(());
        }
        let before = self.facts.mark();
        self.facts.hold(pool, branch.condition)?;
        let indices = self.current_indices(pool, cell)?;
        self.facts.release(before);
        match indices {
            Some(indices) => {
                let why = Why::Late { cell, indices };
                self.note_pruning(Body::Branch(number), branch.condition, n, why)
            }
            None => Ok(()),
        }
    }

    /// Notes why a branch may be dropped.
    fn note_branch(
        &mut self,
        pool: &Pool,
        number: u64,
        n: NodeId,
        branch: Branch,
    ) -> Result<(), AllocError> {
        let condition = branch.condition;
        if is_false(pool, condition) {
            return self.note_pruning(Body::Branch(number), condition, n, Why::Alone);
        }
        for cell in &items(self.alloc, pool, branch.cells)? {
            self.note_pruning(Body::Branch(number), condition, n, Why::Cell(*cell))?;
            self.note_late_cell(pool, number, n, branch, *cell)?;
        }
        Ok(())
    }

    /// Notes what may be done with a `find`.
    fn note_search(&mut self, pool: &Pool, n: NodeId, node: Opened) -> Result<(), AllocError> {
        let Some(otherwise) = node.second else {
            return Ok(());
        };
        let mut are_equal = true;
        let mut number = 0_u64;
        for item in &items(self.alloc, pool, node.first)? {
            let Some(branch) = branch_of(pool, *item) else {
                return Ok(());
            };
            number = number.saturating_add(1);
            self.note_branch(pool, number, *item, branch)?;
            if branch.body != otherwise {
                are_equal = false;
            }
        }
        if are_equal {
            let place = self.place;
            self.mergers.push(Placed { place, node: n })?;
        }
        Ok(())
    }

    /// Notes that a name stands at a node.
    fn note_name(&mut self, walk: Walk, x: u32) -> Result<(), AllocError> {
        match walk.position {
            Position::OneCell => self.variables.note_cell(x),
            _ => self.variables.note_read(x, walk.in_condition),
        }
    }

    /// Notes an equality.
    fn note_comparison(&mut self, pool: &Pool, node: Opened) -> Result<(), AllocError> {
        if let Head::Eq = node.head {
            let at = self.place;
            let seen = comparison_at(self.alloc, &self.scope, &self.facts, pool, at, node)?;
            self.comparisons.push(seen)?;
        }
        Ok(())
    }

    /// Notes what is at a node.
    fn visit(
        &mut self,
        pool: &Pool,
        walk: Walk,
        n: NodeId,
        node: Opened,
    ) -> Result<(), AllocError> {
        if walk.is_rewritable && is_compound(node.head) {
            let place = self.place;
            self.terms.push(Placed { place, node: n })?;
            self.note_comparison(pool, node)?;
        }
        match node.head {
            Head::If => self.note_test(pool, n, node),
            Head::Find(_) => self.note_search(pool, n, node),
            Head::Leaf(x) | Head::Read(x) => self.note_name(walk, x),
            _ => Ok(()),
        }
    }

    /// Notes a definition.
    fn note_site(&mut self, x: u32, site: Site) -> Result<(), AllocError> {
        let indices = self.facts.indices();
        let count = u32::try_from(indices.len()).unwrap_or(u32::MAX);
        self.variables.note_site(x, site, count)?;
        let chosen = match site {
            Site::Restriction(t) => Some(t),
            _ => None,
        };
        self.scope.add(x, chosen)?;
        if let Some(citation) = self.facts.falsity()? {
            let indices = Vec::from_slice(self.alloc, self.facts.indices())?;
            self.unreached.insert(x, self.falsehoods.len())?;
            self.falsehoods.push(Falsehood { citation, indices })?;
        }
        Ok(())
    }

    /// Notes the definitions of a list of binders.
    fn note_binders(
        &mut self,
        pool: &Pool,
        list: Option<NodeId>,
        are_indices: bool,
    ) -> Result<(), AllocError> {
        let mut at = list;
        for _ in 0..pool.live() {
            let Some(cell) = at.and_then(|n| open(pool, n)) else {
                return Ok(());
            };
            if let Head::Binder(x, t) = cell.head {
                let site = if are_indices {
                    Site::Index
                } else {
                    Site::Received(t)
                };
                self.note_site(x, site)?;
            }
            at = cell.second;
        }
        Ok(())
    }

    /// Adds what is known behind a node, and notes what it defines.
    fn define(&mut self, pool: &Pool, walk: Walk, node: Opened) -> Result<(), AllocError> {
        match node.head {
            Head::Repl(index, _) => {
                self.facts.add_index(index)?;
                self.scope.add(index, None)
            }
            Head::In(_) => {
                let Some(list) = node.first.and_then(|n| open(pool, n)) else {
                    return Ok(());
                };
                self.note_binders(pool, list.second, false)
            }
            Head::New(x, t) => self.note_site(x, Site::Restriction(t)),
            Head::Let(x, t) => {
                if let Some(term) = node.first {
                    self.facts.assign(x, term)?;
                }
                self.note_site(x, Site::Assignment(t, node.first))
            }
            Head::Cons => self.define_indices(pool, walk, node),
            _ => Ok(()),
        }
    }

    /// Adds the condition of a branch in front of its body, and notes its indices.
    fn define_indices(&mut self, pool: &Pool, walk: Walk, node: Opened) -> Result<(), AllocError> {
        let Position::Guarded = walk.position else {
            return Ok(());
        };
        if let Some(condition) = node.first {
            self.facts.hold(pool, condition)?;
        }
        self.note_binders(pool, walk.own, true)
    }

    /// How the walk goes on at a node's first child.
    fn first(&mut self, pool: &Pool, walk: Walk, node: Opened) -> Result<Walk, AllocError> {
        let position = walk.position.first(node.head);
        let mut inside = Walk {
            position,
            is_channel: false,
            ..walk
        };
        match node.head {
            Head::In(_) | Head::Out(_) => inside.is_channel = true,
            Head::Read(_) => inside.is_rewritable = false,
            Head::Cons => self.first_of_list(pool, walk, &mut inside)?,
            _ => {}
        }
        Ok(inside)
    }

    /// How the walk goes on at the first item of a list.
    fn first_of_list(
        &mut self,
        pool: &Pool,
        walk: Walk,
        inside: &mut Walk,
    ) -> Result<(), AllocError> {
        if walk.is_channel {
            inside.is_rewritable = false;
        }
        match (walk.position, walk.tested) {
            (Position::Bodies, Some(condition)) => self.facts.hold(pool, condition)?,
            (Position::ElseBody, Some(condition)) => self.facts.deny(condition)?,
            (Position::Guards, _) => inside.is_rewritable = false,
            (Position::Guarded, _) => inside.in_condition = true,
            _ => {}
        }
        Ok(())
    }

    /// Notes the cells of a branch's list behind it.
    fn list_cells(&mut self, pool: &Pool, walk: Walk, node: Opened) -> Result<(), AllocError> {
        let Position::Guards = walk.position else {
            return Ok(());
        };
        for cell in &items(self.alloc, pool, node.first)? {
            self.scope.list_cell(*cell)?;
        }
        Ok(())
    }

    /// How the walk goes on at a node's second child.
    fn second(&mut self, pool: &Pool, walk: Walk, node: Opened) -> Result<Walk, AllocError> {
        self.list_cells(pool, walk, node)?;
        self.define(pool, walk, node)?;
        let position = walk.position.second(node.head);
        let tested = match node.head {
            Head::If => node.first,
            _ => walk.tested,
        };
        let own = match node.head {
            Head::Branch => node.first,
            _ => walk.own,
        };
        Ok(Walk {
            position,
            tested,
            own,
            is_channel: false,
            ..walk
        })
    }

    /// Walks over a tree.
    fn walk(&mut self, pool: &Pool, start: NodeId, from: Walk) -> Result<(), AllocError> {
        let mut at = Some(start);
        let mut walk = from;
        for _ in 0..pool.live() {
            let Some(n) = at else {
                return Ok(());
            };
            let Some(node) = open(pool, n) else {
                return Ok(());
            };
            self.visit(pool, walk, n, node)?;
            self.place = self.place.saturating_add(node.head.weight());
            if let Some(child) = node.first {
                if child.0 >= start.0 {
                    return Ok(());
                }
                let before = self.facts.mark();
                let above = self.scope.mark();
                let inside = self.first(pool, walk, node)?;
                self.walk(pool, child, inside)?;
                self.facts.release(before);
                self.scope.release(above);
            }
            walk = self.second(pool, walk, node)?;
            at = node.second;
        }
        Ok(())
    }
}
