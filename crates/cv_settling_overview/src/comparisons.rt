// The names that stand above a place, and the equalities of a game, as they are seen on a walk.
use crate::facts::Facts;
use cv_grounds::open;
use cv_syntax::{Head, NodeId, Opened, Pool};
use std::alloc::{AllocError, Global};
use std::collections::HashMap;

/// A name that is defined above, and the type of its values where they are chosen there.
#[derive(Clone, Copy)]
struct Defined {
    name: u32,
    chosen: Option<u32>,
}

/// How much is known at a place, to come back to it.
#[derive(Clone, Copy)]
pub(crate) struct Known {
    names: usize,
    cells: usize,
}

/// The names that are defined above a place, from the root down, with where each stands among them; and the cells of the `defined` lists
/// around, with how many names are defined above each.
#[derive(Drop)]
pub(crate) struct Scope {
    names: Vec<Defined>,
    table: HashMap<u32, usize>,
    cells: Vec<u32>,
    listed: HashMap<u32, usize>,
}

impl Scope {
    /// Nothing is defined.
    pub(crate) fn new(alloc: Global) -> Scope {
        Scope {
            names: Vec::new(alloc),
            table: HashMap::new(alloc),
            cells: Vec::new(alloc),
            listed: HashMap::new(alloc),
        }
    }

    /// How much is known.
    pub(crate) fn mark(&self) -> Known {
        Known {
            names: self.names.len(),
            cells: self.cells.len(),
        }
    }

    /// Forgets the names that came since, from so many on.
    fn release_names(&mut self, mark: usize) {
        for _ in mark..self.names.len() {
            if let Some(last) = self.names.pop() {
                let _ = self.table.remove(&last.name);
            }
        }
    }

    /// Forgets what came since.
    pub(crate) fn release(&mut self, mark: Known) {
        self.release_names(mark.names);
        for _ in mark.cells..self.cells.len() {
            if let Some(last) = self.cells.pop() {
                let _ = self.listed.remove(&last);
            }
        }
    }

    /// Adds a cell of a `defined` list, where it isn't one of another list around.
    pub(crate) fn list_cell(&mut self, cell: NodeId) -> Result<(), AllocError> {
        if self.listed.contains_key(&cell.0) {
            return Ok(());
        }
        self.listed.insert(cell.0, self.names.len())?;
        self.cells.push(cell.0)?;
        Ok(())
    }

    /// Whether a list around has a cell, and stands above the name with a number.
    fn is_listed_above(&self, cell: NodeId, number: usize) -> bool {
        match self.listed.get(&cell.0) {
            Some(k) => *k <= number,
            None => false,
        }
    }

    /// Adds a name, with the type of its values where they are chosen.
    pub(crate) fn add(&mut self, name: u32, chosen: Option<u32>) -> Result<(), AllocError> {
        self.table.insert(name, self.names.len())?;
        self.names.push(Defined { name, chosen })?;
        Ok(())
    }

    /// Where the choice of a name stands among those above, and its type.
    fn choice(&self, name: u32) -> Option<(usize, u32)> {
        let k = *self.table.get(&name)?;
        let chosen = self.names.get(k)?.chosen?;
        Some((k, chosen))
    }

    /// Whether a name stands above the one with a number.
    fn is_above(&self, name: u32, number: usize) -> bool {
        match self.table.get(&name) {
            Some(k) => *k < number,
            None => false,
        }
    }
}

/// A side of an equality that reads, at the current indices, what is chosen above: the type of its values, and the names of the other
/// side that don't stand above that choice.
#[derive(Drop)]
pub struct Choice {
    pub of_type: u32,
    pub later: Vec<u32>,
}

/// An equality at its place: the variables that its sides read, at whatever indices, and those sides whose values are chosen above.
#[derive(Drop)]
pub struct Comparison {
    pub place: u32,
    pub left: Option<u32>,
    pub right: Option<u32>,
    pub choices: Vec<Choice>,
}

/// The name that a term reads.
fn read_name(pool: &Pool, term: Option<NodeId>) -> Option<u32> {
    match open(pool, term?)?.head {
        Head::Leaf(x) | Head::Read(x) => Some(x),
        _ => None,
    }
}

/// The name that a term reads at the current indices.
fn current_name(facts: &Facts, pool: &Pool, term: Option<NodeId>) -> Option<u32> {
    let node = open(pool, term?)?;
    match node.head {
        Head::Leaf(x) if facts.indices().is_empty() => Some(x),
        Head::Read(x) if facts.are_current(pool, node.first) => Some(x),
        _ => None,
    }
}

/// Whether a node reads a name that doesn't stand above the one with a number, nor is known by a list above it. What is read at other
/// indices may be so.
fn is_later(
    scope: &Scope,
    facts: &Facts,
    pool: &Pool,
    n: NodeId,
    node: Opened,
    number: usize,
) -> Option<u32> {
    if scope.is_listed_above(n, number) {
        return None;
    }
    match node.head {
        Head::Leaf(y) if !scope.is_above(y, number) => Some(y),
        Head::Read(y) if !scope.is_above(y, number) && facts.are_current(pool, node.first) => {
            Some(y)
        }
        _ => None,
    }
}

/// Adds the names of a term that don't stand above the one with a number.
fn add_later(
    scope: &Scope,
    facts: &Facts,
    pool: &Pool,
    start: NodeId,
    number: usize,
    later: &mut Vec<u32>,
) -> Result<(), AllocError> {
    let mut at = Some(start);
    for _ in 0..pool.live() {
        let Some(n) = at else {
            return Ok(());
        };
        let Some(node) = open(pool, n) else {
            return Ok(());
        };
        if let Some(y) = is_later(scope, facts, pool, n, node, number) {
            later.push(y)?;
        }
        if let Some(child) = node.first {
            if child.0 >= start.0 {
                return Ok(());
            }
            add_later(scope, facts, pool, child, number, later)?;
        }
        at = node.second;
    }
    Ok(())
}

/// Adds a side of an equality, where its values are chosen above.
fn add_choice(
    alloc: Global,
    scope: &Scope,
    facts: &Facts,
    pool: &Pool,
    side: Option<NodeId>,
    other: Option<NodeId>,
    choices: &mut Vec<Choice>,
) -> Result<(), AllocError> {
    let Some((number, of_type)) = current_name(facts, pool, side).and_then(|x| scope.choice(x))
    else {
        return Ok(());
    };
    let mut later = Vec::new(alloc);
    if let Some(term) = other {
        add_later(scope, facts, pool, term, number, &mut later)?;
    }
    choices.push(Choice { of_type, later })?;
    Ok(())
}

/// What is seen of an equality at a place.
pub(crate) fn comparison_at(
    alloc: Global,
    scope: &Scope,
    facts: &Facts,
    pool: &Pool,
    place: u32,
    node: Opened,
) -> Result<Comparison, AllocError> {
    let mut choices = Vec::new(alloc);
    add_choice(
        alloc,
        scope,
        facts,
        pool,
        node.first,
        node.second,
        &mut choices,
    )?;
    add_choice(
        alloc,
        scope,
        facts,
        pool,
        node.second,
        node.first,
        &mut choices,
    )?;
    Ok(Comparison {
        place,
        left: read_name(pool, node.first),
        right: read_name(pool, node.second),
        choices,
    })
}
