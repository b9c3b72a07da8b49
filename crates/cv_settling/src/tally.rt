// How often names stand in parts of a game.
use cv_grounds::open;
use cv_syntax::{Head, NodeId, Pool};
use std::alloc::{AllocError, Global};
use std::collections::HashMap;

/// How often names are read or are cells, and how often they are defined, in trees that were counted; and the names that are
/// defined, each as often as it is.
#[derive(Drop)]
pub(crate) struct Tally {
    names: HashMap<u32, u32>,
    sites: HashMap<u32, u32>,
    defined: Vec<u32>,
}

/// What a table counts of a name.
fn count_in(table: &HashMap<u32, u32>, x: u32) -> u32 {
    match table.get(&x) {
        Some(count) => *count,
        None => 0,
    }
}

/// Counts a name.
fn count_one(table: &mut HashMap<u32, u32>, x: u32) -> Result<(), AllocError> {
    let count = count_in(table, x).saturating_add(1);
    table.insert(x, count)?;
    Ok(())
}

impl Tally {
    /// Nothing is counted.
    pub(crate) fn new(alloc: Global) -> Tally {
        Tally {
            names: HashMap::new(alloc),
            sites: HashMap::new(alloc),
            defined: Vec::new(alloc),
        }
    }

    /// How often a name is read or is a cell.
    pub(crate) fn names(&self, x: u32) -> u32 {
        count_in(&self.names, x)
    }

    /// How often a name is defined.
    pub(crate) fn sites(&self, x: u32) -> u32 {
        count_in(&self.sites, x)
    }

    /// The names that are defined.
    pub(crate) fn defined(&self) -> &[u32] {
        &self.defined
    }

    /// Counts what stands at a node.
    fn note(&mut self, head: Head) -> Result<(), AllocError> {
        match head {
            Head::Leaf(x) | Head::Read(x) => count_one(&mut self.names, x),
            Head::New(x, _) | Head::Let(x, _) | Head::Binder(x, _) => {
                self.defined.push(x)?;
                count_one(&mut self.sites, x)
            }
            _ => Ok(()),
        }
    }

    /// Counts what stands in a tree.
    pub(crate) fn count(&mut self, pool: &Pool, start: NodeId) -> Result<(), AllocError> {
        let mut at = Some(start);
        for _ in 0..pool.live() {
            let Some(n) = at else {
                return Ok(());
            };
            let Some(node) = open(pool, n) else {
                return Ok(());
            };
            self.note(node.head)?;
            if let Some(child) = node.first {
                if child.0 >= start.0 {
                    return Ok(());
                }
                self.count(pool, child)?;
            }
            at = node.second;
        }
        Ok(())
    }
}
