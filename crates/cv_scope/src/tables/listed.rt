ghost use Rattle.std.specs.Prelude.{◌≡◌, ◌++◌, ◌∷◌, [], length, take, OnOk, None, slice_index_or};
ghost use Rattle.cv_scope.specs.tables.Ordered.{has_number};

use cv_syntax::NodeId;
use std::alloc::{AllocError, Global};
use std::collections::HashMap;
use std::marker::Model;

/// The cells of the `defined` lists around a node.
#[derive(Drop)]
pub struct Listed {
    list: Vec<Option<NodeId>>,
    places: HashMap<u32, usize>,
}

impl Model for Listed {
    ghost use Rattle.std.specs.Prelude.{List, Option};
    ghost use Rattle.cv_pool.specs.declared.node.NodeId.{NodeId};
    ghost use Rattle.cv_scope.specs.tables.Ordered.{AreNumbersPlaced};

    ghost Value = { List (Option NodeId) };

    ghost view = { λ l. l.list.items };

    ghost invariant = { λ l. AreNumbersPlaced l.list.items l.places };
}

impl Listed {
    /// No cell.
    pub fn new(alloc: Global) -> Listed
        ensures { result ≡ [] }
    {
        Listed {
            list: Vec::new(alloc),
            places: HashMap::new(alloc),
        }
    }

    /// How many cells there are.
    pub fn len(&self) -> usize
        ensures { result ≡ length self.now }
    {
        self.list.len()
    }

    /// The cells.
    pub fn cells(&self) -> &[Option<NodeId>]
        ensures { result.now ≡ self.now }
    {
        self.list.as_slice()
    }

    /// Whether a node is one of the cells.
    pub fn has(&self, node: NodeId) -> bool
        ensures { result ≡ has_number self.now node.0 }
    {
        let Some(k) = self.places.get(&node.0).copied() else {
            return false;
        };
        match self.at(k) {
            Some(there) => there.0 == node.0,
            None => false,
        }
    }

    /// The cell at a place of the list.
    fn at(&self, k: usize) -> Option<NodeId>
        ensures { result ≡ slice_index_or self.now k None }
    {
        self.list.get(k).copied().unwrap_or(None)
    }

    /// Adds a cell.
    pub fn add(&mut self, cell: Option<NodeId>) -> Result<(), AllocError>
        ensures { OnOk result (self.new ≡ self.old ++ cell ∷ []) }
    {
        let Some(node) = cell else {
            self.list.push(None)?;
            return Ok(());
        };
        if self.has(node) {
            self.list.push(Some(node))?;
            return Ok(());
        }
        self.places.insert(node.0, self.list.len())?;
        self.list.push(Some(node))?;
        Ok(())
    }

    /// Keeps the first cells.
    pub fn keep(&mut self, n: usize)
        ensures { self.new ≡ take n self.old }
    {
        self.list.truncate(n);
    }
}
