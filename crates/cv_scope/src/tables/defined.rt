ghost use Rattle.std.specs.Prelude.{◌≡◌, ◌≤◌, [], length, take, slice_get, OnOk};
ghost use Rattle.cv_scope.specs.tables.Definitions.{is_defined, with_definition};

use crate::tables::places::Places;
use std::alloc::{AllocError, Global};
use std::marker::Model;

/// The variables that are defined above a node, each with the number of replications above its definition.
#[derive(Drop)]
pub struct Defined {
    list: Vec<(u32, usize)>,
    places: Places,
}

impl Model for Defined {
    ghost use Rattle.std.specs.Prelude.{ℕ, List};
    ghost use Rattle.cv_scope.specs.tables.Ordered.{IsPlaced};

    ghost Value = { List (ℕ × ℕ) };

    ghost view = { λ d. d.list.items };

    ghost invariant = { λ d. IsPlaced d.list.items d.places };
}

impl Defined {
    /// No variable.
    pub fn new(alloc: Global) -> Defined
        ensures { result ≡ [] }
    {
        Defined {
            list: Vec::new(alloc),
            places: Places::new(alloc),
        }
    }

    /// How many variables there are.
    pub fn len(&self) -> usize
        ensures { result ≡ length self.now }
    {
        self.list.len()
    }

    /// Whether a variable is there, with so many indices.
    pub fn has(&self, variable: u32, indices: usize) -> bool
        ensures { result ≡ is_defined self.now (variable, indices) }
    {
        let Some(k) = self.places.get(variable, indices) else {
            return false;
        };
        match self.at(k) {
            Some(there) => there == (variable, indices),
            None => false,
        }
    }

    /// The variable at a place of the list.
    fn at(&self, k: usize) -> Option<(u32, usize)>
        ensures { result ≡ slice_get self.now k }
    {
        self.list.get(k).copied()
    }

    /// Adds a variable, unless it is there.
    pub fn add(&mut self, variable: u32, indices: usize) -> Result<(), AllocError>
        ensures { OnOk result (self.new ≡ with_definition self.old (variable, indices)) }
    {
        if self.has(variable, indices) {
            return Ok(());
        }
        self.places.insert(variable, indices, self.list.len())?;
        self.list.push((variable, indices))?;
        Ok(())
    }

    /// Keeps the first variables.
    pub fn keep(&mut self, n: usize)
        ensures { self.new ≡ take n self.old }
    {
        self.list.truncate(n);
    }
}
