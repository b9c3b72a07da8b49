ghost use Rattle.std.specs.Prelude.{◌≡◌, ◌+◌, ◌≤◌, ◌<◌, ◌==◌, ◌++◌, ◌∷◌, [], ℕ, List, length, take, OnOk};
ghost use Rattle.std.specs.List.{list_any};

use std::alloc::{AllocError, Global};
use std::collections::HashMap;
use std::marker::Model;

/// The indices of the replications above a place, the outermost first.
#[derive(Drop)]
pub struct Current {
    names: Vec<u32>,
    places: HashMap<u32, usize>,
}

impl Model for Current {
    ghost use Rattle.std.specs.Prelude.{List, ℕ};
    ghost use Rattle.cv_parse_names.specs.indices.Current.{AreKept};

    ghost Value = { List ℕ };

    ghost view = { λ c. c.names.items };

    ghost invariant = { λ c. AreKept c.names.items c.places };
}

impl Current {
    /// No replication stands above.
    pub fn new(alloc: Global) -> Current
        ensures { result ≡ [] }
    {
        Current {
            names: Vec::new(alloc),
            places: HashMap::new(alloc),
        }
    }

    /// How many indices there are.
    pub fn len(&self) -> usize
        ensures { result ≡ length self.now }
    {
        self.names.len()
    }

    /// The first so many indices.
    pub fn first(&self, count: usize) -> &[u32]
        requires { count ≤ length self.now }
        ensures { result.now ≡ take count self.now }
    {
        &self.names[..count]
    }

    /// Whether a name is one of the first so many indices.
    pub fn holds(&self, count: usize, name: u32) -> bool
        requires { count ≤ length self.now }
        ensures { result ≡ list_any (λ i. i == name) (take count self.now) }
    {
        match self.places.get(&name) {
            Some(place) => *place < count && self.names[*place] == name,
            None => false,
        }
    }

    /// Goes below a replication that stands under the first so many indices.
    pub fn enter(&mut self, count: usize, name: u32) -> Result<(), AllocError>
        requires { count ≤ length self.old }
        ensures { OnOk result (self.new ≡ take count self.old ++ name ∷ []) }
    {
        let known = self.holds(count, name);
        self.names.truncate(count);
        if !known {
            self.places.insert(name, count)?;
        }
        self.names.push(name)?;
        Ok(())
    }
}
