// Conjuncts of facts, each with a key by which it is found.
ghost use Rattle.std.specs.Prelude.{◌≡◌, ◌≢◌, ◌++◌, ◌∷◌, [], length, take, All, IfNone, IfSome, OnOk, slice_get};
ghost use Rattle.cv_settling_overview.specs.Keys.{IsAt};

use std::alloc::{AllocError, Global};
use std::collections::HashMap;
use std::marker::Model;

/// A side of an equation: a name without indices, or another tree by the number of its node.
#[derive(Clone, Copy, PartialEq, Eq, Hash)]
pub enum Operand {
    Name(u32),
    Other(Option<u32>),
}

/// What a conjunct is, with the numbers of nodes. Equal trees have one key.
#[derive(Clone, Copy, PartialEq, Eq, Hash)]
pub enum Key {
    /// `false`.
    Falsity,
    /// The negation of a tree.
    Denial(Option<u32>),
    /// An equation.
    Equation(Operand, Operand),
    /// The value that a `let` gives a variable, at the outermost so many of the current indices.
    Value {
        variable: u32,
        indices: usize,
        term: u32,
    },
    /// Another tree.
    Other(Option<u32>),
}

/// A conjunct: its key, the number of its fact, counted from 1, and that of the side that it is, or 0 where it is the fact.
#[derive(Clone, Copy)]
pub struct Conjunct {
    pub key: Key,
    pub fact: usize,
    pub side: usize,
}

/// Conjuncts in order. The table may have places of keys that are gone.
#[derive(Drop)]
pub struct Conjuncts {
    list: Vec<Conjunct>,
    places: HashMap<Key, usize>,
}

impl Model for Conjuncts {
    ghost use Rattle.std.specs.Prelude.{List};
    ghost use Rattle.cv_settling_overview.specs.declared.keys.Conjunct.{Conjunct};
    ghost use Rattle.cv_settling_overview.specs.Keys.{AreKeysPlaced};

    ghost Value = { List Conjunct };

    ghost view = { λ c. c.list.items };

    ghost invariant = { λ c. AreKeysPlaced c.list.items c.places };
}

impl Conjuncts {
    /// No conjunct.
    pub fn new(alloc: Global) -> Conjuncts
        ensures { result ≡ [] }
    {
        Conjuncts {
            list: Vec::new(alloc),
            places: HashMap::new(alloc),
        }
    }

    /// How many conjuncts there are.
    pub fn len(&self) -> usize
        ensures { result ≡ length self.now }
    {
        self.list.len()
    }

    /// The conjunct at a place.
    pub fn at(&self, k: usize) -> Option<Conjunct>
        ensures { result ≡ slice_get self.now k }
    {
        self.list.get(k).copied()
    }

    /// The place of the first conjunct with a key.
    pub fn place(&self, key: Key) -> Option<usize>
        ensures some { IfSome result (λ k. IsAt self.now k key) }
        ensures none { IfNone result (All (λ c. c.key ≢ key) self.now) }
    {
        let Some(k) = self.places.get(&key).copied() else {
            return None;
        };
        match self.at(k) {
            Some(there) => { if there.key == key { Some(k) } else { None } }
            None => None,
        }
    }

    /// Adds a conjunct.
    pub fn add(&mut self, conjunct: Conjunct) -> Result<(), AllocError>
        ensures { OnOk result (self.new ≡ self.old ++ conjunct ∷ []) }
    {
        if self.place(conjunct.key).is_some() {
            self.list.push(conjunct)?;
            return Ok(());
        }
        self.places.insert(conjunct.key, self.list.len())?;
        self.list.push(conjunct)?;
        Ok(())
    }

    /// Keeps the first conjuncts.
    pub fn keep(&mut self, count: usize)
        ensures { self.new ≡ take count self.old }
    {
        self.list.truncate(count);
    }
}
