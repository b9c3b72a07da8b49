ghost use Rattle.std.specs.Prelude.{◌≡◌, ◌≢◌, ◌+◌, ◌<◌, ◌≤◌, ◌^◌, ◌↔◌, ◌++◌, ◌∷◌, [], ℕ, List, Some, None, length, take, slice_get, IfOk, OnErr, OnOk, IsErrOf, IsNone, IfSome};
ghost use Rattle.cv_pool.specs.names.Texts.{NoRepeat};

use indexmap::IndexSet;
use std::alloc::{AllocError, AllocFailed, Global};
use std::marker::Model;

/// The number of a name.
#[derive(Clone, Copy, Debug, PartialEq, Eq)]
pub struct NameId(pub u32);

#[derive(Clone, Copy, Debug, PartialEq, Eq)]
pub enum NameError {
    Twice(NameId),
    OutOfMemory,
}

/// Names without repeats.
#[derive(Drop)]
pub struct Names {
    alloc: Global,
    texts: IndexSet<String>,
}

impl Model for Names {
    ghost use Rattle.std.specs.Prelude.{List, ℕ, length, ◌<◌, ◌^◌};
    ghost use Rattle.cv_pool.specs.names.Texts.{NoRepeat, texts_of};

    ghost Value = { List (List ℕ) };

    ghost view = { λ n. texts_of n.texts.keys };

    ghost invariant = { λ n. NoRepeat (texts_of n.texts.keys) × (length n.texts.keys < 2 ^ 32) };
}

impl Names {
    pub fn new(alloc: Global) -> Names
        ensures { result ≡ [] }
    {
        Names {
            alloc,
            texts: IndexSet::new(alloc),
        }
    }

    pub fn len(&self) -> u32
        ensures len { result ≡ length self.now }
        ensures distinct { NoRepeat self.now }
    {
        self.texts.len() as u32
    }

    /// The number of a text.
    #[tactic(auto, using(crate::proofs::names::Places::places))]
    pub fn find(&self, text: &str) -> Option<NameId>
        ensures found { (id : NameId) → result ≡ Some id ↔ slice_get self.now id.0 ≡ Some text.now }
        ensures none { IsNone result ↔ ((n : ℕ) → slice_get self.now n ≢ Some text.now) }
    {
        match self.texts.get_index_of(text) {
            Some(place) => Some(NameId(place as u32)),
            None => None,
        }
    }

    /// The text of a number.
    #[tactic(auto, using(crate::proofs::names::Places::places))]
    pub fn text(&self, id: NameId) -> &str
        requires { id.0 < length self.now }
        ensures { slice_get self.now id.0 ≡ Some result.now }
    {
        self.texts.get_index(id.0 as usize).unwrap().as_str()
    }

    /// The text of a number, where it is one of a name.
    #[tactic(auto, using(crate::proofs::names::Places::places))]
    pub fn get(&self, id: NameId) -> Option<&str>
        ensures none { IsNone result ↔ (length self.now ≤ id.0) }
        ensures some { IfSome result (λ text. slice_get self.now id.0 ≡ Some text.now) }
    {
        if id.0 < self.len() {
            Some(self.text(id))
        } else {
            None
        }
    }

    /// Adds a name.
    #[tactic(auto, using(crate::proofs::names::Places::places))]
    pub fn declare(&mut self, text: &str) -> Result<NameId, NameError>
        requires { length self.old + 1 < 2 ^ 32 }
        ensures id { IfOk result (λ id. id.0 ≡ length self.old) }
        ensures ok { OnOk result (self.new ≡ self.old ++ text.now ∷ []) }
        ensures twice { (id : NameId) → IsErrOf result (NameError.Twice id)
            ↔ slice_get self.old id.0 ≡ Some text.now }
        ensures err { OnErr result (self.new ≡ self.old) }
    {
        if let Some(id) = self.find(text) {
            return Err(NameError::Twice(id));
        }
        let number = NameId(self.texts.len() as u32);
        let Ok(owned) = String::from_str(self.alloc, text) else {
            return Err(NameError::OutOfMemory);
        };
        let Ok(_) = self.texts.insert(owned) else {
            return Err(NameError::OutOfMemory);
        };
        Ok(number)
    }

    /// Keeps the first names.
    #[tactic(auto, using(crate::proofs::names::Places::places))]
    pub fn keep(&mut self, n: u32)
        requires { n ≤ length self.old }
        ensures { self.new ≡ take n self.old }
    {
        self.texts.truncate(n as usize);
    }
}
