ghost use Rattle.std.specs.Prelude.{◌≡◌, ◌≤◌, ◌++◌, ◌∷◌, [], length, take, OnOk};
ghost use Rattle.cv_scope_rules.specs.Ranges.{EndBy};
ghost use Rattle.cv_scope.specs.Rising.{Rise};
ghost use Rattle.cv_scope_rules.specs.Tests.{is_in_one_of};

use std::alloc::{AllocError, Global};
use std::marker::Model;

/// Ranges of places, one behind the other.
#[derive(Drop)]
pub struct Passed {
    ranges: Vec<(u32, u32)>,
}

impl Model for Passed {
    ghost use Rattle.std.specs.Prelude.{ℕ, List};
    ghost use Rattle.cv_scope.specs.Rising.{Rise};

    ghost Value = { List (ℕ × ℕ) };

    ghost view = { λ p. p.ranges.items };

    ghost invariant = { λ p. Rise p.ranges.items };
}

impl Passed {
    /// No range.
    pub fn new(alloc: Global) -> Passed
        ensures { result ≡ [] }
    {
        Passed {
            ranges: Vec::new(alloc),
        }
    }

    /// How many ranges there are.
    pub fn len(&self) -> usize
        ensures { result ≡ length self.now }
    {
        self.ranges.len()
    }

    /// Adds a range behind the others.
    pub fn add(&mut self, from: u32, to: u32) -> Result<(), AllocError>
        requires range { from ≤ to }
        requires behind { EndBy from self.old }
        ensures { OnOk result (self.new ≡ self.old ++ (from, to) ∷ []) }
    {
        self.ranges.push((from, to))?;
        Ok(())
    }

    /// Whether a place lies in one of the ranges.
    pub fn has(&self, place: u32) -> bool
        ensures { result ≡ is_in_one_of self.now place }
    {
        lies_in(self.ranges.as_slice(), place)
    }

    /// Keeps the first ranges.
    pub fn keep(&mut self, n: usize)
        ensures { self.new ≡ take n self.old }
    {
        self.ranges.truncate(n);
    }
}

/// Whether a place lies in one of ranges that lie one behind the other.
fn lies_in(ranges: &[(u32, u32)], place: u32) -> bool
    requires { Rise ranges.now }
    ensures { result ≡ is_in_one_of ranges.now place }
{
    let behind = ranges.partition_point(|r| r.0 <= place);
    if behind == 0 {
        return false;
    }
    place < ranges[behind - 1].1
}
