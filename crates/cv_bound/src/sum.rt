ghost use Rattle.std.specs.Prelude.{◌≡◌, [], length, IfOk, OnOk, OnErr, slice_get};
ghost use Rattle.std.specs.Option.{option_copied, option_and_then};
ghost use Rattle.cv_bound.specs.Sums.{AllFit, added, collision_of};
ghost use Rattle.cv_bound.specs.Texts.{sum_text};

use crate::cost::{Collision, Cost};
use crate::terms::{Term, copies, put_all, terms_of};
use crate::text::push_sum;
use cv_syntax::Names;
use std::alloc::{AllocError, Global};
use std::marker::Model;

/// A sum of costs: its terms in order of first appearance.
#[derive(Drop)]
pub struct Sum {
    terms: Vec<Term>,
}

impl Model for Sum {
    ghost use Rattle.std.specs.Prelude.{List};
    ghost use Rattle.cv_bound.specs.declared.terms.Term.{Term};

    ghost Value = { List Term };

    ghost view = { λ s. s.terms.items };
}

impl Sum {
    /// The sum without terms. Takes no memory.
    pub fn new(alloc: Global) -> Sum
        ensures { result ≡ [] }
    {
        Sum {
            terms: Vec::new(alloc),
        }
    }

    /// Adds a cost, for secrecy or not. Fails only where memory runs out.
    pub fn add(&mut self, cost: &Cost, secrecy: bool) -> Result<(), AllocError>
        requires { AllFit (added self.old cost.now secrecy) }
        ensures ok { OnOk result (self.new ≡ added self.old cost.now secrecy) }
        ensures err { OnErr result (self.new ≡ self.old) }
    {
        let alloc = *self.terms.allocator();
        let more = terms_of(alloc, cost, secrecy)?;
        self.terms.reserve(more.len())?;
        put_all(&mut self.terms, more);
        Ok(())
    }

    /// An equal sum.
    pub fn copy(&self) -> Result<Sum, AllocError>
        ensures { IfOk result (λ copy. copy ≡ self.now) }
    {
        let alloc = *self.terms.allocator();
        Ok(Sum {
            terms: copies(alloc, &self.terms)?,
        })
    }

    /// The text of the sum. A number past the names has no text.
    pub fn text(&self, names: &Names) -> Result<Vec<u8>, AllocError>
        ensures { IfOk result (λ text. text.items ≡ sum_text names.now self.now) }
    {
        let alloc = *self.terms.allocator();
        let mut text = Vec::new(alloc);
        push_sum(&mut text, names, &self.terms)?;
        Ok(text)
    }

    /// How many terms there are.
    pub fn len(&self) -> u64
        ensures { result ≡ length self.now }
    {
        self.terms.len() as u64
    }

    /// The term at a place, counted from 0, where it is one of a collision.
    pub fn collision(&self, k: u64) -> Option<&Collision>
        ensures { option_copied result ≡ option_and_then collision_of (slice_get self.now k) }
    {
        match self.terms.get(k as usize) {
            Some(Term::Collision(c)) => Some(c),
            _ => None,
        }
    }
}
