ghost use Rattle.std.specs.Prelude.{◌≡◌, ◌<◌, ◌^◌, length, slice_get, IfOk, OnOk};
ghost use Rattle.std.specs.Option.{option_copied};

use cv_syntax::NameId;
use std::alloc::{AllocError, Global};
use std::marker::Model;

/// Parameters, each with its exponent: the factors of a product.
#[derive(Drop)]
pub struct Factors {
    powers: Vec<(NameId, u8)>,
}

impl Model for Factors {
    ghost use Rattle.std.specs.Prelude.{List, ℕ, length, ◌<◌, ◌^◌};
    ghost use Rattle.cv_pool.specs.declared.names.names.NameId.{NameId};

    ghost Value = { List (NameId × ℕ) };

    ghost view = { λ f. f.powers.items };

    ghost invariant = { λ f. length f.powers.items < 2 ^ 32 };
}

impl Factors {
    /// The factors of a list.
    pub fn of(list: Vec<(NameId, u8)>) -> Factors
        requires { length list.items < 2 ^ 32 }
        ensures { result ≡ list.items }
    {
        Factors { powers: list }
    }

    pub fn len(&self) -> u32
        ensures { result ≡ length self.now }
    {
        self.powers.len() as u32
    }

    /// The factor at a place, counted from 0.
    pub fn get(&self, k: u32) -> Option<&(NameId, u8)>
        ensures { option_copied result ≡ slice_get self.now k }
    {
        self.powers.get(k as usize)
    }

    pub(crate) fn as_slice(&self) -> &[(NameId, u8)]
        ensures { result.now ≡ self.now }
    {
        self.powers.as_slice()
    }

    fn copy(&self, alloc: Global) -> Result<Factors, AllocError>
        ensures { IfOk result (λ copy. copy ≡ self.now) }
    {
        let mut powers = Vec::new(alloc);
        powers.extend_from_slice(&self.powers)?;
        Ok(Factors { powers })
    }
}

/// The chance of a collision: so many times the product of the factors, over the size of a type, or over
/// twice that size.
#[derive(Drop)]
pub struct Collision {
    pub times: u64,
    pub factors: Factors,
    pub half: bool,
    pub over: NameId,
}

impl Collision {
    /// An equal collision.
    pub(crate) fn copy(&self, alloc: Global) -> Result<Collision, AllocError>
        ensures { IfOk result (λ copy. copy ≡ self.now) }
    {
        Ok(Collision {
            times: self.times,
            factors: self.factors.copy(alloc)?,
            half: self.half,
            over: self.over,
        })
    }
}

/// A list of collisions.
#[derive(Drop)]
pub struct Collisions {
    items: Vec<Collision>,
}

impl Model for Collisions {
    ghost use Rattle.std.specs.Prelude.{List, length, ◌<◌, ◌^◌};
    ghost use Rattle.cv_bound.specs.declared.cost.Collision.{Collision};

    ghost Value = { List Collision };

    ghost view = { λ c. c.items.items };

    ghost invariant = { λ c. length c.items.items < 2 ^ 32 };
}

impl Collisions {
    /// The collisions of a list.
    pub fn of(list: Vec<Collision>) -> Collisions
        requires { length list.items < 2 ^ 32 }
        ensures { result ≡ list.items }
    {
        Collisions { items: list }
    }

    pub fn len(&self) -> u32
        ensures { result ≡ length self.now }
    {
        self.items.len() as u32
    }

    /// The collision at a place, counted from 0.
    pub fn get(&self, k: u32) -> Option<&Collision>
        ensures { option_copied result ≡ slice_get self.now k }
    {
        self.items.get(k as usize)
    }

    pub(crate) fn as_slice(&self) -> &[Collision]
        ensures { result.now ≡ self.now }
    {
        self.items.as_slice()
    }

    fn copy(&self, alloc: Global) -> Result<Collisions, AllocError>
        ensures { IfOk result (λ copy. copy ≡ self.now) }
    {
        Ok(Collisions {
            items: copies(alloc, &self.items)?,
        })
    }
}

/// What a step adds to a bound.
#[derive(Drop)]
pub enum Cost {
    Zero,
    Collisions(Collisions),
    /// The advantage of the context of a step against an equivalence.
    Advantage { step: u32, equiv: NameId },
}

/// Equal collisions.
fn copies(alloc: Global, collisions: &[Collision]) -> Result<Vec<Collision>, AllocError>
    ensures { IfOk result (λ copy. copy.items ≡ collisions.now) }
{
    let mut copy = Vec::new(alloc);
    'collisions: for k in 0..collisions.len() {
        copy.push(collisions[k].copy(alloc)?)?;
    }
    Ok(copy)
}

impl Cost {
    /// An equal cost.
    pub fn copy(&self, alloc: Global) -> Result<Cost, AllocError>
        ensures { IfOk result (λ copy. copy ≡ self.now) }
    {
        match self {
            Cost::Zero => Ok(Cost::Zero),
            Cost::Collisions(list) => Ok(Cost::Collisions(list.copy(alloc)?)),
            Cost::Advantage { step, equiv } => Ok(Cost::Advantage {
                step: *step,
                equiv: *equiv,
            }),
        }
    }
}
