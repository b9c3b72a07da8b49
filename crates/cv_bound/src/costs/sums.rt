ghost use Rattle.std.specs.Prelude.{◌≡◌, IfOk};
ghost use Rattle.cv_bound.specs.Sums.{AllFit, added};
ghost use Rattle.cv_bound.specs.costs.Sums as sums;
ghost use Rattle.cv_bound.specs.costs.Sums.{SumsFit, no_sums, sum_for};

use crate::{Cost, Sum};
use std::alloc::{AllocError, Global};

/// The sums of the costs of steps, for correspondences and for queries of secrecy.
#[derive(Drop)]
pub struct Sums {
    plain: Sum,
    secret: Sum,
}

/// An equal sum with a cost more, for secrecy or not.
fn with(sum: &Sum, cost: &Cost, secrecy: bool) -> Result<Sum, AllocError>
    requires { AllFit (added sum.now cost.now secrecy) }
    ensures { IfOk result (λ more. more ≡ added sum.now cost.now secrecy) }
{
    let mut more = sum.copy()?;
    more.add(cost, secrecy)?;
    Ok(more)
}

impl Sums {
    /// The sums of no cost. Takes no memory.
    pub fn new(alloc: Global) -> Sums
        ensures { result ≡ no_sums }
    {
        Sums {
            plain: Sum::new(alloc),
            secret: Sum::new(alloc),
        }
    }

    /// Equal sums with a cost more.
    pub fn with_cost(&self, cost: &Cost) -> Result<Sums, AllocError>
        requires { SumsFit (sums.with_cost self.now cost.now) }
        ensures { IfOk result (λ more. more ≡ sums.with_cost self.now cost.now) }
    {
        let plain = with(&self.plain, cost, false)?;
        let secret = with(&self.secret, cost, true)?;
        Ok(Sums { plain, secret })
    }

    /// The sum of a query of secrecy, or of another one.
    pub fn of(&self, secrecy: bool) -> &Sum
        ensures { result.now ≡ sum_for secrecy self.now }
    {
        if secrecy { &self.secret } else { &self.plain }
    }
}
