ghost use Rattle.std.specs.Prelude.{◌≡◌, ℕ, List, All, IfOk, map};
ghost use Rattle.cv_pool.specs.KindTree.{KindTree};
ghost use Rattle.cv_context.specs.nodes.Calls.{IsLive};
ghost use Rattle.cv_context.specs.Roles.{IsLiveCall, reads_at, reads_of};

use crate::nodes::Call;
use cv_match_terms::patterns::Site;
use std::alloc::{AllocError, Global};

/// The call that a site is.
fn call_of(alloc: Global, site: &Site) -> Result<Call, AllocError>
    ensures same { (trees : List KindTree)
        → IfOk result (λ c. reads_at trees c ≡ reads_of trees site.now) }
    ensures live { (n : ℕ) → IsLiveCall n site.now → IfOk result (IsLive n) }
{
    let arguments = Vec::from_slice(alloc, site.instance.arguments.as_slice())?;
    Ok(Call {
        place: site.place,
        key: site.instance.key,
        arguments,
    })
}

/// The calls that sites are, in their order.
pub fn calls_of(alloc: Global, sites: &[Site]) -> Result<Vec<Call>, AllocError>
    ensures same { (trees : List KindTree) → IfOk result (λ calls.
        map (reads_at trees) calls.items ≡ map (reads_of trees) sites.now) }
    ensures live { (n : ℕ) → All (IsLiveCall n) sites.now
        → IfOk result (λ calls. All (IsLive n) calls.items) }
{
    let mut calls = Vec::new(alloc);
    'sites: for k in 0..sites.len() {
        let call = call_of(alloc, &sites[k])?;
        calls.push(call)?;
    }
    Ok(calls)
}
