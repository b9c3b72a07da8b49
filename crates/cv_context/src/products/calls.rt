ghost use Rattle.std.specs.Prelude.{◌≡◌, List, IfOk, map};
ghost use Rattle.cv_pool.specs.KindTree.{KindTree};
ghost use Rattle.cv_scene.specs.Contexts as contexts;
ghost use Rattle.cv_scene.specs.Instances.{Matching};
ghost use Rattle.cv_match_terms.specs.patterns.Sites.{site_in};
ghost use Rattle.cv_context.specs.products.Products.{products};

use cv_match_terms::patterns::Site;
use std::alloc::{AllocError, Global};

/// The parameters of replications, outermost first.
#[tactic(auto, using(crate::proofs::products::Products::appending))]
pub fn parameters_of(alloc: Global, replications: &[(u32, u32)]) -> Result<Vec<u32>, AllocError>
    ensures { IfOk result (λ ns. ns.items ≡ contexts.parameters_of replications.now) }
{
    let mut parameters = Vec::new(alloc);
    'replications: for k in 0..replications.len() {
        parameters.push(replications[k].1)?;
    }
    Ok(parameters)
}

/// For each site of the function at a position, in preorder, the parameters of the replications above it.
pub fn calls_of(alloc: Global, sites: &[Site], position: u32) -> Result<Vec<Vec<u32>>, AllocError>
    ensures { (trees : List KindTree) (M : Matching) → IfOk result (λ calls.
        products calls.items ≡ contexts.calls_of (map (site_in trees M) sites.now) position) }
{
    let mut calls = Vec::new(alloc);
    'sites: for k in 0..sites.len() {
        if sites[k].function == position {
            calls.push(parameters_of(alloc, sites[k].replications.as_slice())?)?;
        }
    }
    Ok(calls)
}
