ghost use Rattle.std.specs.Prelude.{◌≡◌, ◌∷◌, ◌++◌, ◌<◌, ◌^◌, [], All, IfOk, OnOk, Some, length};
ghost use Rattle.cv_syntax_trees.specs.Tree.{size};
ghost use Rattle.cv_syntax.specs.PoolTrees.{tree_at};
ghost use Rattle.cv_meaning.specs.contexts.Groups.{Right, side_group};
ghost use Rattle.cv_inline.specs.NextGame.{calling, callings_from};
ghost use Rattle.cv_inline.specs.terms.Callers.{HasLiveCaller};
ghost use Rattle.cv_inline_sites.specs.listing.Callings.{IsLiveCalling, calling_in, callings_in};
ghost use Rattle.cv_inline_draws.specs.callings.FirstCalls.{AreLiveCalls, IsLiveCall, call_in};
ghost use Rattle.cv_inline_draws.specs.callings.RightFunctions.{HasRightFunctions, IsLiveFunction, function_in};
ghost use Rattle.cv_inline_draws.specs.callings.Sites.{HasListedKey, HasListedKeys, IsLiveSite, site_of};

use crate::callings::calls::{Call, first_calls};
use crate::callings::functions::{bound_at, functions_in};
use crate::callings::names::names_of;
use cv_inline::terms::{Caller, Calling};
use cv_syntax::children::{first_of, second_of};
use cv_syntax::{NodeId, Pool};
use std::alloc::{AllocError, Global};
use std::collections::HashMap;

/// The site with a number, where this function is called and this is its first call.
fn site(
    alloc: Global,
    pool: &Pool,
    number: u32,
    function: NodeId,
    call: &Call,
) -> Result<Calling, AllocError>
    requires function { IsLiveFunction pool.now.trees function }
    requires call { IsLiveCall pool.now.trees call.now }
    ensures calling { IfOk result (λ c. calling_in pool.now.trees c ∷ []
        ≡ calling number (Some (function_in pool.now.trees function))
        (Some (call_in pool.now.trees call.now))) }
    ensures live { IfOk result (IsLiveSite pool.now.trees) }
{
    let names = names_of(alloc, pool, function)?;
    let replications = Vec::from_slice(alloc, call.replications.as_slice())?;
    let caller = Caller {
        number,
        bound: bound_at(pool, first_of(pool, Some(function))),
        names,
        replications,
        key: first_of(pool, first_of(pool, call.terms)),
    };
    Ok(Calling { caller, function })
}

/// Adds the site with a number, if there are a function at its position and a call.
fn add_site(
    alloc: Global,
    pool: &Pool,
    callings: &mut Vec<Calling>,
    right: &[NodeId],
    calls: &HashMap<u32, Call>,
    number: u32,
    position: u32,
) -> Result<(), AllocError>
    requires right { All (IsLiveFunction pool.now.trees) right.now }
    requires calls { AreLiveCalls pool.now.trees calls.now }
    requires callings { All (IsLiveSite pool.now.trees) callings.old.items }
    ensures callings { OnOk result (callings_in pool.now.trees callings.new.items
        ≡ callings_in pool.now.trees callings.old.items
        ++ site_of pool.now.trees right.now calls.now number position) }
    ensures live { OnOk result (All (IsLiveSite pool.now.trees) callings.new.items) }
{
    let Some(function) = right.get(position as usize) else {
        return Ok(());
    };
    let Some(call) = calls.get(&number) else {
        return Ok(());
    };
    let calling = site(alloc, pool, number, *function, call)?;
    callings.push(calling)?;
    Ok(())
}

/// The sites of a context by number, where these are the positions of the functions that are called.
pub fn callings_of(
    alloc: Global,
    pool: &Pool,
    equivalence: NodeId,
    functions: &[u32],
    context: NodeId,
) -> Result<Vec<Calling>, AllocError>
    requires equivalence { equivalence.0 < length pool.now.trees }
    requires context { context.0 < length pool.now.trees }
    requires right { HasRightFunctions (tree_at pool.now.trees (Some equivalence)) }
    requires few { length functions.now < 2 ^ 32 }
    requires functions_fit { size (tree_at pool.now.trees (Some equivalence)) < 2 ^ 32 }
    requires calls_fit { size (tree_at pool.now.trees (Some context)) < 2 ^ 32 }
    ensures callings { IfOk result (λ cs. callings_in pool.now.trees cs.items
        ≡ callings_from (side_group Right (tree_at pool.now.trees (Some equivalence)))
        (tree_at pool.now.trees (Some context)) 0 functions.now) }
    ensures live { IfOk result (λ cs. All (IsLiveCalling pool.now.trees) cs.items) }
    ensures callers { IfOk result (λ cs.
        All (HasLiveCaller (length pool.now.trees)) cs.items) }
    ensures keys { HasListedKeys (tree_at pool.now.trees (Some context))
        → IfOk result (λ cs. All (HasListedKey pool.now.trees) cs.items) }
{
    let side = second_of(pool, Some(equivalence));
    let right = functions_in(alloc, pool, second_of(pool, side))?;
    let calls = first_calls(alloc, pool, Some(context))?;
    let mut callings = Vec::new(alloc);
    let mut number = 0;
    'sites: for position in functions {
        add_site(
            alloc,
            pool,
            &mut callings,
            right.as_slice(),
            &calls,
            number,
            *position,
        )?;
        number += 1;
    }
    Ok(callings)
}
