ghost use Rattle.std.specs.Prelude.{◌≡◌, ◌<◌, ◌^◌, ℕ, List, Some, IfOk, option_map, slice_get};
ghost use Rattle.cv_pool.specs.KindTree.{KindTree};
ghost use Rattle.cv_pool.specs.Nodes.{ChildBelow};
ghost use Rattle.cv_syntax_trees.specs.Tree.{size};
ghost use Rattle.cv_syntax.specs.PoolTrees.{tree_at};
ghost use Rattle.cv_meaning.specs.contexts.Groups.{Group};
ghost use Rattle.cv_inline.specs.NextGame.{numbered};
ghost use Rattle.cv_inline_laws.specs.extents.Extents.{of_call_at};
ghost use Rattle.cv_inline.specs.terms.Callers.{IsLiveCaller};
ghost use Rattle.cv_inline_sites.specs.listing.Callings.{IsLiveCalling, calling_in, callings_in};
ghost use Rattle.cv_inline_sites.specs.listing.Subtrees.{IsWithin};
ghost use Rattle.cv_inline_measure.specs.Counts.{IsTold};
ghost use Rattle.cv_inline_sites.specs.pairs.Scopes.{scope_at};
ghost use Rattle.cv_inline_measure.specs.Settings.{IsLiveSetting, call_in, calls_of, live_in, measure_of};

use crate::added::{Added, of_result, under};
use crate::bodies::body;
use crate::setting::Setting;
use crate::trees::extent_below;
use cv_inline::terms::{Caller, Calling, Entry, Standing};
use cv_inline_sites::calls::first_argument;
use cv_inline_sites::listing::Subtree;
use cv_inline_sites::pairs::with_name;
use cv_syntax::children::{first_of, second_of};
use cv_syntax::{Head, NodeId, Pool, read_node};
use std::alloc::{AllocError, Global};

/// What a call adds: the arguments that are assigned, and then the body.
fn call(
    alloc: Global,
    setting: &Setting,
    caller: &Caller,
    scope: &[Entry],
    binders: Option<NodeId>,
    terms: Option<NodeId>,
    root: Subtree,
) -> Result<Added, AllocError>
    requires setting { IsLiveSetting setting.now }
    requires caller { IsLiveCaller (live_in setting.now) caller.now }
    requires binders { ChildBelow (live_in setting.now) binders }
    requires terms { ChildBelow (live_in setting.now) terms }
    requires small { size (tree_at setting.now.pool.now.trees terms) < 2 ^ 32 }
    requires root { IsWithin setting.now.pool.now.trees root }
    requires start { root.place ≡ 0 }
    ensures { IfOk result (λ a. IsTold a (call_in setting.now caller.now
        (scope_at caller.now scope.now) binders terms root)) }
{
    let Some(first) = first_argument(setting.pool, binders, terms) else {
        return body(alloc, setting, caller, scope, root);
    };
    let term = extent_below(setting.pool, setting.measure, first.term);
    let inner = with_name(alloc, scope, first.name, Standing::Own)?;
    let inside = call(
        alloc,
        setting,
        caller,
        inner.as_slice(),
        first.binders,
        first.terms,
        root,
    )?;
    Ok(under(setting.measure, term, inside))
}

/// What the call of a site adds, with these arguments.
fn site_call(
    alloc: Global,
    setting: &Setting,
    calling: &Calling,
    arguments: Option<NodeId>,
) -> Result<Added, AllocError>
    requires setting { IsLiveSetting setting.now }
    requires calling { IsLiveCalling setting.now.pool.now.trees calling.now }
    requires caller { IsLiveCaller (live_in setting.now) calling.now.caller }
    requires arguments { ChildBelow (live_in setting.now) arguments }
    requires small { size (tree_at setting.now.pool.now.trees arguments) < 2 ^ 32 }
    ensures { IfOk result (λ a. (x : ℕ) (g : Group) → g.key.0 ≡ setting.now.right_key →
        IsTold a (of_call_at (measure_of setting.now) (calls_of setting.now x g)
        (Some (calling_in setting.now.pool.now.trees calling.now))
        (tree_at setting.now.pool.now.trees arguments))) }
{
    let function = Some(calling.function);
    let binders = second_of(setting.pool, first_of(setting.pool, function));
    let root = Subtree {
        place: 0,
        root: second_of(setting.pool, function),
    };
    let mut scope = Vec::new(alloc);
    scope.push(Entry {
        name: setting.right_key,
        standing: Standing::TheKey,
    })?;
    call(
        alloc,
        setting,
        &calling.caller,
        scope.as_slice(),
        binders,
        arguments,
        root,
    )
}

/// The place of the first site with a number, or past all sites.
pub fn place_of_site(callings: &[Calling], number: u32) -> usize
    ensures { (trees : List KindTree) →
        option_map (calling_in trees) (slice_get callings.now result)
        ≡ numbered number (callings_in trees callings.now) }
{
    'sites: for place in 0..callings.len() {
        if callings[place].caller.number == number {
            return place;
        }
    }
    callings.len()
}

/// What the call with a number adds; without a site it is `false`.
pub(crate) fn call_extent(
    alloc: Global,
    setting: &Setting,
    number: u32,
    arguments: Option<NodeId>,
) -> Result<Added, AllocError>
    requires setting { IsLiveSetting setting.now }
    requires arguments { ChildBelow (live_in setting.now) arguments }
    requires small { size (tree_at setting.now.pool.now.trees arguments) < 2 ^ 32 }
    ensures { IfOk result (λ a. (x : ℕ) (g : Group) → g.key.0 ≡ setting.now.right_key →
        IsTold a (of_call_at (measure_of setting.now) (calls_of setting.now x g)
        (numbered number (callings_in setting.now.pool.now.trees setting.now.callings.now))
        (tree_at setting.now.pool.now.trees arguments))) }
{
    match setting
        .callings
        .get(place_of_site(setting.callings, number))
    {
        Some(calling) => site_call(alloc, setting, calling, arguments),
        None => Ok(of_result(setting.measure, 1)),
    }
}
