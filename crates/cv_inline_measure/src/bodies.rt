ghost use Rattle.std.specs.Prelude.{◌≡◌, ◌∷◌, ◌++◌, [], ℕ, List, IfOk};
ghost use Rattle.cv_syntax_trees.specs.declared.head.Head.TheVariants as head;
ghost use Rattle.cv_meaning.specs.contexts.Inlined.{Own};
ghost use Rattle.cv_inline_laws.specs.extents.Extents as extents;
ghost use Rattle.cv_inline_laws.specs.extents.Extents.{Extent};
ghost use Rattle.cv_inline.specs.terms.Callers.{IsLiveCaller};
ghost use Rattle.cv_inline_sites.specs.listing.Subtrees.{IsNodeAt, IsWithin};
ghost use Rattle.cv_inline_sites.specs.pairs.Pairs.{IsPairOver};
ghost use Rattle.cv_inline_measure.specs.Counts.{IsTold};
ghost use Rattle.cv_syntax.specs.limits.Limits.{told};
ghost use Rattle.cv_inline_sites.specs.pairs.Scopes.{scope_at};
ghost use Rattle.cv_inline_measure.specs.Settings.{IsFound, IsLiveOther, IsLiveSetting, body_in, branch_in, branches_in, caller_at, find_in, live_in, measure_of, term_in};

use crate::added::{Added, beside, of_result, under};
use crate::found::Found;
use crate::setting::Setting;
use crate::terms::{front_extent, term_extent};
use cv_inline::terms::{Caller, Entry, Standing};
use cv_inline_sites::listing::{Parent, Subtree, node_at};
use cv_inline_sites::pairs::{Pair, branch_scope, pairs_with, with_name};
use cv_syntax::Head;
use std::alloc::{AllocError, Global};

/// What a result adds, which is a term of a body.
fn result_extent(
    alloc: Global,
    setting: &Setting,
    caller: &Caller,
    scope: &[Entry],
    root: Subtree,
) -> Result<Added, AllocError>
    requires caller { IsLiveCaller (live_in setting.now) caller.now }
    requires root { IsWithin setting.now.pool.now.trees root }
    ensures { IfOk result (λ a. IsTold a (extents.of_result (measure_of setting.now)
        (term_in setting.now caller.now (scope_at caller.now scope.now) root.root))) }
{
    let count = term_extent(alloc, setting, caller, scope, root.root)?;
    Ok(of_result(setting.measure, count))
}

/// Branches with one more.
fn with_branch(setting: &Setting, found: Found, branch: Added) -> Found
    ensures { (es : List Extent) (o e : Extent) → IsFound setting.now found es o →
        IsTold branch e → IsFound setting.now result (es ++ e ∷ []) o }
{
    Found {
        any: true,
        all: beside(setting.measure, branch, found.all),
    }
}

/// What a find adds, where these are its branches beside its other body.
fn find_extent(setting: &Setting, found: Found) -> Added
    ensures { (es : List Extent) (o : Extent) → IsFound setting.now found es o →
        IsTold result (extents.of_find (measure_of setting.now) es o) }
{
    if found.any {
        under(setting.measure, 0, found.all)
    } else {
        found.all
    }
}

/// What the branch of a find at a place adds for a branch of the text and the calls of a site.
#[cycle(body)]
fn branch(
    alloc: Global,
    setting: &Setting,
    caller: &Caller,
    scope: &[Entry],
    place: u32,
    list: Subtree,
    other: &Caller,
    pair: Pair,
) -> Result<Added, AllocError>
    requires setting { IsLiveSetting setting.now }
    requires caller { IsLiveCaller (live_in setting.now) caller.now }
    requires list { IsWithin setting.now.pool.now.trees list }
    requires other { IsLiveOther setting.now.pool.now.trees other.now }
    requires pair { IsPairOver setting.now.pool.now.trees list.place list.root pair }
    ensures { IfOk result (λ a. IsTold a (branch_in setting.now caller.now
        (scope_at caller.now scope.now) place other.now pair)) }
{
    let inner = branch_scope(alloc, setting.drawn, caller, scope, place, other, pair)?;
    let front = front_extent(alloc, setting, caller, inner.as_slice(), place, other, pair)?;
    let root = Subtree {
        place: pair.place,
        root: pair.body,
    };
    let inside = body(alloc, setting, caller, inner.as_slice(), root)?;
    Ok(under(setting.measure, front, inside))
}

/// The branches of a find at a place with those for the calls of one more site.
#[cycle(body)]
fn site_branches(
    alloc: Global,
    setting: &Setting,
    caller: &Caller,
    scope: &[Entry],
    place: u32,
    list: Subtree,
    other: &Caller,
    found: Found,
) -> Result<Found, AllocError>
    requires setting { IsLiveSetting setting.now }
    requires caller { IsLiveCaller (live_in setting.now) caller.now }
    requires list { IsWithin setting.now.pool.now.trees list }
    requires other { IsLiveOther setting.now.pool.now.trees other.now }
    ensures { IfOk result (λ f. (es : List Extent) (o : Extent) → IsFound setting.now found es o →
        IsFound setting.now f (es ++ branches_in setting.now caller.now
        (scope_at caller.now scope.now) place (caller_at setting.now other.now) list) o) }
{
    let pairs = pairs_with(alloc, setting.pool, other.bound, list.place, list.root)?;
    let mut all = found;
    'pairs: for pair in pairs.as_slice() {
        let added = branch(alloc, setting, caller, scope, place, list, other, *pair)?;
        all = with_branch(setting, all, added);
    }
    Ok(all)
}

/// What a find at a place adds.
#[cycle(body)]
fn find(
    alloc: Global,
    setting: &Setting,
    caller: &Caller,
    scope: &[Entry],
    place: u32,
    list: Subtree,
    otherwise: Subtree,
) -> Result<Added, AllocError>
    requires setting { IsLiveSetting setting.now }
    requires caller { IsLiveCaller (live_in setting.now) caller.now }
    requires list { IsWithin setting.now.pool.now.trees list }
    requires otherwise { IsWithin setting.now.pool.now.trees otherwise }
    ensures { IfOk result (λ a. IsTold a (find_in setting.now caller.now
        (scope_at caller.now scope.now) place list otherwise)) }
{
    let other = body(alloc, setting, caller, scope, otherwise)?;
    let mut found = Found {
        any: false,
        all: other,
    };
    let callings = setting.callings;
    'sites: for calling in callings {
        found = site_branches(
            alloc,
            setting,
            caller,
            scope,
            place,
            list,
            &calling.caller,
            found,
        )?;
    }
    Ok(find_extent(setting, found))
}

/// What a body adds under a name that is bound, below a node with parts of its own.
#[cycle(body)]
fn bound_body(
    alloc: Global,
    setting: &Setting,
    caller: &Caller,
    scope: &[Entry],
    name: u32,
    parts: u32,
    root: Subtree,
) -> Result<Added, AllocError>
    requires setting { IsLiveSetting setting.now }
    requires caller { IsLiveCaller (live_in setting.now) caller.now }
    requires root { IsWithin setting.now.pool.now.trees root }
    ensures { IfOk result (λ a. (n : ℕ) → parts ≡ told n → IsTold a (extents.under
        (measure_of setting.now) 1 n (body_in setting.now caller.now
        ((name, Own) ∷ scope_at caller.now scope.now) root))) }
{
    let inner = with_name(alloc, scope, name, Standing::Own)?;
    let inside = body(alloc, setting, caller, inner.as_slice(), root)?;
    Ok(under(setting.measure, parts, inside))
}

/// What an `if` adds; without two bodies it is a result.
#[cycle(body)]
fn test(
    alloc: Global,
    setting: &Setting,
    caller: &Caller,
    scope: &[Entry],
    root: Subtree,
    node: Parent,
) -> Result<Added, AllocError>
    requires setting { IsLiveSetting setting.now }
    requires caller { IsLiveCaller (live_in setting.now) caller.now }
    requires root { IsWithin setting.now.pool.now.trees root }
    requires node { IsNodeAt setting.now.pool.now.trees root node }
    requires head { node.head ≡ head.If }
    ensures { IfOk result (λ a. IsTold a (body_in setting.now caller.now
        (scope_at caller.now scope.now) root)) }
{
    let Some(then) = node_at(setting.pool, node.second) else {
        return result_extent(alloc, setting, caller, scope, root);
    };
    let Some(other) = node_at(setting.pool, then.second) else {
        return result_extent(alloc, setting, caller, scope, root);
    };
    let condition = term_extent(alloc, setting, caller, scope, node.first.root)?;
    let first = body(alloc, setting, caller, scope, then.first)?;
    let second = body(alloc, setting, caller, scope, other.first)?;
    Ok(under(
        setting.measure,
        condition,
        beside(setting.measure, first, second),
    ))
}

/// What a body adds.
#[cycle(body)]
pub(crate) fn body(
    alloc: Global,
    setting: &Setting,
    caller: &Caller,
    scope: &[Entry],
    root: Subtree,
) -> Result<Added, AllocError>
    requires setting { IsLiveSetting setting.now }
    requires caller { IsLiveCaller (live_in setting.now) caller.now }
    requires root { IsWithin setting.now.pool.now.trees root }
    ensures { IfOk result (λ a. IsTold a (body_in setting.now caller.now
        (scope_at caller.now scope.now) root)) }
{
    let Some(node) = node_at(setting.pool, root) else {
        return result_extent(alloc, setting, caller, scope, root);
    };
    match node.head {
        Head::New(z, _) => bound_body(alloc, setting, caller, scope, z, 0, node.second),
        Head::Let(z, _) => {
            let term = term_extent(alloc, setting, caller, scope, node.first.root)?;
            bound_body(alloc, setting, caller, scope, z, term, node.second)
        }
        Head::If => test(alloc, setting, caller, scope, root, node),
        Head::Find(_) => find(
            alloc,
            setting,
            caller,
            scope,
            root.place,
            node.first,
            node.second,
        ),
        _ => result_extent(alloc, setting, caller, scope, root),
    }
}
