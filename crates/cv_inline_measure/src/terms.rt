ghost use Rattle.std.specs.Prelude.{◌≡◌, ◌<◌, ◌^◌, IfOk, length};
ghost use Rattle.cv_pool.specs.Nodes.{ChildBelow};
ghost use Rattle.cv_inline_laws.specs.extents.Extents.{extent};
ghost use Rattle.cv_inline.specs.terms.Callers.{IsLiveCaller};
ghost use Rattle.cv_inline.specs.terms.Stacks.{names_from};
ghost use Rattle.cv_syntax.specs.limits.Limits.{told};
ghost use Rattle.cv_inline_sites.specs.pairs.Scopes.{scope_at};
ghost use Rattle.cv_inline_measure.specs.Settings.{IsLiveOther, front_in, live_in, measure_of, names_in, term_in};

use crate::parts::extent_of;
use crate::setting::Setting;
use cv_inline::terms::{Caller, Entry, in_game, nothing, put};
use cv_inline_sites::branches::branch_front;
use cv_inline_sites::pairs::{Pair, drawn_indices};
use cv_syntax::{Head, NodeId};
use std::alloc::{AllocError, Global};

/// What a term of a body has in the game.
pub(crate) fn term_extent(
    alloc: Global,
    setting: &Setting,
    caller: &Caller,
    scope: &[Entry],
    term: Option<NodeId>,
) -> Result<u32, AllocError>
    requires caller { IsLiveCaller (live_in setting.now) caller.now }
    requires term { ChildBelow (live_in setting.now) term }
    ensures { IfOk result (λ n. n ≡ told (extent (measure_of setting.now)
        (term_in setting.now caller.now (scope_at caller.now scope.now) term))) }
{
    let mut parts = Vec::new(alloc);
    in_game(setting.pool, setting.drawn, caller, scope, &mut parts, term)?;
    extent_of(alloc, setting.measure, parts.as_slice())
}

/// The indices of the branch of a find at a place for the calls of another site.
fn indices_of(
    alloc: Global,
    setting: &Setting,
    caller: &Caller,
    place: u32,
    other: &Caller,
    pair: Pair,
) -> Result<Vec<u32>, AllocError>
    requires { length other.now.replications.items < 2 ^ 32 }
    ensures { IfOk result (λ names. names.items ≡ names_from (names_in setting.now caller.now place
        other.now pair) 0 other.now.replications.items) }
{
    drawn_indices(
        alloc,
        setting.drawn,
        caller.number,
        place,
        other.number,
        pair.number,
        other.replications.as_slice(),
    )
}

/// What stands before the body in the branch of a find at a place for the calls of another site, in the scope of the
/// branch.
pub(crate) fn front_extent(
    alloc: Global,
    setting: &Setting,
    caller: &Caller,
    scope: &[Entry],
    place: u32,
    other: &Caller,
    pair: Pair,
) -> Result<u32, AllocError>
    requires caller { IsLiveCaller (live_in setting.now) caller.now }
    requires other { IsLiveOther setting.now.pool.now.trees other.now }
    requires cells { ChildBelow (live_in setting.now) pair.cells }
    requires condition { ChildBelow (live_in setting.now) pair.condition }
    ensures { IfOk result (λ n. n ≡ told (front_in setting.now caller.now
        (scope_at caller.now scope.now) place other.now pair)) }
{
    let indices = indices_of(alloc, setting, caller, place, other, pair)?;
    let mut parts = Vec::new(alloc);
    branch_front(
        alloc,
        setting.pool,
        setting.drawn,
        caller,
        scope,
        &mut parts,
        other,
        indices.as_slice(),
        pair.cells,
        pair.condition,
    )?;
    nothing(&mut parts)?;
    put(&mut parts, Head::Cons)?;
    put(&mut parts, Head::Cons)?;
    put(&mut parts, Head::Cons)?;
    extent_of(alloc, setting.measure, parts.as_slice())
}
