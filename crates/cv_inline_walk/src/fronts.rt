ghost use Rattle.std.specs.Prelude.{◌≡◌, IfOk, length, slice_get};
ghost use Rattle.cv_inline.specs.terms.Callers.{IsLiveCaller};
ghost use Rattle.cv_inline.specs.terms.Drawings.{drawn_in};
ghost use Rattle.cv_inline.specs.terms.Stacks.{stack};
ghost use Rattle.cv_inline_walk.specs.pieces.Pieces.{IsLiveFront, front_over};
ghost use Rattle.cv_inline_walk.specs.Steps.{IsLiveStep, live_in};

use crate::pieces::Front;
use crate::step::Step;
use cv_inline::terms::Caller;
use cv_inline_sites::branches::branch_front;
use cv_inline_sites::pairs::drawn_indices;
use cv_syntax::Make;
use std::alloc::{AllocError, Global};

/// Adds what stands before the body in a branch for the calls of a site.
pub(crate) fn add_front(
    alloc: Global,
    step: &Step,
    parts: &mut Vec<Make>,
    caller: &Caller,
    front: &Front,
) -> Result<(), AllocError>
    requires step { IsLiveStep step.now }
    requires caller { IsLiveCaller (live_in step.now) caller.now }
    requires front { IsLiveFront (live_in step.now) (length step.now.callings.now) front.now }
    ensures { IfOk result (λ _. stack parts.new.items
        ≡ front_over step.now.pool.now.trees (drawn_in step.now.drawn.now) caller.now front.now
        (slice_get step.now.callings.now front.now.other) (stack parts.old.items)) }
{
    let other = &step.callings[front.other].caller;
    let indices = drawn_indices(
        alloc,
        step.drawn,
        caller.number,
        front.place,
        other.number,
        front.branch,
        other.replications.as_slice(),
    )?;
    branch_front(
        alloc,
        step.pool,
        step.drawn,
        caller,
        front.scope.as_slice(),
        parts,
        other,
        indices.as_slice(),
        front.cells,
        front.condition,
    )
}
