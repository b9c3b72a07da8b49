ghost use Rattle.std.specs.Prelude.{◌≡◌, ◌∷◌, IfOk, length};
ghost use Rattle.cv_meaning.specs.contexts.Inlined as bodies;
ghost use Rattle.cv_meaning.specs.contexts.Inlined.{and_equal, read_at};
ghost use Rattle.cv_syntax_trees.specs.Tree as tree;
ghost use Rattle.cv_syntax_trees.specs.declared.head.Head.TheVariants as head;
ghost use Rattle.cv_inline.specs.terms.Drawings.{drawn_in};
ghost use Rattle.cv_inline.specs.terms.Stacks.{equation, stack, tuple_at};

use crate::terms::caller::Caller;
use crate::terms::drawn::Drawing;
use crate::terms::parts::{lone, nothing, put};
use cv_syntax::{Head, Make};
use std::alloc::AllocError;

/// Adds the list of the indices of replications.
fn index_terms(parts: &mut Vec<Make>, replications: &[(u32, u32)]) -> Result<(), AllocError>
    ensures { IfOk result (λ _. stack parts.new.items
        ≡ bodies.index_terms replications.now ∷ stack parts.old.items) }
{
    let Some((first, rest)) = replications.split_first() else {
        return nothing(parts);
    };
    lone(parts, Head::Leaf(first.0))?;
    index_terms(parts, rest)?;
    put(parts, Head::Cons)
}

/// Adds a variable at the indices of replications.
pub fn read_here(
    parts: &mut Vec<Make>,
    y: u32,
    replications: &[(u32, u32)],
) -> Result<(), AllocError>
    ensures { IfOk result (λ _. stack parts.new.items
        ≡ read_at y (bodies.index_terms replications.now) ∷ stack parts.old.items) }
{
    let Some(_) = replications.split_first() else {
        return lone(parts, Head::Leaf(y));
    };
    index_terms(parts, replications)?;
    nothing(parts)?;
    put(parts, Head::Read(y))
}

/// Adds the list of indices of a find, as they are read below replications.
#[tactic(auto, unfolding(crate::specs::terms::Stacks::tuple_at))]
fn tuple(
    parts: &mut Vec<Make>,
    replications: &[(u32, u32)],
    indices: &[u32],
) -> Result<(), AllocError>
    ensures { IfOk result (λ _. stack parts.new.items
        ≡ tuple_at (bodies.index_terms replications.now) indices.now ∷ stack parts.old.items) }
{
    let Some((first, rest)) = indices.split_first() else {
        return nothing(parts);
    };
    read_here(parts, *first, replications)?;
    tuple(parts, replications, rest)?;
    put(parts, Head::Cons)
}

/// Adds a variable at the indices of a find, as they are read below replications.
#[tactic(auto, unfolding(crate::specs::terms::Stacks::tuple_at))]
pub fn read_tuple(
    parts: &mut Vec<Make>,
    y: u32,
    replications: &[(u32, u32)],
    indices: &[u32],
) -> Result<(), AllocError>
    ensures { IfOk result (λ _. stack parts.new.items
        ≡ read_at y (tuple_at (bodies.index_terms replications.now) indices.now)
        ∷ stack parts.old.items) }
{
    let Some(_) = indices.split_first() else {
        return lone(parts, Head::Leaf(y));
    };
    tuple(parts, replications, indices)?;
    nothing(parts)?;
    put(parts, Head::Read(y))
}

/// Adds the equation of two indices, and then the equations between the rest of the indices.
#[tactic(auto, unfolding(crate::specs::terms::Stacks::tuple_at, cv_meaning::specs::contexts::Inlined::and_equal))]
fn equations(
    parts: &mut Vec<Make>,
    replications: &[(u32, u32)],
    x: u32,
    xs: &[u32],
    y: u32,
    ys: &[u32],
) -> Result<(), AllocError>
    ensures { IfOk result (λ _. stack parts.new.items
        ≡ and_equal (equation (bodies.index_terms replications.now) x y)
        (tuple_at (bodies.index_terms replications.now) xs.now)
        (tuple_at (bodies.index_terms replications.now) ys.now) ∷ stack parts.old.items) }
{
    read_here(parts, x, replications)?;
    read_here(parts, y, replications)?;
    put(parts, Head::Eq)?;
    let Some((x, xs)) = xs.split_first() else {
        return Ok(());
    };
    let Some((y, ys)) = ys.split_first() else {
        return Ok(());
    };
    equations(parts, replications, *x, xs, *y, ys)?;
    put(parts, Head::And)
}

/// Adds the condition that the indices of two calls are equal.
#[tactic(auto, unfolding(crate::specs::terms::Stacks::tuple_at))]
pub fn tuples_equal(
    parts: &mut Vec<Make>,
    replications: &[(u32, u32)],
    left: &[u32],
    right: &[u32],
) -> Result<(), AllocError>
    ensures { IfOk result (λ _. stack parts.new.items
        ≡ bodies.tuples_equal (tuple_at (bodies.index_terms replications.now) left.now)
        (tuple_at (bodies.index_terms replications.now) right.now) ∷ stack parts.old.items) }
{
    let Some((x, xs)) = left.split_first() else {
        return lone(parts, Head::Yes);
    };
    let Some((y, ys)) = right.split_first() else {
        return lone(parts, Head::Yes);
    };
    equations(parts, replications, *x, xs, *y, ys)
}

/// Adds the variable that is drawn for a name of the caller's function.
pub fn own_variable(
    drawn: &Drawing,
    caller: &Caller,
    parts: &mut Vec<Make>,
    x: u32,
) -> Result<(), AllocError>
    ensures { IfOk result (λ _. stack parts.new.items
        ≡ read_at ((drawn_in drawn.now).variable caller.now.number x)
        (bodies.index_terms caller.now.replications.items) ∷ stack parts.old.items) }
{
    let y = drawn.variable(caller.number, x);
    read_here(parts, y, caller.replications.as_slice())
}
