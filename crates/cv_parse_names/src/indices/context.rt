ghost use Rattle.std.specs.Prelude.{◌≡◌, ◌≤◌, ◌++◌, ℕ, List, length, reverse, IfOk, OnOk};
ghost use Rattle.cv_parse_names.specs.indices.Contexts.{first_place as first, second_place as second};
ghost use Rattle.cv_parse_names.specs.indices.Current.{entered, entered_below, level_below};
ghost use Rattle.cv_parse_names.specs.indices.Stacks.{Descends, Popped, children};

use crate::indices::current::Current;
use cv_syntax::{Head, Make};
use std::alloc::AllocError;

/// What a tree is for the node above it.
#[derive(Clone, Copy, Debug, PartialEq, Eq)]
pub enum Place {
    /// A tree that is written out by itself.
    Plain,
    /// The list that begins with the indices of a channel.
    Channel,
    /// The indices of a channel.
    Indices,
    /// A child of a name, which has none.
    Dropped,
}

/// Where a tree stands: below how many replications, and what it is for the node above it.
#[derive(Clone, Copy, Debug, PartialEq, Eq)]
pub struct Context {
    pub level: usize,
    pub place: Place,
}

/// What the first child of a node is.
pub fn first_place(place: Place, head: Head) -> Place
    ensures { result ≡ first place head }
{
    if place == Place::Dropped {
        return Place::Dropped;
    }
    match head {
        Head::Leaf(_) => Place::Dropped,
        Head::In(_) | Head::Out(_) => Place::Channel,
        Head::Cons if place == Place::Channel => Place::Indices,
        _ => Place::Plain,
    }
}

/// What the second child of a node is.
pub fn second_place(place: Place, head: Head) -> Place
    ensures { result ≡ second place head }
{
    match head {
        Head::Leaf(_) => Place::Dropped,
        _ if place == Place::Dropped => Place::Dropped,
        _ => Place::Plain,
    }
}

/// The context of the next tree. Where none is left, that is the whole process.
pub fn next_context(stack: &mut Vec<Context>) -> Context
    ensures { (names : List ℕ) → Descends (length names) (reverse stack.old.items)
        → Popped names stack.old.items stack.new.items result }
{
    stack.pop().unwrap_or(Context {
        level: 0,
        place: Place::Plain,
    })
}

/// Goes below a part: the children of a node are the next trees, the second one first.
pub fn open(
    stack: &mut Vec<Context>,
    current: &mut Current,
    context: Context,
    make: Make,
) -> Result<(), AllocError>
    requires { context.level ≤ length current.old }
    ensures stack { OnOk result (stack.new.items ≡ stack.old.items ++ children context make) }
    ensures current { OnOk result (current.new ≡ entered context.level make current.old) }
{
    let Make::Over(head) = make else {
        return Ok(());
    };
    let level = go_below(current, context.level, head)?;
    stack.push(Context {
        level: context.level,
        place: first_place(context.place, head),
    })?;
    stack.push(Context {
        level,
        place: second_place(context.place, head),
    })?;
    Ok(())
}

/// Takes the index of a node that replicates, and says how many indices its continuation has.
fn go_below(current: &mut Current, level: usize, head: Head) -> Result<usize, AllocError>
    requires { level ≤ length current.old }
    ensures level { IfOk result (λ n. n ≡ level_below level head) }
    ensures current { OnOk result (current.new ≡ entered_below level head current.old) }
{
    match head {
        Head::Repl(index, _) => {
            current.enter(level, index)?;
            Ok(current.len())
        }
        _ => Ok(level),
    }
}
