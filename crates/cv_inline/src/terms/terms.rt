ghost use Rattle.std.specs.Prelude.{◌≡◌, ◌∷◌, ◌==◌, IfOk, length, option_map};
ghost use Rattle.std.specs.List.{list_any};
ghost use Rattle.cv_pool.specs.Nodes.{ChildBelow};
ghost use Rattle.cv_syntax_trees.specs.Tree.{Tree};
ghost use Rattle.cv_syntax.specs.PoolTrees.{tree_at};
ghost use Rattle.cv_meaning.specs.contexts.Inlined as bodies;
ghost use Rattle.cv_meaning.specs.contexts.Inlined.{array_in_game, index_terms, leaf_in_game, read_at};
ghost use Rattle.cv_inline.specs.terms.Callers.{IsLiveCaller, caller_in, unbound_name};
ghost use Rattle.cv_inline.specs.terms.Drawings.{drawn_in};
ghost use Rattle.cv_inline.specs.terms.Scopes.{both, called_at, called_by, pair_by, same_call, scope_in};
ghost use Rattle.cv_inline.specs.terms.Stacks.{stack};

use crate::terms::caller::Caller;
use crate::terms::drawn::Drawing;
use crate::terms::parts::{copy, lone, nothing, put};
use crate::terms::reading::{own_variable, read_tuple, tuples_equal};
use crate::terms::scope::{Called, Entry, Standing, call_in, standing_of};
use cv_syntax::children::{first_of, is_empty};
use cv_syntax::{Head, Make, NodeId, Pool, read_node};
use std::alloc::AllocError;

/// Whether a name is one of those that a function assigns.
fn is_own(names: &[u32], x: u32) -> bool
    ensures { result ≡ list_any (λ y. y == x) names.now }
{
    names.iter().any(|y| *y == x)
}

/// Adds a variable at the key's indices.
fn read_key(pool: &Pool, caller: &Caller, parts: &mut Vec<Make>, y: u32) -> Result<(), AllocError>
    requires { IsLiveCaller (length pool.now.trees) caller.now }
    ensures { IfOk result (λ _. stack parts.new.items
        ≡ read_at y (tree_at pool.now.trees caller.now.key) ∷ stack parts.old.items) }
{
    if is_empty(pool, caller.key) {
        return lone(parts, Head::Leaf(y));
    }
    copy(pool, parts, caller.key)?;
    nothing(parts)?;
    put(parts, Head::Read(y))
}

/// Adds a name that isn't bound above.
fn unbound(
    drawn: &Drawing,
    caller: &Caller,
    parts: &mut Vec<Make>,
    x: u32,
) -> Result<(), AllocError>
    ensures { IfOk result (λ _. stack parts.new.items
        ≡ unbound_name (drawn_in drawn.now) caller.now x ∷ stack parts.old.items) }
{
    if is_own(caller.names.as_slice(), x) {
        own_variable(drawn, caller, parts, x)
    } else {
        lone(parts, Head::Leaf(x))
    }
}

/// Adds what a name stands for.
fn leaf(
    pool: &Pool,
    drawn: &Drawing,
    caller: &Caller,
    scope: &[Entry],
    parts: &mut Vec<Make>,
    x: u32,
) -> Result<(), AllocError>
    requires { IsLiveCaller (length pool.now.trees) caller.now }
    ensures { IfOk result (λ _. stack parts.new.items
        ≡ leaf_in_game (drawn_in drawn.now) (caller_in pool.now.trees caller.now) x
        (bodies.standing_of (scope_in (index_terms caller.now.replications.items) scope.now) x)
        ∷ stack parts.old.items) }
{
    match standing_of(scope, x) {
        None => unbound(drawn, caller, parts, x),
        Some(Standing::TheKey) => read_key(pool, caller, parts, drawn.key),
        Some(Standing::Own) => own_variable(drawn, caller, parts, x),
        Some(Standing::CallOf { .. }) => lone(parts, Head::No),
    }
}

/// Adds an array's variable at a call.
fn array(
    drawn: &Drawing,
    caller: &Caller,
    parts: &mut Vec<Make>,
    v: u32,
    call: Option<Called>,
) -> Result<(), AllocError>
    ensures { IfOk result (λ _. stack parts.new.items
        ≡ array_in_game (drawn_in drawn.now) v
        (called_by (index_terms caller.now.replications.items) call.entry)
        ∷ stack parts.old.items) }
{
    match call {
        None => lone(parts, Head::No),
        Some(called) => {
            let y = drawn.variable(called.site, v);
            read_tuple(parts, y, caller.replications.as_slice(), called.indices)
        }
    }
}

/// The calls of two terms, if both are calls.
fn calls_in<'a>(
    pool: &Pool,
    scope: &'a [Entry],
    left: Option<NodeId>,
    right: Option<NodeId>,
) -> Option<(Called<'a>, Called<'a>)>
    requires left { ChildBelow (length pool.now.trees) left }
    requires right { ChildBelow (length pool.now.trees) right }
    ensures { (here : Tree) → option_map (pair_by here) result
        ≡ both (bodies.call_in (scope_in here scope.now) (tree_at pool.now.trees left))
        (bodies.call_in (scope_in here scope.now) (tree_at pool.now.trees right)) }
{
    match call_in(pool, scope, left) {
        Some(j) => match call_in(pool, scope, right) {
            Some(k) => Some((j, k)),
            None => None,
        },
        None => None,
    }
}

/// Adds the condition that two calls are one.
fn same_call(
    caller: &Caller,
    parts: &mut Vec<Make>,
    left: Called,
    right: Called,
) -> Result<(), AllocError>
    ensures { IfOk result (λ _. stack parts.new.items
        ≡ same_call (called_at (index_terms caller.now.replications.items) left.entry)
        (called_at (index_terms caller.now.replications.items) right.entry)
        ∷ stack parts.old.items) }
{
    if left.site == right.site {
        tuples_equal(
            parts,
            caller.replications.as_slice(),
            left.indices,
            right.indices,
        )
    } else {
        lone(parts, Head::No)
    }
}

/// Adds a term of a right body as it stands in the game.
pub fn in_game(
    pool: &Pool,
    drawn: &Drawing,
    caller: &Caller,
    scope: &[Entry],
    parts: &mut Vec<Make>,
    term: Option<NodeId>,
) -> Result<(), AllocError>
    requires caller { IsLiveCaller (length pool.now.trees) caller.now }
    requires term { ChildBelow (length pool.now.trees) term }
    ensures { IfOk result (λ _. stack parts.new.items ≡ bodies.in_game (drawn_in drawn.now)
        (caller_in pool.now.trees caller.now)
        (scope_in (index_terms caller.now.replications.items) scope.now)
        (tree_at pool.now.trees term) ∷ stack parts.old.items) }
{
    let Some(n) = term else {
        return nothing(parts);
    };
    let node = read_node(pool, n);
    match node.head {
        Head::Leaf(x) => leaf(pool, drawn, caller, scope, parts, x),
        Head::Read(v) => {
            let call = call_in(pool, scope, first_of(pool, node.first));
            array(drawn, caller, parts, v, call)
        }
        Head::Eq => match calls_in(pool, scope, node.first, node.second) {
            Some((left, right)) => same_call(caller, parts, left, right),
            None => {
                in_game(pool, drawn, caller, scope, parts, node.first)?;
                in_game(pool, drawn, caller, scope, parts, node.second)?;
                put(parts, Head::Eq)
            }
        },
        head => {
            in_game(pool, drawn, caller, scope, parts, node.first)?;
            in_game(pool, drawn, caller, scope, parts, node.second)?;
            put(parts, head)
        }
    }
}
