ghost use Rattle.std.specs.Prelude.{◌≡◌, ◌∷◌, IfOk, length};
ghost use Rattle.cv_pool.specs.Nodes.{ChildBelow};
ghost use Rattle.cv_syntax.specs.PoolTrees.{tree_at};
ghost use Rattle.cv_meaning.specs.contexts.Inlined.{cell_in_game, cells_in_game, index_terms};
ghost use Rattle.cv_inline.specs.terms.Callers.{IsLiveCaller, caller_in};
ghost use Rattle.cv_inline.specs.terms.Drawings.{drawn_in};
ghost use Rattle.cv_inline.specs.terms.Scopes.{scope_in};
ghost use Rattle.cv_inline.specs.terms.Stacks.{stack};

use cv_inline::terms::{Caller, Drawing, Entry, in_game, nothing, own_variable, put};
use cv_syntax::{Head, Make, NodeId, Pool, read_node};
use std::alloc::AllocError;

/// Adds a cell of a right body's list.
fn cell(
    pool: &Pool,
    drawn: &Drawing,
    caller: &Caller,
    scope: &[Entry],
    parts: &mut Vec<Make>,
    term: Option<NodeId>,
) -> Result<(), AllocError>
    requires caller { IsLiveCaller (length pool.now.trees) caller.now }
    requires term { ChildBelow (length pool.now.trees) term }
    ensures { IfOk result (λ _. stack parts.new.items ≡ cell_in_game (drawn_in drawn.now)
        (caller_in pool.now.trees caller.now)
        (scope_in (index_terms caller.now.replications.items) scope.now)
        (tree_at pool.now.trees term) ∷ stack parts.old.items) }
{
    let Some(n) = term else {
        return in_game(pool, drawn, caller, scope, parts, term);
    };
    match read_node(pool, n).head {
        Head::Leaf(x) => own_variable(drawn, caller, parts, x),
        _ => in_game(pool, drawn, caller, scope, parts, term),
    }
}

/// Adds the cells of a right body's list.
#[tactic(auto, using(cv_syntax::proofs::Trees::empty_at), unfolding(cv_meaning::specs::contexts::Inlined::cells_in_game))]
pub(crate) fn cells(
    pool: &Pool,
    drawn: &Drawing,
    caller: &Caller,
    scope: &[Entry],
    parts: &mut Vec<Make>,
    list: Option<NodeId>,
) -> Result<(), AllocError>
    requires caller { IsLiveCaller (length pool.now.trees) caller.now }
    requires list { ChildBelow (length pool.now.trees) list }
    ensures { IfOk result (λ _. stack parts.new.items ≡ cells_in_game (drawn_in drawn.now)
        (caller_in pool.now.trees caller.now)
        (scope_in (index_terms caller.now.replications.items) scope.now)
        (tree_at pool.now.trees list) ∷ stack parts.old.items) }
{
    let Some(n) = list else {
        return nothing(parts);
    };
    let node = read_node(pool, n);
    cell(pool, drawn, caller, scope, parts, node.first)?;
    cells(pool, drawn, caller, scope, parts, node.second)?;
    put(parts, node.head)
}
