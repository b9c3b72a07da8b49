ghost use Rattle.std.specs.Prelude.{◌≡◌, ◌∷◌, IfOk, length};
ghost use Rattle.cv_pool.specs.Nodes.{ChildBelow};
ghost use Rattle.cv_syntax.specs.PoolTrees.{tree_at};
ghost use Rattle.cv_meaning.specs.contexts.Inlined as bodies;
ghost use Rattle.cv_meaning.specs.contexts.Inlined.{all_equal, index_terms};
ghost use Rattle.cv_inline.specs.terms.Callers.{IsLiveCaller, caller_in};
ghost use Rattle.cv_inline.specs.terms.Drawings.{drawn_in};
ghost use Rattle.cv_inline.specs.terms.Scopes.{scope_in};
ghost use Rattle.cv_inline.specs.terms.Stacks.{stack};
ghost use Rattle.cv_inline_sites.specs.branches.Moves.{IsList, moves_by};

use crate::branches::moving::moved;
use cv_inline::terms::{Caller, Drawing, Entry, copy, in_game, put};
use cv_syntax::{Head, Make, NodeId, Pool, read_node};
use std::alloc::AllocError;

/// Adds the condition of a branch: the equations between another site's key and the rest of the caller's, and then the
/// condition of the text.
#[tactic(auto, using(cv_syntax::proofs::Trees::empty_at, crate::proofs::branches::Keys::equal_keys, crate::proofs::branches::Keys::equal_none, crate::proofs::branches::Keys::equal_end, crate::proofs::branches::Keys::rest_is_list))]
pub(crate) fn condition(
    pool: &Pool,
    drawn: &Drawing,
    caller: &Caller,
    scope: &[Entry],
    parts: &mut Vec<Make>,
    others: &[(u32, u32)],
    indices: &[u32],
    left: Option<NodeId>,
    right: Option<NodeId>,
    term: Option<NodeId>,
) -> Result<(), AllocError>
    requires caller { IsLiveCaller (length pool.now.trees) caller.now }
    requires left { ChildBelow (length pool.now.trees) left }
    requires list { IsList (tree_at pool.now.trees left) }
    requires right { ChildBelow (length pool.now.trees) right }
    requires term { ChildBelow (length pool.now.trees) term }
    ensures { IfOk result (λ _. stack parts.new.items ≡ all_equal
        (bodies.moved (moves_by (index_terms caller.now.replications.items) others.now
        indices.now) (tree_at pool.now.trees left))
        (tree_at pool.now.trees right)
        (bodies.in_game (drawn_in drawn.now) (caller_in pool.now.trees caller.now)
        (scope_in (index_terms caller.now.replications.items) scope.now)
        (tree_at pool.now.trees term)) ∷ stack parts.old.items) }
{
    let Some(m) = left else {
        return in_game(pool, drawn, caller, scope, parts, term);
    };
    let Some(n) = right else {
        return in_game(pool, drawn, caller, scope, parts, term);
    };
    let mine = read_node(pool, m);
    let other = read_node(pool, n);
    moved(
        pool,
        parts,
        caller.replications.as_slice(),
        others,
        indices,
        mine.first,
    )?;
    copy(pool, parts, other.first)?;
    put(parts, Head::Eq)?;
    condition(
        pool,
        drawn,
        caller,
        scope,
        parts,
        others,
        indices,
        mine.second,
        other.second,
        term,
    )?;
    put(parts, Head::And)
}
