ghost use Rattle.std.specs.Prelude.{◌≡◌, ◌∷◌, ℕ, IfOk, length};
ghost use Rattle.cv_pool.specs.Nodes.{ChildBelow};
ghost use Rattle.cv_syntax_trees.specs.Tree as tree;
ghost use Rattle.cv_syntax.specs.PoolTrees.{tree_at};
ghost use Rattle.cv_meaning.specs.contexts.Inlined.{index_terms};
ghost use Rattle.cv_inline.specs.terms.Callers.{IsLiveCaller, caller_in};
ghost use Rattle.cv_inline.specs.terms.Drawings.{drawn_in};
ghost use Rattle.cv_inline.specs.terms.Scopes.{scope_in};
ghost use Rattle.cv_inline.specs.terms.Stacks.{names_from, stack};
ghost use Rattle.cv_inline_sites.specs.branches.Moves.{IsList, binders_by, front};

use crate::branches::key::condition;
use crate::branches::moving::moved_cells;
use crate::branches::needed::needed;
use cv_inline::terms::{Caller, Drawing, Entry, nothing, put};
use cv_syntax::{Head, Make, NodeId, Pool};
use std::alloc::{AllocError, Global};

/// Adds the indices of a branch, one for each replication.
fn binders(parts: &mut Vec<Make>, others: &[(u32, u32)], indices: &[u32]) -> Result<(), AllocError>
    ensures { IfOk result (λ _. stack parts.new.items
        ≡ tree.binders (binders_by others.now indices.now) ∷ stack parts.old.items) }
{
    let Some((r, rs)) = others.split_first() else {
        return nothing(parts);
    };
    let Some((u, us)) = indices.split_first() else {
        return nothing(parts);
    };
    nothing(parts)?;
    binders(parts, rs, us)?;
    put(parts, Head::Binder(*u, r.1))
}

/// Adds what stands before the body in the branch for another site: the indices, the list and the condition.
pub fn branch_front(
    alloc: Global,
    pool: &Pool,
    drawn: &Drawing,
    caller: &Caller,
    scope: &[Entry],
    parts: &mut Vec<Make>,
    other: &Caller,
    indices: &[u32],
    list: Option<NodeId>,
    term: Option<NodeId>,
) -> Result<(), AllocError>
    requires caller { IsLiveCaller (length pool.now.trees) caller.now }
    requires other { IsLiveCaller (length pool.now.trees) other.now }
    requires key { IsList (tree_at pool.now.trees other.now.key) }
    requires list { ChildBelow (length pool.now.trees) list }
    requires term { ChildBelow (length pool.now.trees) term }
    ensures { (name : ℕ → ℕ) → indices.now ≡ names_from name 0 other.now.replications.items →
        IfOk result (λ _. stack parts.new.items ≡ front (drawn_in drawn.now)
        (caller_in pool.now.trees caller.now)
        (scope_in (index_terms caller.now.replications.items) scope.now) name
        (caller_in pool.now.trees other.now) (tree_at pool.now.trees list)
        (tree_at pool.now.trees term) (stack parts.old.items)) }
{
    let others = other.replications.as_slice();
    let cells = needed(alloc, pool, others, other.key)?;
    binders(parts, others, indices)?;
    moved_cells(
        pool,
        drawn,
        caller,
        scope,
        parts,
        others,
        indices,
        cells.as_slice(),
        list,
    )?;
    condition(
        pool, drawn, caller, scope, parts, others, indices, other.key, caller.key, term,
    )
}
