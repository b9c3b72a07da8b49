ghost use Rattle.std.specs.Prelude.{◌≡◌, ◌∷◌, All, IfOk, length, map};
ghost use Rattle.cv_pool.specs.Nodes.{ChildBelow};
ghost use Rattle.cv_syntax.specs.PoolTrees.{tree_at};
ghost use Rattle.cv_meaning.specs.contexts.Inlined as bodies;
ghost use Rattle.cv_meaning.specs.contexts.Inlined.{cells_in_game, cells_then, index_terms};
ghost use Rattle.cv_inline.specs.terms.Callers.{IsLiveCaller, caller_in};
ghost use Rattle.cv_inline.specs.terms.Drawings.{drawn_in};
ghost use Rattle.cv_inline.specs.terms.Scopes.{scope_in};
ghost use Rattle.cv_inline.specs.terms.Stacks.{stack};
ghost use Rattle.cv_inline_sites.specs.branches.Cells.{IsLiveCell, cell_tree};
ghost use Rattle.cv_inline_sites.specs.branches.Moves.{moves_by};

use crate::branches::cells::cells;
use crate::branches::needed::Cell;
use cv_inline::terms::{Caller, Drawing, Entry, lone, nothing, put, read_here};
use cv_syntax::{Head, Make, NodeId, Pool, read_node};
use std::alloc::AllocError;

/// Adds what a name of another site's key is in a branch: an index of the branch for one of the site's, or the name.
fn moved_leaf(
    parts: &mut Vec<Make>,
    here: &[(u32, u32)],
    others: &[(u32, u32)],
    indices: &[u32],
    x: u32,
) -> Result<(), AllocError>
    ensures { IfOk result (λ _. stack parts.new.items
        ≡ bodies.moved_leaf (moves_by (index_terms here.now) others.now indices.now) x
        ∷ stack parts.old.items) }
{
    let Some((r, rs)) = others.split_first() else {
        return lone(parts, Head::Leaf(x));
    };
    let Some((u, us)) = indices.split_first() else {
        return lone(parts, Head::Leaf(x));
    };
    if r.0 == x {
        read_here(parts, *u, here)
    } else {
        moved_leaf(parts, here, rs, us, x)
    }
}

/// Adds a term of another site's key, with the indices of a branch in place of the site's.
#[tactic(auto, using(cv_syntax::proofs::Trees::empty_at), unfolding(cv_meaning::specs::contexts::Inlined::moved))]
pub(crate) fn moved(
    pool: &Pool,
    parts: &mut Vec<Make>,
    here: &[(u32, u32)],
    others: &[(u32, u32)],
    indices: &[u32],
    term: Option<NodeId>,
) -> Result<(), AllocError>
    requires { ChildBelow (length pool.now.trees) term }
    ensures { IfOk result (λ _. stack parts.new.items
        ≡ bodies.moved (moves_by (index_terms here.now) others.now indices.now)
        (tree_at pool.now.trees term) ∷ stack parts.old.items) }
{
    let Some(n) = term else {
        return nothing(parts);
    };
    let node = read_node(pool, n);
    match node.head {
        Head::Leaf(x) => moved_leaf(parts, here, others, indices, x),
        head => {
            moved(pool, parts, here, others, indices, node.first)?;
            moved(pool, parts, here, others, indices, node.second)?;
            put(parts, head)
        }
    }
}

/// Adds a cell that another site's key reads, in the same way.
#[tactic(auto, unfolding(cv_meaning::specs::contexts::Inlined::moved))]
fn moved_cell(
    pool: &Pool,
    parts: &mut Vec<Make>,
    here: &[(u32, u32)],
    others: &[(u32, u32)],
    indices: &[u32],
    cell: Cell,
) -> Result<(), AllocError>
    requires { IsLiveCell (length pool.now.trees) cell }
    ensures { IfOk result (λ _. stack parts.new.items
        ≡ bodies.moved (moves_by (index_terms here.now) others.now indices.now)
        (cell_tree pool.now.trees cell) ∷ stack parts.old.items) }
{
    match cell {
        Cell::Bare(x) => moved_leaf(parts, here, others, indices, x),
        Cell::At(x, terms) => {
            moved(pool, parts, here, others, indices, terms)?;
            nothing(parts)?;
            put(parts, Head::Read(x))
        }
    }
}

/// Adds the list of a branch: the cells that the other site's key reads, and then those of the text.
pub(crate) fn moved_cells(
    pool: &Pool,
    drawn: &Drawing,
    caller: &Caller,
    scope: &[Entry],
    parts: &mut Vec<Make>,
    others: &[(u32, u32)],
    indices: &[u32],
    needed: &[Cell],
    list: Option<NodeId>,
) -> Result<(), AllocError>
    requires caller { IsLiveCaller (length pool.now.trees) caller.now }
    requires needed { All (IsLiveCell (length pool.now.trees)) needed.now }
    requires list { ChildBelow (length pool.now.trees) list }
    ensures { IfOk result (λ _. stack parts.new.items ≡ cells_then
        (map (bodies.moved (moves_by (index_terms caller.now.replications.items) others.now
        indices.now)) (map (cell_tree pool.now.trees) needed.now))
        (cells_in_game (drawn_in drawn.now) (caller_in pool.now.trees caller.now)
        (scope_in (index_terms caller.now.replications.items) scope.now)
        (tree_at pool.now.trees list)) ∷ stack parts.old.items) }
{
    let Some((first, rest)) = needed.split_first() else {
        return cells(pool, drawn, caller, scope, parts, list);
    };
    moved_cell(
        pool,
        parts,
        caller.replications.as_slice(),
        others,
        indices,
        *first,
    )?;
    moved_cells(
        pool, drawn, caller, scope, parts, others, indices, rest, list,
    )?;
    put(parts, Head::Cons)
}
