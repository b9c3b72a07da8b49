ghost use Rattle.std.specs.Prelude.{◌≡◌, ◌∷◌, ◌<◌, ℕ, List, Some, All, IfOk, length};
ghost use Rattle.cv_pool.specs.Nodes.{ChildBelow};
ghost use Rattle.cv_syntax_trees.specs.Tree.{Tree};
ghost use Rattle.cv_syntax.specs.PoolTrees.{tree_at};
ghost use Rattle.cv_meaning.specs.Correspondences.{typed_names};
ghost use Rattle.cv_meaning.specs.contexts.Groups.{Group};
ghost use Rattle.cv_meaning.specs.contexts.Inlined.{inlined_call};
ghost use Rattle.cv_inline.specs.NextGame.{call_in_game};
ghost use Rattle.cv_inline.specs.terms.Callers.{caller_in};
ghost use Rattle.cv_inline.specs.terms.Drawings.{drawn_in};
ghost use Rattle.cv_inline_sites.specs.listing.Callings.{IsLiveCalling, callers_in, calling_in};
ghost use Rattle.cv_inline_sites.specs.listing.Subtrees.{IsWithin};
ghost use Rattle.cv_inline_walk.specs.pieces.Calls.{inlined_calls};
ghost use Rattle.cv_inline_sites.specs.pairs.Scopes.{scope_at};
ghost use Rattle.cv_inline_walk.specs.pieces.Pieces.{Adds, IsLivePiece, pieced};

use crate::pieces::bodies::body;
use crate::pieces::kinds::put;
use crate::pieces::piece::Piece;
use cv_inline::terms::{Caller, Calling, Drawing, Entry, Standing};
use cv_inline_sites::calls::first_argument;
use cv_inline_sites::listing::Subtree;
use cv_inline_sites::pairs::with_name;
use cv_syntax::children::{first_of, second_of};
use cv_syntax::{Head, NodeId, Pool, read_node};
use std::alloc::{AllocError, Global};

/// Adds the pieces of a call: the arguments that are assigned, and then the body.
fn call(
    alloc: Global,
    pool: &Pool,
    drawn: &Drawing,
    callings: &[Calling],
    caller: &Caller,
    scope: &[Entry],
    binders: Option<NodeId>,
    terms: Option<NodeId>,
    root: Subtree,
    pieces: &mut Vec<Piece>,
) -> Result<(), AllocError>
    requires callings { All (IsLiveCalling pool.now.trees) callings.now }
    requires binders { ChildBelow (length pool.now.trees) binders }
    requires terms { ChildBelow (length pool.now.trees) terms }
    requires body { IsWithin pool.now.trees root }
    requires start { root.place ≡ 0 }
    ensures { IfOk result (λ _. Adds pool.now.trees (drawn_in drawn.now) callings.now caller.now
        pieces.old.items pieces.new.items (λ k ts. inlined_call (drawn_in drawn.now)
        (callers_in pool.now.trees callings.now) (caller_in pool.now.trees caller.now)
        (scope_at caller.now scope.now) (typed_names (tree_at pool.now.trees binders))
        (tree_at pool.now.trees terms) (tree_at pool.now.trees root.root) k ∷ ts)) }
{
    let Some(first) = first_argument(pool, binders, terms) else {
        return body(alloc, pool, drawn, callings, caller, scope, root, pieces);
    };
    pieces.push(Piece::Copy(first.term))?;
    let inner = with_name(alloc, scope, first.name, Standing::Own)?;
    call(
        alloc,
        pool,
        drawn,
        callings,
        caller,
        inner.as_slice(),
        first.binders,
        first.terms,
        root,
        pieces,
    )?;
    let variable = drawn.variable(caller.number, first.name);
    put(pieces, Head::Let(variable, first.of))
}

/// The pieces of the call of a site with these arguments, where this is the name of the right key.
pub fn pieces_of(
    alloc: Global,
    pool: &Pool,
    drawn: &Drawing,
    key: u32,
    callings: &[Calling],
    calling: &Calling,
    arguments: Option<NodeId>,
) -> Result<Vec<Piece>, AllocError>
    requires callings { All (IsLiveCalling pool.now.trees) callings.now }
    requires calling { IsLiveCalling pool.now.trees calling.now }
    requires arguments { ChildBelow (length pool.now.trees) arguments }
    ensures pieced { IfOk result (λ pieces. (x : ℕ) (g : Group) → g.key.0 ≡ key →
        (k : Tree → Tree) (ts : List Tree) →
        pieced pool.now.trees (drawn_in drawn.now) callings.now calling.now.caller k ts pieces.items
        ≡ call_in_game (inlined_calls pool.now.trees (drawn_in drawn.now) x g callings.now)
        (Some (calling_in pool.now.trees calling.now)) (tree_at pool.now.trees arguments) k ∷ ts) }
    ensures live { IfOk result (λ pieces.
        All (IsLivePiece (length pool.now.trees) (length callings.now)) pieces.items) }
{
    let function = Some(calling.function);
    let binders = second_of(pool, first_of(pool, function));
    let root = Subtree {
        place: 0,
        root: second_of(pool, function),
    };
    let mut scope = Vec::new(alloc);
    scope.push(Entry {
        name: key,
        standing: Standing::TheKey,
    })?;
    let mut pieces = Vec::new(alloc);
    call(
        alloc,
        pool,
        drawn,
        callings,
        &calling.caller,
        scope.as_slice(),
        binders,
        arguments,
        root,
        &mut pieces,
    )?;
    Ok(pieces)
}
