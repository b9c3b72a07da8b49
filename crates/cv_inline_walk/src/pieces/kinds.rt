ghost use Rattle.std.specs.Prelude.{◌≡◌, ◌∷◌, ◌<◌, ◌^◌, List, Some, IfOk, length, slice_get};
ghost use Rattle.cv_pool.specs.KindTree.{KindTree};
ghost use Rattle.cv_pool.specs.Nodes.{ChildBelow};
ghost use Rattle.cv_syntax.specs.Postorder.{joined};
ghost use Rattle.cv_syntax_trees.specs.Tree.{Empty, Tree};
ghost use Rattle.cv_syntax.specs.PoolTrees.{tree_at};
ghost use Rattle.cv_meaning.specs.contexts.Inlined.{Drawn};
ghost use Rattle.cv_inline.specs.declared.terms.calling.Calling.{Calling};
ghost use Rattle.cv_inline.specs.declared.terms.caller.Caller.{Caller};
ghost use Rattle.cv_inline.specs.terms.Callers.{caller_in};
ghost use Rattle.cv_inline.specs.terms.Scopes.{scope_in};
ghost use Rattle.cv_inline_sites.specs.branches.Moves.{closed_branch, front};
ghost use Rattle.cv_inline_sites.specs.pairs.Scopes.{scope_at};
ghost use Rattle.cv_inline_walk.specs.pieces.Pieces.{Adds, AddsNodes, AddsResult, AddsTerm, closed_if, listed};

use crate::pieces::choices::Choice;
use crate::pieces::piece::{Front, Phrase, Piece};
use cv_inline::terms::Entry;
use cv_inline_sites::pairs::copy_of;
use cv_syntax::{Head, NodeId};
use std::alloc::{AllocError, Global};

/// Adds the tree without nodes.
pub(crate) fn nothing(pieces: &mut Vec<Piece>) -> Result<(), AllocError>
    ensures { IfOk result (λ _. AddsNodes pieces.old.items pieces.new.items (λ ts. Empty ∷ ts)) }
{
    pieces.push(Piece::Nothing)?;
    Ok(())
}

/// Puts a node over the two newest trees.
pub(crate) fn put(pieces: &mut Vec<Piece>, head: Head) -> Result<(), AllocError>
    ensures { IfOk result (λ _. AddsNodes pieces.old.items pieces.new.items (joined head)) }
{
    pieces.push(Piece::Put(head))?;
    Ok(())
}

/// Puts the node of an `if` over its condition and its two bodies.
pub(crate) fn end_if(pieces: &mut Vec<Piece>) -> Result<(), AllocError>
    ensures { IfOk result (λ _. AddsNodes pieces.old.items pieces.new.items closed_if) }
{
    nothing(pieces)?;
    put(pieces, Head::Cons)?;
    put(pieces, Head::Cons)?;
    put(pieces, Head::If)
}

/// Puts the node of a branch over what stands before its body and the body.
pub(crate) fn end_branch(pieces: &mut Vec<Piece>) -> Result<(), AllocError>
    ensures { IfOk result (λ _. AddsNodes pieces.old.items pieces.new.items closed_branch) }
{
    put(pieces, Head::Cons)?;
    put(pieces, Head::Cons)?;
    put(pieces, Head::Branch)
}

/// Makes a list of the newest trees, which are so many.
pub(crate) fn end_list(pieces: &mut Vec<Piece>, many: usize) -> Result<(), AllocError>
    ensures { IfOk result (λ _. AddsNodes pieces.old.items pieces.new.items
        (λ ts. listed many (Empty ∷ ts))) }
{
    nothing(pieces)?;
    'items: for _item in 0..many {
        put(pieces, Head::Cons)?;
    }
    Ok(())
}

/// A term with a copy of a scope.
fn phrase(alloc: Global, scope: &[Entry], term: Option<NodeId>) -> Result<Phrase, AllocError>
    ensures term { IfOk result (λ e. e.term ≡ term) }
    ensures scope { (here : Tree) → IfOk result (λ e. scope_in here e.scope.items
        ≡ scope_in here scope.now) }
{
    let copy = copy_of(alloc, scope)?;
    Ok(Phrase { scope: copy, term })
}

/// Adds a term of a body.
pub(crate) fn add_term(
    alloc: Global,
    scope: &[Entry],
    term: Option<NodeId>,
    pieces: &mut Vec<Piece>,
) -> Result<(), AllocError>
    ensures { IfOk result (λ _. AddsTerm scope.now term pieces.old.items pieces.new.items) }
{
    let phrase = phrase(alloc, scope, term)?;
    pieces.push(Piece::Term(phrase))?;
    Ok(())
}

/// Adds a result of a body.
pub(crate) fn add_result(
    alloc: Global,
    scope: &[Entry],
    term: Option<NodeId>,
    pieces: &mut Vec<Piece>,
) -> Result<(), AllocError>
    ensures { IfOk result (λ _. AddsResult scope.now term pieces.old.items pieces.new.items) }
{
    let phrase = phrase(alloc, scope, term)?;
    pieces.push(Piece::Result(phrase))?;
    Ok(())
}

/// Adds what stands before the body in the branch for the calls of a site, in the scope of the branch.
pub(crate) fn add_front(
    alloc: Global,
    scope: &[Entry],
    place: u32,
    choice: Choice,
    pieces: &mut Vec<Piece>,
) -> Result<(), AllocError>
    ensures { IfOk result (λ _. (trees : List KindTree) (d : Drawn) (callings : List Calling)
        (c : Caller) (s : Calling) → choice.other < length callings →
        slice_get callings choice.other ≡ Some s →
        ChildBelow (length trees) choice.pair.cells →
        ChildBelow (length trees) choice.pair.condition →
        Adds trees d callings c pieces.old.items pieces.new.items (λ k ts. front d
        (caller_in trees c) (scope_at c scope.now)
        (d.index c.number place s.caller.number choice.pair.number) (caller_in trees s.caller)
        (tree_at trees choice.pair.cells) (tree_at trees choice.pair.condition) ts)) }
{
    let copy = copy_of(alloc, scope)?;
    pieces.push(Piece::Front(Front {
        scope: copy,
        other: choice.other,
        place,
        branch: choice.pair.number,
        cells: choice.pair.cells,
        condition: choice.pair.condition,
    }))?;
    Ok(())
}
