ghost use Rattle.std.specs.Prelude.{◌≡◌, ◌∷◌, All, IfOk, Some, length, slice_get};
ghost use Rattle.cv_pool.specs.Nodes.{ChildBelow};
ghost use Rattle.cv_syntax_trees.specs.Tree.{second};
ghost use Rattle.cv_syntax.specs.PoolTrees.{tree_at};
ghost use Rattle.cv_meaning.specs.contexts.Groups.{Group};
ghost use Rattle.cv_inline.specs.NextGame.{call_in_game, next_in, numbered};
ghost use Rattle.cv_inline.specs.terms.Drawings.{drawn_in};
ghost use Rattle.cv_inline.specs.terms.Stacks.{stack};
ghost use Rattle.cv_inline_walk.specs.pieces.Pieces.{IsLivePiece, piece_over};
ghost use Rattle.cv_inline_sites.specs.results.Outcomes.{IsLiveOutcome, term_of};
ghost use Rattle.cv_inline_walk.specs.Forms.{behind_call, first_in};
ghost use Rattle.cv_inline_walk.specs.Steps.{HasRightKey, IsLiveStep, calls_of, goes_on, live_in, results_of};

use crate::forms::{First, Form, form_of, head_in};
use crate::fronts::add_front;
use crate::pieces::{Piece, pieces_of};
use crate::step::{Call, Step};
use cv_inline::terms::{Calling, Entry, copy, in_game, nothing, put};
use cv_inline_measure::place_of_site;
use cv_inline_sites::results::{Outcome, with_newest, with_results};
use cv_syntax::children::second_of;
use cv_syntax::{Make, NodeId, Opened, read_node};
use std::alloc::{AllocError, Global};

/// Adds the next game of a part of the context, where these are the results of the calls of the statement.
#[cycle(game)]
pub(crate) fn game(
    alloc: Global,
    step: &Step,
    results: &[Outcome],
    parts: &mut Vec<Make>,
    part: Option<NodeId>,
) -> Result<(), AllocError>
    requires step { IsLiveStep step.now }
    requires results { All (IsLiveOutcome (live_in step.now)) results.now }
    requires part { ChildBelow (live_in step.now) part }
    ensures { (g : Group) → HasRightKey step.now g → IfOk result (λ _. stack parts.new.items
        ≡ next_in (calls_of step.now g) (results_of step.now results.now)
        (tree_at step.now.pool.now.trees part) ∷ stack parts.old.items) }
{
    let Some(n) = part else {
        return nothing(parts);
    };
    let node = read_node(step.pool, n);
    let head = head_in(step, node.head);
    match form_of(node.head) {
        Form::Call(x, l) => add_call(alloc, step, results, parts, x, l, node),
        Form::Name => {
            copy(step.pool, parts, node.first)?;
            copy(step.pool, parts, node.second)?;
            put(parts, head)
        }
        Form::Over(form) => {
            add_first(alloc, step, results, parts, form, node.first)?;
            game(alloc, step, &[], parts, node.second)?;
            put(parts, head)
        }
    }
}

/// Adds what the next game has for the first child of a node.
#[cycle(game)]
fn add_first(
    alloc: Global,
    step: &Step,
    results: &[Outcome],
    parts: &mut Vec<Make>,
    form: First,
    part: Option<NodeId>,
) -> Result<(), AllocError>
    requires step { IsLiveStep step.now }
    requires results { All (IsLiveOutcome (live_in step.now)) results.now }
    requires part { ChildBelow (live_in step.now) part }
    ensures { (g : Group) → HasRightKey step.now g → IfOk result (λ _. stack parts.new.items
        ≡ first_in (calls_of step.now g) (results_of step.now results.now) form
        (tree_at step.now.pool.now.trees part) ∷ stack parts.old.items) }
{
    match form {
        First::Nothing => nothing(parts),
        First::Results => with_results(step.pool, step.drawn, step.callings, results, parts, part),
        First::Same => copy(step.pool, parts, part),
        First::Game => game(alloc, step, &[], parts, part),
    }
}

/// Adds the pieces of a call with a number, where this is its node; in place of its results the statement goes on.
#[cycle(game)]
fn add_call(
    alloc: Global,
    step: &Step,
    results: &[Outcome],
    parts: &mut Vec<Make>,
    answer: u32,
    number: u32,
    node: Opened,
) -> Result<(), AllocError>
    requires step { IsLiveStep step.now }
    requires results { All (IsLiveOutcome (live_in step.now)) results.now }
    requires first { ChildBelow (live_in step.now) node.first }
    requires second { ChildBelow (live_in step.now) node.second }
    ensures { (g : Group) → HasRightKey step.now g → IfOk result (λ _. stack parts.new.items
        ≡ call_in_game (calls_of step.now g) (numbered number (calls_of step.now g).callings)
        (second (tree_at step.now.pool.now.trees node.first))
        (behind_call (calls_of step.now g) (results_of step.now results.now) answer
        (tree_at step.now.pool.now.trees node.second)) ∷ stack parts.old.items) }
{
    let call = Call {
        answer,
        site: place_of_site(step.callings, number),
        rest: node.second,
    };
    let Some(calling) = step.callings.get(call.site) else {
        return go_on(alloc, step, results, parts, call, &[], None);
    };
    let arguments = second_of(step.pool, node.first);
    let pieces = pieces_of(
        alloc,
        step.pool,
        step.drawn,
        step.right_key.0,
        step.callings,
        calling,
        arguments,
    )?;
    'pieces: for piece in pieces.as_slice() {
        add_piece(alloc, step, results, parts, call, calling, piece)?;
    }
    Ok(())
}

/// Adds a piece of a call; at a result the statement goes on.
#[cycle(game)]
fn add_piece(
    alloc: Global,
    step: &Step,
    results: &[Outcome],
    parts: &mut Vec<Make>,
    call: Call,
    calling: &Calling,
    piece: &Piece,
) -> Result<(), AllocError>
    requires step { IsLiveStep step.now }
    requires results { All (IsLiveOutcome (live_in step.now)) results.now }
    requires rest { ChildBelow (live_in step.now) call.rest }
    requires site { slice_get step.now.callings.now call.site ≡ Some calling.now }
    requires piece { IsLivePiece (live_in step.now) (length step.now.callings.now) piece.now }
    ensures { (g : Group) → HasRightKey step.now g → IfOk result (λ _. stack parts.new.items
        ≡ piece_over step.now.pool.now.trees (drawn_in step.now.drawn.now) step.now.callings.now
        calling.now.caller (goes_on step.now g results.now call) piece.now
        (stack parts.old.items)) }
{
    match piece {
        Piece::Nothing => nothing(parts),
        Piece::Put(head) => put(parts, *head),
        Piece::Copy(term) => copy(step.pool, parts, *term),
        Piece::Term(phrase) => in_game(
            step.pool,
            step.drawn,
            &calling.caller,
            phrase.scope.as_slice(),
            parts,
            phrase.term,
        ),
        Piece::Front(front) => add_front(alloc, step, parts, &calling.caller, front),
        Piece::Result(phrase) => go_on(
            alloc,
            step,
            results,
            parts,
            call,
            phrase.scope.as_slice(),
            phrase.term,
        ),
    }
}

/// Adds what stands behind a call, where this term of its site's body is its result.
#[cycle(game)]
fn go_on(
    alloc: Global,
    step: &Step,
    results: &[Outcome],
    parts: &mut Vec<Make>,
    call: Call,
    scope: &[Entry],
    term: Option<NodeId>,
) -> Result<(), AllocError>
    requires step { IsLiveStep step.now }
    requires results { All (IsLiveOutcome (live_in step.now)) results.now }
    requires rest { ChildBelow (live_in step.now) call.rest }
    requires term { ChildBelow (live_in step.now) term }
    ensures { (g : Group) → HasRightKey step.now g → IfOk result (λ _. stack parts.new.items
        ≡ goes_on step.now g results.now call (term_of step.now.pool.now.trees
        (drawn_in step.now.drawn.now) (slice_get step.now.callings.now call.site) scope.now term)
        ∷ stack parts.old.items) }
{
    let more = with_newest(alloc, results, call.answer, call.site, scope, term)?;
    game(alloc, step, more.as_slice(), parts, call.rest)
}
