// The new names of steps that are found: they are drawn by the rule of the names of cryptographic steps.
ghost use Rattle.std.specs.Prelude.{◌≡◌, ◌+◌, ◌<◌, ◌^◌, ◌↔◌, All, IfOk, IfSome, IsTrue, Some, length, map, take, true};
ghost use Rattle.cv_syntax.specs.PoolTrees.{tree_at};
ghost use Rattle.cv_script.specs.Views.{items_of_step};
ghost use Rattle.cv_step_writer.specs.Proposals.{IsProposalBelow, step_tree};
ghost use Rattle.cv_rule_array_names.specs.Drawings.{AreDrawnFor, DrawsBefore, gives_names};

use cv_inline_draws::names::draw_names;
use cv_inline_draws::taken_names::taken_names;
use cv_step_writer::Proposal;
use cv_syntax::{NameId, Names, NodeId, Pool};
use std::alloc::{AllocError, Global};

/// How many names there are at most, and one more.
const LIMIT: usize = 0x1_0000_0000;

/// Whether so many and so many more stay below the limit.
fn has_room(a: usize, b: usize) -> bool
    ensures { IsTrue result ↔ (a + b < 2 ^ 32) }
{
    a < LIMIT && b < LIMIT - a
}

/// Whether numbers are below a count.
fn are_below(count: u32, numbers: &[u32]) -> bool
    ensures { IsTrue result ↔ All (λ x. x < count) numbers.now }
{
    numbers.iter().all(|x| *x < count)
}

/// The number of a name, once for each place of a list.
fn repeated(alloc: Global, x: u32, places: &[NameId]) -> Result<Vec<u32>, AllocError>
    ensures { IfOk result (λ numbers. numbers.items ≡ map (λ p. x) places.now) }
{
    let mut numbers = Vec::new(alloc);
    'places: for _ in places {
        numbers.push(x)?;
    }
    Ok(numbers)
}

/// The names of these numbers.
fn names_of(alloc: Global, numbers: &[u32]) -> Result<Vec<NameId>, AllocError>
    ensures { IfOk result (λ names. map (λ y. y.0) names.items ≡ numbers.now) }
{
    let mut names = Vec::new(alloc);
    'numbers: for number in numbers {
        names.push(NameId(*number))?;
    }
    Ok(names)
}

/// Draws names for a variable of a game into the table, one for each place of a list. Where the table has no room for them, or lacks
/// a name of file or game, none is drawn.
#[tactic(auto, using(crate::proofs::NamesKept::names_stay))]
fn draw_for(
    alloc: Global,
    names: &mut Names,
    pool: &Pool,
    own: u32,
    game: NodeId,
    x: u32,
    places: &[NameId],
) -> Result<Option<Vec<u32>>, AllocError>
    requires { game.0 < length pool.now.trees }
    ensures drawn { IfOk result (λ o. IfSome o (λ drawn. AreDrawnFor names.old names.new own
        (tree_at pool.now.trees (Some game)) x drawn.items)) }
    ensures kept { take (length names.old) names.new ≡ names.old }
{
    let known = taken_names(alloc, pool, own, Some(game))?;
    let taken = known.as_slice();
    let numbers = repeated(alloc, x, places)?;
    let bases = numbers.as_slice();
    let count = names.len();
    if !are_below(count, taken) {
        return Ok(None);
    }
    if !are_below(count, bases) {
        return Ok(None);
    }
    if !has_room(count as usize, bases.len()) {
        return Ok(None);
    }
    if !has_room(taken.len(), bases.len()) {
        return Ok(None);
    }
    let drawn = draw_names(alloc, names, taken, bases)?;
    Ok(Some(drawn))
}

/// Whether a step gives new names.
fn gives_names(proposal: &Proposal) -> bool
    ensures { result ≡ gives_names proposal.now }
{
    match proposal {
        Proposal::ArrayRename { .. } => true,
        _ => false,
    }
}

/// A step that gives new names, with names that are drawn in their place. Where they can't be drawn there is none.
#[tactic(auto, using(crate::proofs::NamesKept::names_stay))]
fn with_new_names(
    alloc: Global,
    names: &mut Names,
    pool: &Pool,
    own: u32,
    game: NodeId,
    proposal: &Proposal,
) -> Result<Option<Proposal>, AllocError>
    requires { game.0 < length pool.now.trees }
    ensures ready { IfOk result (λ o. IfSome o (λ p. DrawsBefore true names.old names.new own
        (tree_at pool.now.trees (Some game)) (items_of_step (step_tree pool.now.trees p)))) }
    ensures below { IfOk result (λ o. IfSome o (IsProposalBelow (length pool.now.trees))) }
    ensures kept { take (length names.old) names.new ≡ names.old }
{
    let Proposal::ArrayRename { x, to } = proposal else {
        return Ok(None);
    };
    let variable = *x;
    let places = to.as_slice();
    let Some(drawn) = draw_for(alloc, names, pool, own, game, variable.0, places)? else {
        return Ok(None);
    };
    let named = names_of(alloc, drawn.as_slice())?;
    Ok(Some(Proposal::ArrayRename {
        x: variable,
        to: named,
    }))
}

/// A proposed step with names that are drawn in place of its new ones. Where they can't be drawn there is none.
#[tactic(auto, using(crate::proofs::NamesKept::names_stay))]
pub fn with_drawn(
    alloc: Global,
    names: &mut Names,
    pool: &Pool,
    own: u32,
    game: NodeId,
    proposal: Proposal,
) -> Result<Option<Proposal>, AllocError>
    requires game { game.0 < length pool.now.trees }
    requires below { IsProposalBelow (length pool.now.trees) proposal }
    ensures ready { IfOk result (λ o. IfSome o (λ p. DrawsBefore true names.old names.new own
        (tree_at pool.now.trees (Some game)) (items_of_step (step_tree pool.now.trees p)))) }
    ensures below { IfOk result (λ o. IfSome o (IsProposalBelow (length pool.now.trees))) }
    ensures kept { take (length names.old) names.new ≡ names.old }
{
    if !gives_names(&proposal) {
        return Ok(Some(proposal));
    }
    with_new_names(alloc, names, pool, own, game, &proposal)
}
