ghost use Rattle.std.specs.Prelude.{◌≡◌, ◌<◌, ◌≤◌, All, Some, length};
ghost use Rattle.cv_syntax.specs.Declarations.{declarations};
ghost use Rattle.cv_syntax_trees.specs.Tree.{size};
ghost use Rattle.cv_syntax.specs.PoolTrees.{tree_at};
ghost use Rattle.cv_parse.specs.Declaring.{IsBelow};
ghost use Rattle.cv_scope_rules.specs.Phrases.{IsWellFormed};
ghost use Rattle.cv_accept.specs.Accepted.{most_pool};
ghost use Rattle.cv_kernel_crypto.specs.Applied.{HasEquivalences};
ghost use Rattle.cv_scene_view.specs.Kept.{scene_of};
ghost use Rattle.cv_rehearsals.specs.Works.{IsUnchanged, MayBegin};
ghost use Rattle.cv_follow.specs.Courses.{PutsCourse};
ghost use Rattle.cv_follow.specs.Searches.{HasSearched};

use crate::searching::search_by;
use crate::walk::Walk;
use cv_outside::{Sink, SureSink};
use cv_report::{Status, Stream, Verdict};
use cv_strategy::{MOST_NODES, MOST_REHEARSALS, Rehearsals, Spared, Strategy};
use cv_syntax::{Game, Work};
use std::alloc::{AllocError, Global};

/// Searches for steps by a strategy, but puts nothing, and leaves the work as it was. Tells the verdicts.
fn rehearse(
    alloc: Global,
    work: &mut Work,
    game: Game,
    strategy: &mut Strategy,
    moves: u32,
) -> Result<Vec<Verdict>, AllocError>
    requires { MayBegin work.old game }
    ensures { IsUnchanged work.old work.new }
{
    let before = work.pool.mark();
    let names = work.names.len();
    let mut sink = SureSink::new(alloc, 0)?;
    let mut stream = Stream::silent(alloc);
    let walk = search_by(alloc, work, game, strategy, moves, &mut stream, &mut sink);
    work.pool.release(before);
    work.names.keep(names);
    match walk.status {
        Status::Memory => Err(AllocError),
        _ => Ok(walk.verdicts),
    }
}

/// The costly steps that a search with further moves is to leave out. The work stays as it was.
#[tactic(auto, using(cv_rehearsals::proofs::Works::unchanged))]
fn spared_by_rehearsals(
    alloc: Global,
    work: &mut Work,
    game: Game,
    moves: u32,
) -> Result<Spared, AllocError>
    requires { MayBegin work.old game }
    ensures { IsUnchanged work.old work.new }
{
    let mut rehearsals = Rehearsals::new(alloc);
    'rehearsals: for _ in 0..MOST_REHEARSALS {
        let Some(mut strategy) = rehearsals.next_strategy(alloc)? else {
            return Ok(rehearsals.into_spared());
        };
        let verdicts = rehearse(alloc, work, game, &mut strategy, moves)?;
        rehearsals.rate(alloc, strategy, &verdicts)?;
    }
    Ok(rehearsals.into_spared())
}

/// The strategy of a search: one with further moves is rehearsed. The work stays as it was.
#[tactic(auto, using(cv_rehearsals::proofs::Works::unchanged))]
fn strategy_for(
    alloc: Global,
    work: &mut Work,
    game: Game,
    moves: u32,
    goes_further: bool,
) -> Result<Strategy, AllocError>
    requires { MayBegin work.old game }
    ensures { IsUnchanged work.old work.new }
{
    if !goes_further {
        return Ok(Strategy::new(alloc, false, Spared::new(alloc), MOST_NODES));
    }
    let spared = spared_by_rehearsals(alloc, work, game, moves)?;
    Ok(Strategy::new(alloc, true, spared, MOST_NODES))
}

/// Searches for steps from a game on, in at most so many moves, with or without further ones, and puts the lines of each that is
/// accepted. The names that steps draw stand behind the others.
pub fn search<K: Sink>(
    alloc: Global,
    work: &mut Work,
    game: Game,
    moves: u32,
    goes_further: bool,
    stream: &mut Stream,
    sink: &mut K,
) -> Walk
    requires game { game.root.0 < length work.old.pool.trees }
    requires small { size (tree_at work.old.pool.trees (Some game.root)) ≤ 50000 }
    requires formed { IsWellFormed (declarations work.old.pool.trees work.old.decls.list)
        (tree_at work.old.pool.trees (Some game.root)) }
    requires below { All (IsBelow (length work.old.pool.trees)) work.old.decls.list }
    requires equivalences { HasEquivalences (scene_of work.old.pool work.old.decls game.root) }
    requires limit { work.old.pool.limit ≡ most_pool }
    requires steps { stream.old.steps ≡ 0 }
    ensures { HasSearched work.old work.new (tree_at work.old.pool.trees (Some game.root)) moves
        (PutsCourse (K.taken sink.old) (K.taken sink.new) (K.faults sink.old) (K.faults sink.new)
        work.old (tree_at work.old.pool.trees (Some game.root)) stream.old stream.new) result }
{
    match strategy_for(alloc, work, game, moves, goes_further) {
        Ok(mut strategy) => search_by(alloc, work, game, &mut strategy, moves, stream, sink),
        Err(AllocError) => Walk::out_of_memory(alloc),
    }
}
