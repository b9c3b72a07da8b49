ghost use Rattle.std.specs.Prelude.{◌≡◌, ◌+◌, ◌<◌, ◌≤◌, ◌^◌, ℕ, All, IfOk, OnErr, OnOk, Some, length, true};
ghost use Rattle.cv_pool.specs.PoolView.{Grows};
ghost use Rattle.cv_syntax.specs.Classes.{queries};
ghost use Rattle.cv_syntax.specs.PoolTrees.{tree_at};
ghost use Rattle.cv_syntax.specs.limits.Limits.{nodes_of};
ghost use Rattle.cv_parse.specs.Declaring.{IsBelow};
ghost use Rattle.cv_accept.specs.Accepted.{most_pool};
ghost use Rattle.cv_bound.specs.closings.Queries.{first_unclosed, numbers_of, sum_in};
ghost use Rattle.cv_step_writer.specs.Proposals.{IsProposalBelow, step_tree};
ghost use Rattle.cv_script.specs.Views.{items_of_step};
ghost use Rattle.cv_kernel.specs.Keeping.{StaysUpTo};
ghost use Rattle.cv_kernel.specs.Sequences.{game_in};
ghost use Rattle.cv_script.specs.declared.steps.Step.{Step};
ghost use Rattle.cv_rehearsals.specs.Works.{MayBegin};
ghost use Rattle.cv_follow.specs.Courses.{IsReached, PutsCourse};
ghost use Rattle.cv_follow.specs.Walks.{IsStopped};
ghost use Rattle.cv_follow.specs.Searches.{ComesFrom, ComesTo, CutsBehind, HasEnded, HasGrown, HasSearched, IsBehind, IsFailed, IsGivenBack, IsReady, IsReleased, IsSearching, MayTry, PutsBehind, end_of_search, ending_by, is_taken, made_behind, status_of, tried_of};

use crate::walk::{Walk, go_on};
use cv_bound::closings::ClosedQueries;
use cv_kernel::{PushError, Sequence};
use cv_moves::is_move;
use cv_outside::Sink;
use cv_report::verdicts::verdicts_of;
use cv_report::{Cause, Status, Stream, Which};
use cv_rule_array_names::with_drawn;
use cv_script::Step;
use cv_step_writer::{Proposal, write};
use cv_strategy::Strategy;
use cv_syntax::{BuildError, Decls, Game, Mark, Pool, PoolError, Work};
use std::alloc::{AllocError, Global};

/// What comes of a try.
#[derive(Clone, Copy)]
pub enum Tried {
    /// A step was accepted; whether it counts as a move.
    Accepted(Step, bool),
    /// What was proposed isn't taken.
    Refused,
    /// There is no proposal.
    Nothing,
    /// A limit was passed.
    Passed(Which),
}

/// How a search ends.
#[derive(Clone, Copy)]
pub enum Ending {
    /// There is no more proposal, behind so many moves.
    Exhausted(u32),
    /// A limit was passed.
    Stopped(Which),
}

/// What comes of a step that isn't accepted. Want of memory is none of these.
fn tried_by(fault: PushError) -> Option<Tried>
    ensures { result ≡ tried_of fault }
{
    match fault {
        PushError::Refused(_) => Some(Tried::Refused),
        PushError::Steps => Some(Tried::Passed(Which::Steps)),
        PushError::Build(BuildError::Nodes { count }) => Some(Tried::Passed(Which::Nodes {
            count,
        })),
        PushError::Build(BuildError::Depth { depth }) => Some(Tried::Passed(Which::Depth {
            depth,
        })),
        PushError::Build(BuildError::Full { need }) => Some(Tried::Passed(Which::Pool { need })),
        PushError::Build(BuildError::OutOfMemory) => None,
    }
}

/// Takes a step that was written, where it is accepted. A move comes only where one is allowed. Names
/// that were drawn for it are in the table, and are left there.
#[tactic(auto, using(crate::proofs::Growing::growing))]
fn take(
    alloc: Global,
    work: &mut Work,
    sequence: &mut Sequence,
    step: Step,
    advised: bool,
    may_move: bool,
) -> Result<Tried, AllocError>
    requires may { MayTry work.old sequence.old }
    requires live { step.0.0 < length work.old.pool.trees }
    requires short { nodes_of (tree_at work.old.pool.trees (Some step.0)) < 2 ^ 31 }
    requires few { length work.old.pool.trees ≤ most_pool }
    ensures tried { (n : ℕ) → IsReady n work.old sequence.old
        (items_of_step (tree_at work.old.pool.trees (Some step.0))) → IfOk result
        (ComesFrom n work.old work.new may_move sequence.old sequence.new) }
    ensures grown { HasGrown work.old work.new }
{
    let moved = is_move(&work.pool, step.0, advised);
    if moved && !may_move {
        return Ok(Tried::Refused);
    }
    let pushed = sequence.push(alloc, work, step);
    sequence.forget();
    match pushed {
        Ok(()) => Ok(Tried::Accepted(step, moved)),
        Err(fault) => {
            let Some(tried) = tried_by(fault) else {
                return Err(AllocError);
            };
            Ok(tried)
        }
    }
}

/// Writes a step that is proposed, for which names were drawn, and takes it.
#[tactic(auto, using(crate::proofs::Growing::growing))]
fn write_and_take(
    alloc: Global,
    work: &mut Work,
    sequence: &mut Sequence,
    proposal: &Proposal,
    advised: bool,
    may_move: bool,
) -> Result<Tried, AllocError>
    requires may { MayTry work.old sequence.old }
    requires below { IsProposalBelow (length work.old.pool.trees) proposal.now }
    ensures tried { (n : ℕ) → IsReady n work.old sequence.old
        (items_of_step (step_tree work.old.pool.trees proposal.now)) → IfOk result
        (ComesFrom n work.old work.new may_move sequence.old sequence.new) }
    ensures grown { HasGrown work.old work.new }
{
    match write(alloc, &mut work.pool, proposal) {
        Ok(node) => take(alloc, work, sequence, Step(node), advised, may_move),
        Err(PoolError::Full { need }) => Ok(Tried::Passed(Which::Pool { need })),
        Err(PoolError::OutOfMemory) => Err(AllocError),
    }
}

/// Whether a step was taken.
fn is_taken(tried: Tried) -> bool
    ensures { result ≡ is_taken tried }
{
    match tried {
        Tried::Accepted(_, _) => true,
        _ => false,
    }
}

/// Draws the new names of a step that is proposed, and takes it. Where it isn't taken, the table of names goes back to what it was.
#[tactic(auto, using(crate::proofs::Growing::growing))]
fn name_and_take(
    alloc: Global,
    work: &mut Work,
    sequence: &mut Sequence,
    proposal: Proposal,
    advised: bool,
    may_move: bool,
) -> Result<Tried, AllocError>
    requires may { MayTry work.old sequence.old }
    requires below { IsProposalBelow (length work.old.pool.trees) proposal }
    ensures tried { IfOk result (ComesTo work.old work.new may_move sequence.old sequence.new) }
    ensures grown { HasGrown work.old work.new }
{
    let before = work.names.len();
    let own = work.decls.own();
    let root = sequence.game().root;
    let Some(step) = with_drawn(alloc, &mut work.names, &work.pool, own, root, proposal)? else {
        work.names.keep(before);
        return Ok(Tried::Refused);
    };
    let tried = write_and_take(alloc, work, sequence, &step, advised, may_move)?;
    if is_taken(tried) {
        return Ok(tried);
    }
    work.names.keep(before);
    Ok(tried)
}

/// What comes of a proposal that fails. Where the pool has room for so many nodes more, it isn't taken.
#[tactic(auto, using(crate::proofs::Growing::growing))]
fn fail(pool: &mut Pool, fault: PoolError) -> Result<Tried, AllocError>
    ensures failed { IfOk result (IsFailed pool.old pool.new) }
    ensures grows { Grows pool.old pool.new }
{
    let PoolError::Full { need } = fault else {
        return Err(AllocError);
    };
    match pool.reserve(need) {
        Ok(()) => Ok(Tried::Refused),
        Err(PoolError::Full { need }) => Ok(Tried::Passed(Which::Pool { need })),
        Err(PoolError::OutOfMemory) => Err(AllocError),
    }
}

/// Tries the next step that the strategy proposes.
#[tactic(auto, using(crate::proofs::Growing::growing))]
fn try_next(
    alloc: Global,
    work: &mut Work,
    sequence: &mut Sequence,
    strategy: &mut Strategy,
    may_move: bool,
) -> Result<Tried, AllocError>
    requires may { MayTry work.old sequence.old }
    ensures tried { IfOk result (ComesTo work.old work.new may_move sequence.old sequence.new) }
    ensures grown { HasGrown work.old work.new }
{
    let root = sequence.game().root;
    let closed = sequence.closed();
    let step = strategy.propose(alloc, &mut work.pool, &work.decls, root, closed, may_move);
    match step {
        Ok(Some(proposal)) => {
            let advised = strategy.is_moving();
            name_and_take(alloc, work, sequence, proposal, advised, may_move)
        }
        Ok(None) => Ok(Tried::Nothing),
        Err(fault) => fail(&mut work.pool, fault),
    }
}

/// Tries the next step, behind which the pool goes back to where it was if it isn't taken, and tells the strategy.
#[tactic(auto, using(crate::proofs::Growing::growing))]
fn attempt(
    alloc: Global,
    work: &mut Work,
    sequence: &mut Sequence,
    strategy: &mut Strategy,
    may_move: bool,
) -> Result<Tried, AllocError>
    requires may { MayTry work.old sequence.old }
    ensures tried { IfOk result (ComesTo work.old work.new may_move sequence.old sequence.new) }
    ensures back { IfOk result (IsReleased work.old.pool work.new.pool) }
    ensures grown { HasGrown work.old work.new }
{
    let before = work.pool.mark();
    let tried = try_next(alloc, work, sequence, strategy, may_move)?;
    match tried {
        Tried::Accepted(step, moved) => {
            strategy.accept();
            Ok(Tried::Accepted(step, moved))
        }
        Tried::Refused => {
            work.pool.release(before);
            strategy.pass_over();
            Ok(Tried::Refused)
        }
        Tried::Nothing => Ok(Tried::Nothing),
        Tried::Passed(which) => Ok(Tried::Passed(which)),
    }
}

/// How a search ends that has nothing more to propose, over a file with so many queries.
fn end_by(closed: &ClosedQueries, count: u32, made: u32, moves: u32) -> Status
    ensures { result ≡ end_of_search moves made (first_unclosed (numbers_of closed.now) count) }
{
    match closed.first_unclosed(count) {
        None => Status::Proved,
        Some(_) => {
            if made < moves {
                Status::Open(Cause::Stuck)
            } else {
                Status::Open(Cause::Moves)
            }
        }
    }
}

/// How a search ends where a try comes to this, behind so many moves.
fn ending_of(tried: Tried, made: u32) -> Option<Ending>
    ensures { result ≡ ending_by tried made }
{
    match tried {
        Tried::Accepted(_, _) | Tried::Refused => None,
        Tried::Nothing => Some(Ending::Exhausted(made)),
        Tried::Passed(which) => Some(Ending::Stopped(which)),
    }
}

/// How many moves were made behind one try more.
fn moves_behind(tried: Tried, made: u32) -> u32
    requires { (step : Step) → tried ≡ Tried.Accepted step true → made + 1 < 2 ^ 32 }
    ensures { result ≡ made_behind tried made }
{
    match tried {
        Tried::Accepted(_, true) => made + 1,
        _ => made,
    }
}

/// Puts the lines of a step that was taken, and gives back the games before the one that it leads to, where they aren't kept.
pub(crate) fn go_on_behind<K: Sink>(
    alloc: Global,
    work: &mut Work,
    sequence: &mut Sequence,
    tried: Tried,
    mark: Mark,
    stream: &mut Stream,
    sink: &mut K,
) -> Result<(), AllocError>
    requires may { MayTry work.old sequence.old }
    requires behind { IsBehind tried work.old sequence.old stream.old }
    requires mark { mark.0 ≤ length work.old.pool.trees }
    requires declared { All (IsBelow mark.0) work.old.decls.list }
    ensures puts { OnOk result (PutsBehind tried work.old sequence.old (K.taken sink.old)
        (K.taken sink.new) (K.faults sink.old) (K.faults sink.new) stream.old stream.new) }
    ensures cut { OnErr result (CutsBehind tried work.old sequence.old (K.taken sink.old)
        (K.taken sink.new) (K.faults sink.old) (K.faults sink.new) stream.old stream.new) }
    ensures back { OnOk result (IsGivenBack mark.0 work.old work.new sequence.old sequence.new) }
    ensures again { OnOk result (MayTry work.new sequence.new) }
    ensures count { OnOk result (sequence.new.steps ≡ stream.new.steps) }
    ensures stays { StaysUpTo mark.0 work.old.pool work.new.pool }
    ensures names { work.new.names ≡ work.old.names }
    ensures decls { work.new.decls ≡ work.old.decls }
{
    match tried {
        Tried::Accepted(step, _) => go_on(alloc, work, sequence, step, mark, stream, sink),
        _ => Ok(()),
    }
}

/// Tries what the strategy proposes, as long as it proposes something and no limit is passed, in at most so many moves; the lines of
/// each step that is accepted are put.
fn try_all<K: Sink>(
    alloc: Global,
    work: &mut Work,
    sequence: &mut Sequence,
    strategy: &mut Strategy,
    moves: u32,
    stream: &mut Stream,
    sink: &mut K,
) -> Result<Ending, AllocError>
    requires below { All (IsBelow (length work.old.pool.trees)) work.old.decls.list }
    requires steps { sequence.old.steps ≡ stream.old.steps }
    requires begun { IsSearching work.old work.old (game_in work.old.pool.trees sequence.old) 0
        moves sequence.old (PutsCourse (K.taken sink.old) (K.taken sink.old) (K.faults sink.old)
        (K.faults sink.old) work.old (game_in work.old.pool.trees sequence.old) stream.old
        stream.old) }
    ensures ended { IfOk result (HasEnded work.old work.new
        (game_in work.old.pool.trees sequence.old) moves sequence.new
        (PutsCourse (K.taken sink.old) (K.taken sink.new) (K.faults sink.old) (K.faults sink.new)
        work.old (game_in work.old.pool.trees sequence.old) stream.old stream.new)) }
    ensures cut { OnErr result (IsReached true work.old work.new
        (game_in work.old.pool.trees sequence.old)
        (PutsCourse (K.taken sink.old) (K.taken sink.new) (K.faults sink.old) (K.faults sink.new)
        work.old (game_in work.old.pool.trees sequence.old) stream.old stream.new)) }
{
    let mark = work.pool.mark();
    let mut made: u32 = 0;
    'tries: for _ in 0..u64::MAX {
        let tried = attempt(alloc, work, sequence, strategy, made < moves)?;
        match ending_of(tried, made) {
            Some(ending) => return Ok(ending),
            None => made = moves_behind(tried, made),
        }
        go_on_behind(alloc, work, sequence, tried, mark, stream, sink)?;
    }
    Ok(Ending::Exhausted(made))
}

/// How a search ends, over a file with so many queries.
fn end_of_ending(closed: &ClosedQueries, count: u32, ending: Ending, moves: u32) -> Status
    ensures { result ≡ status_of moves ending (first_unclosed (numbers_of closed.now) count) }
{
    match ending {
        Ending::Exhausted(made) => end_by(closed, count, made, moves),
        Ending::Stopped(which) => Status::Limit(which),
    }
}

/// What is left of a search that ended so.
fn finish(alloc: Global, decls: &Decls, closed: &ClosedQueries, ending: Ending, moves: u32) -> Walk
    ensures { IsStopped (sum_in closed.now) (queries decls.now.list)
        (status_of moves ending (first_unclosed (numbers_of closed.now)
        (length (queries decls.now.list)))) result }
{
    match verdicts_of(alloc, decls, closed) {
        Ok(verdicts) => {
            let count = verdicts.as_slice().len() as u32;
            let status = end_of_ending(closed, count, ending, moves);
            Walk { verdicts, status }
        }
        Err(_) => Walk::out_of_memory(alloc),
    }
}

/// Searches for steps from a game on by a strategy, in at most so many moves, and puts the lines of each that is accepted. The names
/// that steps draw stand behind the others.
pub(crate) fn search_by<K: Sink>(
    alloc: Global,
    work: &mut Work,
    game: Game,
    strategy: &mut Strategy,
    moves: u32,
    stream: &mut Stream,
    sink: &mut K,
) -> Walk
    requires begin { MayBegin work.old game }
    requires steps { stream.old.steps ≡ 0 }
    ensures { HasSearched work.old work.new (tree_at work.old.pool.trees (Some game.root)) moves
        (PutsCourse (K.taken sink.old) (K.taken sink.new) (K.faults sink.old) (K.faults sink.new)
        work.old (tree_at work.old.pool.trees (Some game.root)) stream.old stream.new) result }
{
    let mut sequence = Sequence::start(alloc, game);
    let ended = try_all(alloc, work, &mut sequence, strategy, moves, stream, sink);
    match ended {
        Ok(ending) => finish(alloc, &work.decls, sequence.closed(), ending, moves),
        Err(_) => Walk::out_of_memory(alloc),
    }
}
