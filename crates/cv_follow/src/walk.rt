ghost use Rattle.std.specs.Prelude.{◌≡◌, ◌+◌, ◌<◌, ◌≤◌, ◌^◌, All, IfOk, None, OnErr, OnOk, Some, length, map, option_map, false};
ghost use Rattle.cv_syntax.specs.Classes.{queries};
ghost use Rattle.cv_syntax.specs.Declarations.{declarations};
ghost use Rattle.cv_syntax_trees.specs.Tree.{size};
ghost use Rattle.cv_syntax.specs.PoolTrees.{tree_at};
ghost use Rattle.cv_parse.specs.Declaring.{IsBelow};
ghost use Rattle.cv_scope_rules.specs.Phrases.{IsWellFormed};
ghost use Rattle.cv_script.specs.reader.Scripts.{trees_of};
ghost use Rattle.cv_accept.specs.Works.{HasSteps};
ghost use Rattle.cv_accept.specs.Accepted.{most_pool};
ghost use Rattle.cv_context.specs.products.ShapesInCode.{shape_in};
ghost use Rattle.cv_directory.specs.Live.{IsLive};
ghost use Rattle.cv_scene_view.specs.Kept.{scene_of};
ghost use Rattle.cv_kernel_crypto.specs.Applied.{HasEquivalences};
ghost use Rattle.cv_kernel.specs.Closings.{closing_in};
ghost use Rattle.cv_kernel.specs.Keeping.{IsFreed, StaysUpTo};
ghost use Rattle.cv_kernel.specs.Sequences.{SameBehind, Stands, game_in};
ghost use Rattle.cv_report.specs.Lines.{Leg};
ghost use Rattle.cv_report.specs.Streams.{PutsLeg};
ghost use Rattle.cv_report.specs.Text.{EntryLive, leg_in};
ghost use Rattle.cv_bound.specs.closings.Queries.{first_unclosed, numbers_of, sum_in};
ghost use Rattle.cv_report.specs.verdicts.Verdicts.{ended_with};
ghost use Rattle.cv_follow.specs.Courses.{IsLegOf, PutsCourse, PutsSome};
ghost use Rattle.cv_follow.specs.Walks.{IsStopped, IsWalk, next_of, stop_of};

use cv_bound::Cost;
use cv_context::products::Shape;
use cv_kernel::{PushError, Sequence, closing_of};
use cv_outside::Sink;
use cv_report::verdicts::{end_of, verdicts_of};
use cv_report::{Cause, Entry, Status, Stream, Verdict, Which};
use cv_script::Step;
use cv_syntax::{BuildError, Decls, Game, Mark, Pool, Work};
use std::alloc::{AllocError, Global};

/// How far steps were followed or found: the verdicts, and how the run ends. Where memory ran out there are no verdicts.
#[derive(Drop)]
pub struct Walk {
    pub verdicts: Vec<Verdict>,
    pub status: Status,
}

impl Walk {
    ghost use Rattle.std.specs.Prelude.{[]};

    /// Memory ran out.
    pub(crate) fn out_of_memory(alloc: Global) -> Walk
        ensures status { result.status ≡ Status.Memory }
        ensures verdicts { result.verdicts.items ≡ [] }
    {
        Walk {
            verdicts: Vec::new(alloc),
            status: Status::Memory,
        }
    }
}

/// How a run ends whose next step isn't accepted, behind so many. Want of memory is no end of these.
pub(crate) fn stop_of(fault: PushError, count: u32) -> Option<Status>
    requires { count < 2 ^ 31 }
    ensures { result ≡ stop_of fault count }
{
    match fault {
        PushError::Refused(failure) => Some(Status::Open(Cause::StepRefused {
            step: count + 1,
            condition: failure.condition,
            place: failure.place,
        })),
        PushError::Steps => Some(Status::Limit(Which::Steps)),
        PushError::Build(BuildError::Nodes { count }) => Some(Status::Limit(Which::Nodes {
            count,
        })),
        PushError::Build(BuildError::Depth { depth }) => Some(Status::Limit(Which::Depth {
            depth,
        })),
        PushError::Build(BuildError::Full { need }) => Some(Status::Limit(Which::Pool { need })),
        PushError::Build(BuildError::OutOfMemory) => None,
    }
}

/// A copy of the shape of the context of the last step, where this was a cryptographic one.
fn context_of(alloc: Global, sequence: &Sequence) -> Result<Option<Shape>, AllocError>
    ensures { IfOk result (λ context. option_map shape_in context
        ≡ option_map shape_in sequence.now.context) }
{
    match sequence.context() {
        Some(context) => Ok(Some(context.copy(alloc)?)),
        None => Ok(None),
    }
}

/// A copy of the cost of the last step.
fn cost_of(alloc: Global, sequence: &Sequence) -> Result<Cost, AllocError>
    ensures { IfOk result (λ cost. sequence.now.cost ≡ Some cost) }
{
    match sequence.cost() {
        Some(cost) => cost.copy(alloc),
        None => Err(AllocError),
    }
}

/// The game that the last step led to, where it closed no query.
fn next_of(pool: &Pool, sequence: &Sequence, step: Step) -> Option<Game>
    requires { step.0.0 < length pool.now.trees }
    ensures { result ≡ next_of (closing_in (tree_at pool.now.trees (Some step.0)))
        sequence.now.game }
{
    match closing_of(pool, step) {
        Some(_) => None,
        None => Some(sequence.game()),
    }
}

/// What is told of the last step of a sequence.
fn entry_of(
    alloc: Global,
    work: &Work,
    sequence: &Sequence,
    step: Step,
) -> Result<Entry, AllocError>
    requires step { step.0.0 < length work.now.pool.trees }
    requires game { sequence.now.game.root.0 < length work.now.pool.trees }
    ensures told { IfOk result (λ e. IsLegOf work.now.names work.now.pool.trees sequence.now
        (tree_at work.now.pool.trees (Some step.0)) (leg_in work.now e)) }
    ensures live { IfOk result (EntryLive (length work.now.pool.trees)) }
{
    let cost = cost_of(alloc, sequence)?;
    let context = context_of(alloc, sequence)?;
    let next = next_of(&work.pool, sequence, step);
    Ok(Entry {
        step,
        cost,
        context,
        next,
    })
}

/// Puts the lines of an accepted step, and gives back the games before the one that it leads to, where they aren't kept.
pub(crate) fn go_on<K: Sink>(
    alloc: Global,
    work: &mut Work,
    sequence: &mut Sequence,
    step: Step,
    mark: Mark,
    stream: &mut Stream,
    sink: &mut K,
) -> Result<(), AllocError>
    requires step { step.0.0 < length work.old.pool.trees }
    requires stands { Stands work.old.pool.trees work.old.decls sequence.old }
    requires declared { All (IsLive mark.0) work.old.decls.list }
    requires mark { mark.0 ≤ length work.old.pool.trees }
    requires limit { work.old.pool.limit < 4294967295 }
    requires few { stream.old.steps < 4294967295 }
    ensures puts { (e : Leg) → IsLegOf work.old.names work.old.pool.trees sequence.old
        (tree_at work.old.pool.trees (Some step.0)) e
        → OnOk result (PutsLeg (K.taken sink.old) (K.taken sink.new) (K.faults sink.old)
        (K.faults sink.new) e stream.old stream.new) }
    ensures cut { (e : Leg) → IsLegOf work.old.names work.old.pool.trees sequence.old
        (tree_at work.old.pool.trees (Some step.0)) e
        → OnErr result (PutsSome (K.taken sink.old) (K.taken sink.new) (K.faults sink.old)
        (K.faults sink.new) e stream.old stream.new) }
    ensures count { OnOk result (stream.new.steps ≡ stream.old.steps + 1) }
    ensures stays { StaysUpTo mark.0 work.old.pool work.new.pool }
    ensures game { OnOk result (game_in work.new.pool.trees sequence.new
        ≡ game_in work.old.pool.trees sequence.old) }
    ensures stands { OnOk result (Stands work.new.pool.trees work.new.decls sequence.new) }
    ensures same { OnOk result (SameBehind sequence.old sequence.new) }
    ensures empty { sequence.old.arrays ≡ None → sequence.new.arrays ≡ None }
    ensures few { length work.new.pool.trees ≤ length work.old.pool.trees }
    ensures freed { stream.new.keeps ≡ false → OnOk result (IsFreed mark.0
        (game_in work.old.pool.trees sequence.old) work.new.pool) }
    ensures names { work.new.names ≡ work.old.names }
    ensures decls { work.new.decls ≡ work.old.decls }
{
    let entry = entry_of(alloc, work, sequence, step)?;
    stream.put_step(alloc, sink, work, entry);
    if stream.keeps() {
        return Ok(());
    }
    sequence.keep(alloc, work, mark)
}

/// What is left of a run that ends so.
pub(crate) fn walk_with_status(
    alloc: Global,
    decls: &Decls,
    sequence: &Sequence,
    status: Status,
) -> Walk
    ensures { IsStopped (sum_in sequence.now.closed) (queries decls.now.list) status result }
{
    match verdicts_of(alloc, decls, sequence.closed()) {
        Ok(verdicts) => Walk { verdicts, status },
        Err(_) => Walk::out_of_memory(alloc),
    }
}

/// What is left of a run whose script was followed to its end.
pub(crate) fn walk_to_end(alloc: Global, decls: &Decls, sequence: &Sequence) -> Walk
    ensures { IsStopped (sum_in sequence.now.closed) (queries decls.now.list)
        (ended_with (first_unclosed (numbers_of sequence.now.closed)
        (length (queries decls.now.list)))) result }
{
    match verdicts_of(alloc, decls, sequence.closed()) {
        Ok(verdicts) => {
            let status = end_of(sequence.closed(), verdicts.as_slice().len() as u32);
            Walk { verdicts, status }
        }
        Err(_) => Walk::out_of_memory(alloc),
    }
}

/// Follows a script without the word from a game on, as long as its steps are accepted, and puts the lines of each. The names that steps
/// draw stand behind the others.
pub(crate) fn follow<K: Sink>(
    alloc: Global,
    work: &mut Work,
    game: Game,
    script: &[Step],
    stream: &mut Stream,
    sink: &mut K,
) -> Walk
    requires game { game.root.0 < length work.old.pool.trees }
    requires small { size (tree_at work.old.pool.trees (Some game.root)) ≤ 50000 }
    requires formed { IsWellFormed (declarations work.old.pool.trees work.old.decls.list)
        (tree_at work.old.pool.trees (Some game.root)) }
    requires below { All (IsBelow (length work.old.pool.trees)) work.old.decls.list }
    requires equivalences { HasEquivalences (scene_of work.old.pool work.old.decls game.root) }
    requires steps { HasSteps work.old.pool.limit work.old.pool.trees script.now }
    requires limit { work.old.pool.limit ≡ most_pool }
    requires begun { stream.old.steps ≡ 0 }
    ensures { IsWalk (length work.old.pool.trees) work.old work.new
        (tree_at work.old.pool.trees (Some game.root)) (trees_of work.old.pool.trees script.now)
        (map (λ n. tree_at work.old.pool.trees (Some n)) (queries work.old.decls.list))
        (PutsCourse (K.taken sink.old) (K.taken sink.new) (K.faults sink.old) (K.faults sink.new)
        work.old (tree_at work.old.pool.trees (Some game.root)) stream.old stream.new) result }
{
    let mut sequence = Sequence::start(alloc, game);
    let mark = work.pool.mark();
    'steps: for step in script {
        match sequence.push(alloc, work, *step) {
            Ok(()) => match go_on(alloc, work, &mut sequence, *step, mark, stream, sink) {
                Ok(()) => {}
                Err(_) => return Walk::out_of_memory(alloc),
            },
            Err(fault) => {
                return match stop_of(fault, sequence.steps()) {
                    Some(status) => walk_with_status(alloc, &work.decls, &sequence, status),
                    None => Walk::out_of_memory(alloc),
                };
            }
        }
    }
    walk_to_end(alloc, &work.decls, &sequence)
}
