// Scripts with the word `simplify`, in whose place steps are found that settle the game.
ghost use Rattle.std.specs.Prelude.{◌≡◌, ◌<◌, ◌≤◌, ◌^◌, All, IfOk, IfSome, OnErr, OnOk, None, Some, length, map, true, false};
ghost use Rattle.cv_pool.specs.PoolView.{Grows};
ghost use Rattle.cv_syntax.specs.Classes.{queries};
ghost use Rattle.cv_syntax.specs.Declarations.{declarations};
ghost use Rattle.cv_syntax_trees.specs.Tree.{size};
ghost use Rattle.cv_syntax.specs.PoolTrees.{tree_at};
ghost use Rattle.cv_syntax.specs.limits.Limits.{nodes_of};
ghost use Rattle.cv_parse.specs.Declaring.{IsBelow};
ghost use Rattle.cv_scope_rules.specs.Phrases.{IsWellFormed};
ghost use Rattle.cv_script.specs.reader.Scripts.{trees_of};
ghost use Rattle.cv_accept.specs.Works.{HasSteps};
ghost use Rattle.cv_accept.specs.Accepted.{most_pool};
ghost use Rattle.cv_scene_view.specs.Kept.{scene_of};
ghost use Rattle.cv_kernel_crypto.specs.Applied.{HasEquivalences};
ghost use Rattle.cv_follow.specs.Courses.{PutsCourse, PutsOn};
ghost use Rattle.cv_follow.specs.Searches.{HasGrown, MayTry};
ghost use Rattle.cv_follow.specs.Fillings.{Advances, BreaksOff, IsBlockWalk, IsFilledWalk, SettlesAll, SettlesOne, TakesOne, ended_by, goes_on_behind, has_word, is_word as is_word_tree, settles as settles_tree};

use crate::searching::{Tried, go_on_behind};
use crate::walk::{Walk, follow, stop_of, walk_to_end, walk_with_status};
use cv_kernel::Sequence;
use cv_outside::Sink;
use cv_report::{Status, Stream};
use cv_script::Step;
use cv_step_writer::write;
use cv_strategy::{MOST_NODES, Spared, Strategy};
use cv_syntax::{Game, Head, Mark, Pool, PoolError, Work, read_node};
use std::alloc::{AllocError, Global};

/// Whether a step of a script is the word.
#[tactic(auto, using(cv_syntax::proofs::Trees::opened))]
fn is_word(pool: &Pool, step: Step) -> bool
    requires { step.0.0 < length pool.now.trees }
    ensures { result ≡ is_word_tree (tree_at pool.now.trees (Some step.0)) }
{
    match read_node(pool, step.0).head {
        Head::SimplifyStep => true,
        _ => false,
    }
}

/// Whether a step is of a kind that settles a game.
#[tactic(auto, using(cv_syntax::proofs::Trees::opened))]
fn settles(pool: &Pool, step: Step) -> bool
    requires { step.0.0 < length pool.now.trees }
    ensures { result ≡ settles_tree (tree_at pool.now.trees (Some step.0)) }
{
    match read_node(pool, step.0).head {
        Head::PruneStep => true,
        Head::MergeStep => true,
        Head::UnnewStep => true,
        Head::UnletStep => true,
        Head::RewriteStep => true,
        Head::BirthdayStep => true,
        Head::GuessStep => true,
        Head::FreshStep => true,
        _ => false,
    }
}

/// Takes a step, where it is accepted. Else it gives how a run ends by it.
#[tactic(auto, using(crate::proofs::Growing::growing))]
fn take_step(
    alloc: Global,
    work: &mut Work,
    sequence: &mut Sequence,
    step: Step,
) -> Result<Option<Status>, AllocError>
    requires may { MayTry work.old sequence.old }
    requires live { step.0.0 < length work.old.pool.trees }
    requires short { nodes_of (tree_at work.old.pool.trees (Some step.0)) < 2 ^ 31 }
    requires few { length work.old.pool.trees ≤ most_pool }
    ensures taken { IfOk result (TakesOne work.old work.new step.0
        (tree_at work.old.pool.trees (Some step.0)) sequence.old sequence.new) }
    ensures again { IfOk result (λ o. MayTry work.new sequence.new) }
    ensures grown { HasGrown work.old work.new }
    ensures room { IfOk result (λ o. length work.new.pool.trees ≤ most_pool) }
{
    let pushed = sequence.push(alloc, work, step);
    sequence.forget();
    match pushed {
        Ok(()) => Ok(None),
        Err(fault) => match stop_of(fault, sequence.steps()) {
            Some(status) => Ok(Some(status)),
            None => Err(AllocError),
        },
    }
}

/// Writes the next step that is proposed to settle a game. There is none either where the pool has no room for one.
#[tactic(auto, using(crate::proofs::Growing::growing))]
fn propose(
    alloc: Global,
    work: &mut Work,
    sequence: &Sequence,
    strategy: &mut Strategy,
) -> Result<Option<Step>, AllocError>
    requires limit { work.old.pool.limit ≡ most_pool }
    ensures grows { Grows work.old.pool work.new.pool }
    ensures names { work.new.names ≡ work.old.names }
    ensures decls { work.new.decls ≡ work.old.decls }
    ensures live { IfOk result (λ o. IfSome o (λ s. s.0.0 < length work.new.pool.trees)) }
    ensures short { IfOk result (λ o. IfSome o (λ s.
        nodes_of (tree_at work.new.pool.trees (Some s.0)) < 2 ^ 31)) }
    ensures few { IfOk result (λ o. IfSome o (λ s. length work.new.pool.trees ≤ most_pool)) }
{
    let root = sequence.game().root;
    match strategy.settle(alloc, &mut work.pool, &work.decls, root) {
        Ok(Some(proposal)) => match write(alloc, &mut work.pool, &proposal) {
            Ok(node) => Ok(Some(Step(node))),
            Err(PoolError::Full { need: _ }) => Ok(None),
            Err(PoolError::OutOfMemory) => Err(AllocError),
        },
        Ok(None) => Ok(None),
        Err(PoolError::Full { need: _ }) => Ok(None),
        Err(PoolError::OutOfMemory) => Err(AllocError),
    }
}

/// Takes a step that was proposed to settle a game, where it is of a kind that does. A refusal is none of the script.
#[tactic(auto, using(crate::proofs::Growing::growing))]
fn try_step(
    alloc: Global,
    work: &mut Work,
    sequence: &mut Sequence,
    step: Step,
) -> Result<Tried, AllocError>
    requires may { MayTry work.old sequence.old }
    requires live { step.0.0 < length work.old.pool.trees }
    requires short { nodes_of (tree_at work.old.pool.trees (Some step.0)) < 2 ^ 31 }
    requires few { length work.old.pool.trees ≤ most_pool }
    ensures tried { IfOk result (SettlesOne work.old work.new sequence.old sequence.new) }
    ensures again { IfOk result (λ o. MayTry work.new sequence.new) }
    ensures grown { HasGrown work.old work.new }
    ensures room { IfOk result (λ o. length work.new.pool.trees ≤ most_pool) }
{
    if !settles(&work.pool, step) {
        return Ok(Tried::Refused);
    }
    match take_step(alloc, work, sequence, step)? {
        None => Ok(Tried::Accepted(step, false)),
        Some(Status::Limit(which)) => Ok(Tried::Passed(which)),
        Some(_) => Ok(Tried::Refused),
    }
}

/// Tries the next step that is proposed to settle a game. Where it isn't taken, the pool goes back to where it was.
#[tactic(auto, using(crate::proofs::Growing::growing))]
fn settle_once(
    alloc: Global,
    work: &mut Work,
    sequence: &mut Sequence,
    strategy: &mut Strategy,
) -> Result<Tried, AllocError>
    requires may { MayTry work.old sequence.old }
    requires few { length work.old.pool.trees ≤ most_pool }
    ensures tried { IfOk result (SettlesOne work.old work.new sequence.old sequence.new) }
    ensures again { IfOk result (λ t. MayTry work.new sequence.new) }
    ensures grown { HasGrown work.old work.new }
    ensures room { IfOk result (λ t. length work.new.pool.trees ≤ most_pool) }
{
    let before = work.pool.mark();
    let Some(step) = propose(alloc, work, sequence, strategy)? else {
        work.pool.release(before);
        return Ok(Tried::Nothing);
    };
    match try_step(alloc, work, sequence, step)? {
        Tried::Accepted(step, moved) => {
            strategy.accept();
            Ok(Tried::Accepted(step, moved))
        }
        Tried::Refused => {
            work.pool.release(before);
            strategy.pass_over();
            Ok(Tried::Refused)
        }
        Tried::Nothing => Ok(Tried::Nothing),
        Tried::Passed(which) => Ok(Tried::Passed(which)),
    }
}

/// Whether more is tried behind a try.
fn goes_on(tried: Tried) -> bool
    ensures { result ≡ goes_on_behind tried }
{
    match tried {
        Tried::Accepted(_, _) => true,
        Tried::Refused => true,
        Tried::Nothing => false,
        Tried::Passed(_) => false,
    }
}

/// How a run ends by the last try.
fn end_by(tried: Tried) -> Option<Status>
    ensures { result ≡ ended_by tried }
{
    match tried {
        Tried::Passed(which) => Some(Status::Limit(which)),
        _ => None,
    }
}

/// Takes the steps that settle a game, as long as some are proposed and no limit is passed, and puts the lines of each: else it gives how
/// the run ends.
fn settle<K: Sink>(
    alloc: Global,
    work: &mut Work,
    sequence: &mut Sequence,
    strategy: &mut Strategy,
    mark: Mark,
    stream: &mut Stream,
    sink: &mut K,
) -> Result<Option<Status>, AllocError>
    requires may { MayTry work.old sequence.old }
    requires few { length work.old.pool.trees ≤ most_pool }
    requires mark { mark.0 ≤ length work.old.pool.trees }
    requires declared { All (IsBelow mark.0) work.old.decls.list }
    requires steps { sequence.old.steps ≡ stream.old.steps }
    ensures settled { IfOk result (SettlesAll mark.0 work.old work.new sequence.old sequence.new
        (λ l m. PutsOn (K.taken sink.old) (K.taken sink.new) (K.faults sink.old)
        (K.faults sink.new) l m stream.old stream.new)) }
    ensures cut { OnErr result (BreaksOff mark.0 work.old work.new sequence.old
        (λ l m. PutsOn (K.taken sink.old) (K.taken sink.new) (K.faults sink.old)
        (K.faults sink.new) l m stream.old stream.new)) }
    ensures again { OnOk result (MayTry work.new sequence.new) }
    ensures room { OnOk result (length work.new.pool.trees ≤ most_pool) }
    ensures steps { OnOk result (sequence.new.steps ≡ stream.new.steps) }
{
    strategy.restart();
    'tries: for _ in 0..u64::MAX {
        let tried = settle_once(alloc, work, sequence, strategy)?;
        if !goes_on(tried) {
            return Ok(end_by(tried));
        }
        go_on_behind(alloc, work, sequence, tried, mark, stream, sink)?;
    }
    Ok(None)
}

/// Takes a step of a script, or those that are found in the place of the word, and puts the lines of each.
fn advance<K: Sink>(
    alloc: Global,
    work: &mut Work,
    sequence: &mut Sequence,
    strategy: &mut Strategy,
    step: Step,
    mark: Mark,
    stream: &mut Stream,
    sink: &mut K,
) -> Result<Option<Status>, AllocError>
    requires may { MayTry work.old sequence.old }
    requires live { step.0.0 < length work.old.pool.trees }
    requires short { nodes_of (tree_at work.old.pool.trees (Some step.0)) < 2 ^ 31 }
    requires few { length work.old.pool.trees ≤ most_pool }
    requires mark { mark.0 ≤ length work.old.pool.trees }
    requires declared { All (IsBelow mark.0) work.old.decls.list }
    requires steps { sequence.old.steps ≡ stream.old.steps }
    ensures advanced { IfOk result (Advances mark.0 work.old work.new
        (tree_at work.old.pool.trees (Some step.0)) sequence.old sequence.new
        (λ l m. PutsOn (K.taken sink.old) (K.taken sink.new) (K.faults sink.old)
        (K.faults sink.new) l m stream.old stream.new)) }
    ensures cut { OnErr result (BreaksOff mark.0 work.old work.new sequence.old
        (λ l m. PutsOn (K.taken sink.old) (K.taken sink.new) (K.faults sink.old)
        (K.faults sink.new) l m stream.old stream.new)) }
    ensures again { OnOk result (MayTry work.new sequence.new) }
    ensures room { OnOk result (length work.new.pool.trees ≤ most_pool) }
    ensures steps { OnOk result (sequence.new.steps ≡ stream.new.steps) }
{
    if is_word(&work.pool, step) {
        return settle(alloc, work, sequence, strategy, mark, stream, sink);
    }
    if let Some(status) = take_step(alloc, work, sequence, step)? {
        return Ok(Some(status));
    }
    let tried = Tried::Accepted(step, false);
    go_on_behind(alloc, work, sequence, tried, mark, stream, sink)?;
    Ok(None)
}

/// Follows a script with the word from a game on, as long as its steps are accepted.
fn fill<K: Sink>(
    alloc: Global,
    work: &mut Work,
    game: Game,
    script: &[Step],
    stream: &mut Stream,
    sink: &mut K,
) -> Walk
    requires game { game.root.0 < length work.old.pool.trees }
    requires small { size (tree_at work.old.pool.trees (Some game.root)) ≤ 50000 }
    requires formed { IsWellFormed (declarations work.old.pool.trees work.old.decls.list)
        (tree_at work.old.pool.trees (Some game.root)) }
    requires below { All (IsBelow (length work.old.pool.trees)) work.old.decls.list }
    requires equivalences { HasEquivalences (scene_of work.old.pool work.old.decls game.root) }
    requires steps { HasSteps work.old.pool.limit work.old.pool.trees script.now }
    requires limit { work.old.pool.limit ≡ most_pool }
    requires begun { stream.old.steps ≡ 0 }
    ensures { IsFilledWalk work.old work.new (tree_at work.old.pool.trees (Some game.root))
        (trees_of work.old.pool.trees script.now)
        (map (λ n. tree_at work.old.pool.trees (Some n)) (queries work.old.decls.list))
        (PutsCourse (K.taken sink.old) (K.taken sink.new) (K.faults sink.old) (K.faults sink.new)
        work.old (tree_at work.old.pool.trees (Some game.root)) stream.old stream.new) result }
{
    let mut sequence = Sequence::start(alloc, game);
    let mut strategy = Strategy::new(alloc, false, Spared::new(alloc), MOST_NODES);
    let mark = work.pool.mark();
    'steps: for step in script {
        let end = advance(
            alloc,
            work,
            &mut sequence,
            &mut strategy,
            *step,
            mark,
            stream,
            sink,
        );
        let Ok(end) = end else {
            return Walk::out_of_memory(alloc);
        };
        if let Some(status) = end {
            return walk_with_status(alloc, &work.decls, &sequence, status);
        }
    }
    walk_to_end(alloc, &work.decls, &sequence)
}

/// Whether a script has the word.
fn has_word(pool: &Pool, script: &[Step]) -> bool
    requires { All (λ s. s.0.0 < length pool.now.trees) script.now }
    ensures { result ≡ has_word (trees_of pool.now.trees script.now) }
{
    'steps: for step in script {
        if is_word(pool, *step) {
            return true;
        }
    }
    false
}

/// Follows a script from a game on, as long as its steps are accepted, and puts the lines of each; in the place of the word steps are
/// found. The names that steps draw stand behind the others.
pub fn follow_block<K: Sink>(
    alloc: Global,
    work: &mut Work,
    game: Game,
    script: &[Step],
    stream: &mut Stream,
    sink: &mut K,
) -> Walk
    requires game { game.root.0 < length work.old.pool.trees }
    requires small { size (tree_at work.old.pool.trees (Some game.root)) ≤ 50000 }
    requires formed { IsWellFormed (declarations work.old.pool.trees work.old.decls.list)
        (tree_at work.old.pool.trees (Some game.root)) }
    requires below { All (IsBelow (length work.old.pool.trees)) work.old.decls.list }
    requires equivalences { HasEquivalences (scene_of work.old.pool work.old.decls game.root) }
    requires steps { HasSteps work.old.pool.limit work.old.pool.trees script.now }
    requires limit { work.old.pool.limit ≡ most_pool }
    requires begun { stream.old.steps ≡ 0 }
    ensures { IsBlockWalk (length work.old.pool.trees) work.old work.new
        (tree_at work.old.pool.trees (Some game.root)) (trees_of work.old.pool.trees script.now)
        (map (λ n. tree_at work.old.pool.trees (Some n)) (queries work.old.decls.list))
        (PutsCourse (K.taken sink.old) (K.taken sink.new) (K.faults sink.old) (K.faults sink.new)
        work.old (tree_at work.old.pool.trees (Some game.root)) stream.old stream.new) result }
{
    if has_word(&work.pool, script) {
        fill(alloc, work, game, script, stream, sink)
    } else {
        follow(alloc, work, game, script, stream, sink)
    }
}
