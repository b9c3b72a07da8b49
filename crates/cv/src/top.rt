ghost use Rattle.std.specs.Prelude.{◌≡◌, ◌≢◌, Some, map, IfSome, None, string_bytes};
ghost use Rattle.cv_outside.specs.Causes.{NoFault};
ghost use Rattle.cv_report.specs.outcome.Refused.{SaysNothing};
ghost use Rattle.cv_report.specs.outcome.Written.{EndsBy};
ghost use Rattle.cv_outside.specs.words.Words.{asked_of};
ghost use Rattle.cv.specs.Answers.{Begins, IsComplete, IsSilent, Says};
ghost use Rattle.cv.specs.Causes.{outside_of};
ghost use Rattle.cv.specs.Games.{HasCloseGames};
ghost use Rattle.cv.specs.Calls.{HasBoundedCalls};
ghost use Rattle.cv.specs.Steps.{HasCloseSteps};
ghost use Rattle.cv.specs.Strategy.{EndsWell, IsGood, IsSound};
ghost use Rattle.cv.specs.Words.{AsksOnly, SaysOfWords, asked_by, command_of as command_by, files_asked, source_asked, text_asked as text_by};

use crate::asked::{command_of, fetch_source, text_asked};
use crate::decide::{Run, judge, run_refused};
use cv_outside::words::{Request, command, plain_forms_are_read};
use cv_outside::{Shelf, Sink};
use cv_report::outcome::{Outcome, fetch_status, write};
use cv_report::{Command, Status};
use cv_syntax::Work;
use std::alloc::Global;

/// The most nodes of the pool.
const MOST_NODES: u32 = 16_000_000;

/// All but the writing of what is left, where the words ask for more than the text of a sample.
#[tactic(auto, using(crate::proofs::Endings::without_file))]
fn answer<F: Shelf, K: Sink>(
    alloc: Global,
    request: Request<'_>,
    shelf: &mut F,
    sink: &mut K,
) -> Run
    requires more { text_by (asked_of request) ≡ None }
    ensures sound { IsSound result.report }
    ensures games { HasCloseGames result.report }
    ensures steps { HasCloseSteps result.report }
    ensures calls { HasBoundedCalls result.report }
    ensures command { result.report.command ≡ command_by (Some (asked_of request.entry)) }
    ensures never { (result.report.status ≢ Status.Words)
        × (result.report.status ≢ Status.Write) }
    ensures asked { AsksOnly (files_asked (Some (asked_of request.entry)))
        (F.asked shelf.old) (F.asked shelf.new) }
    ensures begins { Begins (outside_of (F.told shelf.old) (Some (asked_of request.entry))
        (F.faults shelf.old) (F.faults shelf.new)) (K.taken sink.old) (K.taken sink.new)
        (K.faults sink.old) (K.faults sink.new) result.stream result.report }
    ensures complete { NoFault (F.faults shelf.old) (F.faults shelf.new)
        → IfSome (source_asked (F.told shelf.old) (Some (asked_of request.entry)))
        (λ source. IsComplete (command_by (Some (asked_of request.entry))) source
        result.report.status) }
{
    let work = Work::new(alloc, MOST_NODES);
    let command = command_of(request);
    match fetch_source(alloc, request, shelf) {
        Ok(source) => judge(alloc, work, command, &source, sink),
        Err(fault) => run_refused(alloc, work, command, fetch_status(fault)),
    }
}

/// A run that reads no file.
fn run_without_file(alloc: Global, command: Command, status: Status) -> Run
    ensures status { result.report.status ≡ status }
    ensures command { result.report.command ≡ command }
    ensures file { result.report.file ≡ None }
    ensures nothing { SaysNothing result.report }
    ensures silent { IsSilent result.stream }
{
    run_refused(alloc, Work::new(alloc, MOST_NODES), command, status)
}

/// All but the writing of what is left.
#[tactic(auto, using(crate::proofs::Endings::without_file))]
fn decide<F: Shelf, K: Sink>(alloc: Global, words: &[String], shelf: &mut F, sink: &mut K) -> Run
    ensures sound { IsSound result.report }
    ensures games { HasCloseGames result.report }
    ensures steps { HasCloseSteps result.report }
    ensures calls { HasBoundedCalls result.report }
    ensures words { SaysOfWords (map string_bytes words.now) result.report }
    ensures never { result.report.status ≢ Status.Write }
    ensures asked { AsksOnly (files_asked (asked_by words.now))
        (F.asked shelf.old) (F.asked shelf.new) }
    ensures begins { Begins (outside_of (F.told shelf.old) (asked_by words.now)
        (F.faults shelf.old) (F.faults shelf.new)) (K.taken sink.old) (K.taken sink.new)
        (K.faults sink.old) (K.faults sink.new) result.stream result.report }
    ensures complete { NoFault (F.faults shelf.old) (F.faults shelf.new)
        → IfSome (source_asked (F.told shelf.old) (asked_by words.now))
        (λ source. IsComplete (command_by (asked_by words.now)) source result.report.status) }
{
    plain_forms_are_read();
    let Ok(asked) = command(alloc, words) else {
        return run_without_file(alloc, Command::Nothing, Status::Memory);
    };
    let Some(request) = asked else {
        return run_without_file(alloc, Command::Nothing, Status::Words);
    };
    match text_asked(request) {
        Some(_) => run_without_file(alloc, command_of(request), Status::Done),
        None => answer(alloc, request, shelf, sink),
    }
}

/// All that the program does, from the words of the command line to the bytes of the report.
pub fn run<F: Shelf, K: Sink>(
    alloc: Global,
    words: &[String],
    shelf: &mut F,
    sink: &mut K,
) -> Outcome
    // There is a course of steps, from the game of the report's file on, of which `headline`, `games`, `steps` and `calls` hold:
    // what is called proved holds, for all meanings that satisfy the declarations, and all adversaries. Whatever the shelf, there
    // is a source of which the file is the reading: what stands under the names that the words give, where the shelf tells it, or the
    // sample of which a proof is asked. Steps, verdicts and status are those of its proof block, or without one of steps that were
    // found; under `games` none are looked for. The status has its cause. What was taken is a front of the lines of this course with
    // what is printed behind them, and all of that where the run ends by neither Write nor Memory.
    ensures says { Says (outside_of (F.told shelf.old) (asked_by words.now)
        (F.faults shelf.old) (F.faults shelf.new)) (K.taken sink.old) (K.taken sink.new)
        result.status result.report }

    // The command is the one that the words give, and each plain form of words gives what it says. The file that they name
    // is asked for, and directly behind it the library that they name, each at most once and nothing else.
    ensures words { SaysOfWords (map string_bytes words.now) result.report }
    ensures asked { AsksOnly (files_asked (asked_by words.now))
        (F.asked shelf.old) (F.asked shelf.new) }

    // What the told source calls for is said, unless a fault or want of memory comes.
    ensures complete { NoFault (F.faults shelf.old) (F.faults shelf.new)
        → IfSome (source_asked (F.told shelf.old) (asked_by words.now))
        (λ source. IsComplete (command_by (asked_by words.now)) source result.report.status) }
    // A file within the limits is proved each step of whose proof block is accepted, whatever names are drawn, and whose
    // queries are closed by these. Under `games` the run is done.
    ensures good { NoFault (F.faults shelf.old) (F.faults shelf.new)
        → NoFault (K.faults sink.old) (K.faults sink.new)
        → IfSome (source_asked (F.told shelf.old) (asked_by words.now))
        (λ source. IsGood source → EndsWell (command_by (asked_by words.now)) result.status) }

    // The run ends by the report's status, or by Write.
    ensures ends { EndsBy (K.faults sink.old) (K.faults sink.new) result.status result.report }
{
    let Run { report, stream } = decide(alloc, words, shelf, sink);
    write(alloc, report, stream, sink)
}
