ghost use Rattle.std.specs.Prelude.{◌≡◌, ◌<◌, IfOk, None, length, true};
ghost use Rattle.cv_syntax.specs.Classes.{queries};
ghost use Rattle.cv_accept.specs.Works.{content_at};
ghost use Rattle.cv_costs.specs.Factors.{parameters_in};
ghost use Rattle.cv_report.specs.verdicts.Verdicts.{verdicts_by};
ghost use Rattle.cv.specs.Runs.{Runs};
ghost use Rattle.cv.specs.Strategy.{is_games};

use crate::decide::Run;
use cv_bound::closings::ClosedQueries;
use cv_outside::Sink;
use cv_report::verdicts::verdicts_of;
use cv_report::{Command, Report, Status, Stream, Verdict};
use cv_syntax::{Decls, File, Work};
use std::alloc::{AllocError, Global};

/// The verdicts on the queries of a file of which none is closed.
fn open_verdicts(alloc: Global, decls: &Decls) -> Result<Vec<Verdict>, AllocError>
    ensures { IfOk result (λ v. v.items ≡ verdicts_by (λ k. None) 1 (queries decls.now.list)) }
{
    let closed = ClosedQueries::new(alloc);
    verdicts_of(alloc, decls, &closed)
}

/// A run over a file without a proof block of which the games are asked for: there is the first alone.
pub fn run_games<K: Sink>(
    alloc: Global,
    work: Work,
    command: Command,
    file: File,
    sink: &mut K,
) -> Run
    requires game { file.game.root.0 < length work.pool.trees }
    requires games { is_games command ≡ true }
    ensures run { Runs (content_at work file.game.root None) file
        (parameters_in work.decls.list) (K.taken sink.old) (K.taken sink.new)
        (K.faults sink.old) (K.faults sink.new) result.stream result.report }
    ensures command { result.report.command ≡ command }
{
    let stream = Stream::begin(alloc, sink, &work, command, file.game);
    let (verdicts, status) = match open_verdicts(alloc, &work.decls) {
        Ok(verdicts) => (verdicts, Status::Done),
        Err(_) => (Vec::new(alloc), Status::Memory),
    };
    let report = Report {
        work,
        file: Some(file),
        command,
        script: None,
        verdicts,
        status,
    };
    Run { report, stream }
}
