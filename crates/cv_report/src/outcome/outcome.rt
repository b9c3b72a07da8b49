ghost use Rattle.std.specs.Prelude.{◌≡◌, ◌≢◌, ◌⊎◌, ℕ, List, Option};
ghost use Rattle.cv_report.specs.Lines.{Lines};
ghost use Rattle.cv_report.specs.Printed.{is_shown};
ghost use Rattle.cv_report.specs.Streams.{Streams};
ghost use Rattle.cv_report.specs.outcome.Refused.{SaysMemory};
ghost use Rattle.cv_report.specs.outcome.Written.{EndsBy, IsWritten, unwritten as unwritten_status};

use crate::{Flow, Report, Status, Stream, rest_text};
use cv_outside::Sink;
use std::alloc::Global;

/// What a run answers: how it ended, by which its exit code goes, and the report that was put.
#[derive(Drop)]
pub struct Outcome {
    pub status: Status,
    pub report: Report,
}

/// How a run ends whose report isn't written to its end. Want of memory merges with no fault.
fn unwritten(status: Status) -> Status
    ensures { result ≡ unwritten_status status }
{
    match status {
        Status::Memory => Status::Memory,
        _ => Status::Write,
    }
}

/// The report of a run that memory ran out in behind some of its steps: it has no verdicts.
pub fn out_of_memory(alloc: Global, report: Report) -> Report
    ensures { SaysMemory report result }
{
    let mut report = report;
    report.verdicts = Vec::new(alloc);
    report.status = Status::Memory;
    report
}

/// Puts what is left of the text of a report, behind the lines of its games and steps. A sink that fails ends the run by `Write`. Without
/// memory for a text no more is put, and the report is one of memory.
pub fn write<K: Sink>(alloc: Global, report: Report, stream: Stream, sink: &mut K) -> Outcome
    ensures kept { (result.report ≡ report) ⊎ SaysMemory report result.report }
    ensures written { (l : Lines) (before : Option (List ℕ)) (old : ℕ)
        → report.status ≢ Status.Write
        → Streams (is_shown report) l before (K.taken sink.old) old (K.faults sink.old) stream
        → IsWritten before (K.taken sink.new) result.status result.report l
        × EndsBy old (K.faults sink.new) result.status result.report }
{
    let mut stream = stream;
    stream.close(sink, rest_text(alloc, &report));
    match stream.flow() {
        Flow::Going => Outcome {
            status: report.status,
            report,
        },
        Flow::Failed => Outcome {
            status: unwritten(report.status),
            report,
        },
        Flow::Spent => Outcome {
            status: Status::Memory,
            report: out_of_memory(alloc, report),
        },
    }
}
