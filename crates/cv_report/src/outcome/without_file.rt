ghost use Rattle.std.specs.Prelude.{◌≡◌, None};
ghost use Rattle.cv_report.specs.outcome.Refused.{SaysNothing};

use crate::{Command, Report, Status};
use cv_syntax::Work;
use std::alloc::Global;

/// A report on a run that ended before a file was accepted.
pub fn refused(alloc: Global, work: Work, command: Command, status: Status) -> Report
    ensures status { result.status ≡ status }
    ensures command { result.command ≡ command }
    ensures file { result.file ≡ None }
    ensures nothing { SaysNothing result }
{
    Report {
        work,
        file: None,
        command,
        script: None,
        verdicts: Vec::new(alloc),
        status,
    }
}
