// What is printed of a report behind the lines of games and steps, by its command.
ghost use Rattle.std.specs.Prelude.{◌≡◌, ◌++◌, IfOk, OnOk};
ghost use Rattle.cv_report.specs.Printed.{counted, counted_with, counts_by as counts_with, counts_text, rest_text as rest_of, sample_text as sample_of, summary_text as summary_of, verdicts_and_end};
ghost use Rattle.cv_report.specs.Text.{end_text as end_of};

use crate::report::{Command, Report, Status, Verdict};
use crate::text::{push_end, push_verdicts_and_end};
use cv_outside::words::sample::file_of;
use cv_print::push_decimal;
use std::alloc::{AllocError, Global};

/// The counts with one verdict more.
fn count_verdict(counts: (u64, u64), verdict: &Verdict) -> (u64, u64)
    ensures { result ≡ counted_with counts verdict.now }
{
    match verdict {
        Verdict::Proved(sum) => (
            counts.0.saturating_add(1),
            counts.1.saturating_add(sum.len()),
        ),
        Verdict::NotProved => counts,
    }
}

/// How many queries are proved, and how many terms their sums have together.
fn count_verdicts(verdicts: &[Verdict]) -> (u64, u64)
    ensures { result ≡ counted (0, 0) verdicts.now }
{
    let mut counts = (0, 0);
    'verdicts: for k in 0..verdicts.len() {
        counts = count_verdict(counts, &verdicts[k]);
    }
    counts
}

/// The three lines on a proof of a sample.
fn counts_text(alloc: Global, number: u32, counts: (u64, u64)) -> Result<Vec<u8>, AllocError>
    ensures { IfOk result (λ v. v.items ≡ counts_text number counts) }
{
    let mut out = Vec::new(alloc);
    out.extend_from_slice(b"sample ")?;
    push_decimal(&mut out, number as u64)?;
    out.extend_from_slice(b"\nproved ")?;
    push_decimal(&mut out, counts.0)?;
    out.extend_from_slice(b"\nterms ")?;
    push_decimal(&mut out, counts.1)?;
    out.extend_from_slice(b"\n")?;
    Ok(out)
}

/// The end line alone.
fn end_text(alloc: Global, status: Status) -> Result<Vec<u8>, AllocError>
    ensures { IfOk result (λ v. v.items ≡ end_of status) }
{
    let mut out = Vec::new(alloc);
    push_end(&mut out, status)?;
    Ok(out)
}

/// The verdicts with the end line: on all queries, or on the one that was asked alone.
fn verdicts_text(alloc: Global, query: Option<u32>, report: &Report) -> Result<Vec<u8>, AllocError>
    ensures { IfOk result (λ v. v.items ≡ verdicts_and_end query report.now) }
{
    let mut out = Vec::new(alloc);
    push_verdicts_and_end(&mut out, query, report)?;
    Ok(out)
}

/// What is printed of a proof of a sample that was read.
fn counts_by(alloc: Global, report: &Report, number: u32) -> Result<Vec<u8>, AllocError>
    ensures { IfOk result (λ v. v.items ≡ counts_with number report.now report.now.status) }
{
    match report.status {
        Status::Memory => end_text(alloc, Status::Memory),
        _ => counts_text(alloc, number, count_verdicts(&report.verdicts)),
    }
}

/// What is printed of a proof of a sample.
fn summary_text(alloc: Global, report: &Report, number: u32) -> Result<Vec<u8>, AllocError>
    ensures { IfOk result (λ v. v.items ≡ summary_of number report.now report.now.file) }
{
    match report.file {
        Some(_) => counts_by(alloc, report, number),
        None => end_text(alloc, report.status),
    }
}

/// What is printed of a sample whose text is asked for.
fn sample_text(alloc: Global, number: u32, status: Status) -> Result<Vec<u8>, AllocError>
    ensures { IfOk result (λ v. v.items ≡ sample_of number status) }
{
    match status {
        Status::Done => file_of(alloc, number),
        other => end_text(alloc, other),
    }
}

/// What is printed of a report behind the lines of games and steps: of a proof the verdicts, by `games` none, of a sample three lines or
/// its own text.
pub fn rest_text(alloc: Global, report: &Report) -> Result<Vec<u8>, AllocError>
    ensures { IfOk result (λ v. v.items ≡ rest_of report.now) }
{
    match report.command {
        Command::Prove {
            moves: _,
            more: _,
            query,
        } => verdicts_text(alloc, query, report),
        Command::Games => end_text(alloc, report.status),
        Command::Sample {
            number,
            prove: true,
        } => summary_text(alloc, report, number),
        Command::Sample {
            number,
            prove: false,
        } => sample_text(alloc, number, report.status),
        Command::Nothing => verdicts_text(alloc, None, report),
    }
}
