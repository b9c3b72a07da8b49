ghost use Rattle.std.specs.Prelude.{◌≡◌, ◌<◌, ◌^◌, length, option_map, IfOk};
ghost use Rattle.cv_syntax.specs.Classes.{queries};
ghost use Rattle.cv_bound.specs.closings.Queries.{first_unclosed, numbers_of, sum_in};
ghost use Rattle.cv_report.specs.verdicts.Verdicts.{ended_with, verdict_by, verdicts_by};

use crate::{Cause, Status, Verdict};
use cv_bound::Sum;
use cv_bound::closings::ClosedQueries;
use cv_syntax::{Decls, query_at};
use std::alloc::{AllocError, Global};

/// How a run ends whose script was followed to its end, over a file with so many queries: the first one that isn't
/// closed is open.
pub fn end_of(closed: &ClosedQueries, count: u32) -> Status
    ensures { result ≡ ended_with (first_unclosed (numbers_of closed.now) count) }
{
    match closed.first_unclosed(count) {
        Some(number) => Status::Open(Cause::NoClose(number)),
        None => Status::Proved,
    }
}

/// The verdict on a query with this sum, where it is closed.
fn verdict_of(sum: Option<&Sum>) -> Result<Verdict, AllocError>
    ensures { IfOk result (λ v. v ≡ verdict_by (option_map (λ s. s.now) sum.entry)) }
{
    match sum {
        Some(sum) => Ok(Verdict::Proved(sum.copy()?)),
        None => Ok(Verdict::NotProved),
    }
}

/// The verdicts on the queries of a file: one that is closed is proved up to its sum.
pub fn verdicts_of(
    alloc: Global,
    decls: &Decls,
    closed: &ClosedQueries,
) -> Result<Vec<Verdict>, AllocError>
    ensures verdicts { IfOk result (λ v. v.items
        ≡ verdicts_by (sum_in closed.now) 1 (queries decls.now.list)) }
    ensures few { IfOk result (λ v. length v.items < 2 ^ 32) }
{
    let mut verdicts = Vec::new(alloc);
    let mut number = 0;
    'decls: for k in 0..decls.len() {
        if query_at(decls, k).is_none() {
            continue;
        }
        number += 1;
        verdicts.push(verdict_of(closed.sum(number))?)?;
    }
    Ok(verdicts)
}
