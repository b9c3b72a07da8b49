// The tests whose bodies are equal.
use crate::tally::Tally;
use cv_grounds::{items, open};
use cv_settling_overview::walk::{Branch, Overview, branch_of};
use cv_syntax::{Head, NodeId, Pool};
use std::alloc::{AllocError, Global};

/// Counts the indices of a branch, its cells and its condition.
fn count_guards(tally: &mut Tally, pool: &Pool, branch: Branch) -> Result<(), AllocError> {
    if let Some(list) = branch.indices {
        tally.count(pool, list)?;
    }
    if let Some(list) = branch.cells {
        tally.count(pool, list)?;
    }
    tally.count(pool, branch.condition)
}

/// Whether each variable that is counted is counted everywhere.
fn are_all_counted(overview: &Overview, tally: &Tally) -> bool {
    for x in tally.defined() {
        let variable = overview.variables.get(*x);
        let names = variable.reads.saturating_add(variable.cells);
        if variable.sites != tally.sites(*x) || names != tally.names(*x) {
            return false;
        }
    }
    true
}

/// Whether a test whose bodies are equal may be merged: the indices of a `find` are named in its own conditions and cells alone.
fn is_candidate(
    alloc: Global,
    pool: &Pool,
    overview: &Overview,
    n: NodeId,
) -> Result<bool, AllocError> {
    let Some(node) = open(pool, n) else {
        return Ok(false);
    };
    let Head::Find(_) = node.head else {
        return Ok(true);
    };
    let mut tally = Tally::new(alloc);
    for item in &items(alloc, pool, node.first)? {
        let Some(branch) = branch_of(pool, *item) else {
            return Ok(false);
        };
        count_guards(&mut tally, pool, branch)?;
    }
    Ok(are_all_counted(overview, &tally))
}

/// The place of a test that may be merged: the first one, where so many are passed over.
pub(crate) fn find(
    alloc: Global,
    pool: &Pool,
    overview: &Overview,
    left: &mut u32,
) -> Result<Option<u32>, AllocError> {
    for merger in &overview.mergers {
        if is_candidate(alloc, pool, overview, merger.node)? {
            if *left == 0 {
                return Ok(Some(merger.place));
            }
            *left -= 1;
        }
    }
    Ok(None)
}
