ghost use Rattle.std.specs.Prelude.{◌≡◌, IfOk, List, map, reverse};
ghost use Rattle.cv_syntax_trees.specs.Tree.{Tree};
ghost use Rattle.cv_inline_laws.specs.extents.Extents.{extent};
ghost use Rattle.cv_inline.specs.terms.Stacks.{stack};
ghost use Rattle.cv_inline_measure.specs.Counts.{counts_of, measure_in, newest, newest_count, older_counts, with_part};
ghost use Rattle.cv_syntax.specs.limits.Limits.{told};

use crate::measuring::Measure;
use cv_syntax::Make;
use std::alloc::{AllocError, Global};

/// Takes the newest count; none is 0.
fn take_newest(counts: &mut Vec<u32>) -> u32
    ensures count { result ≡ newest_count (reverse counts.old.items) }
    ensures rest { reverse counts.new.items ≡ older_counts (reverse counts.old.items) }
{
    counts.pop().unwrap_or(0)
}

/// Adds what the newest tree has after one more part, where these are the counts of the trees before.
fn add_part(measure: Measure, counts: &mut Vec<u32>, part: Make) -> Result<(), AllocError>
    ensures { (trees : List Tree) → reverse counts.old.items ≡ counts_of measure trees →
        IfOk result (λ _. reverse counts.new.items ≡ counts_of measure (with_part part trees)) }
{
    match part {
        Make::Nothing => {
            counts.push(0)?;
            Ok(())
        }
        Make::Over(head) => {
            let second = take_newest(counts);
            let first = take_newest(counts);
            let node = measure.over_node(measure.one_copy(), head.weight(), first, second);
            counts.push(node)?;
            Ok(())
        }
    }
}

/// What the newest tree of a list of parts has.
pub(crate) fn extent_of(alloc: Global, measure: Measure, parts: &[Make]) -> Result<u32, AllocError>
    ensures { IfOk result (λ n. n ≡ told (extent (measure_in measure) (newest (stack parts.now)))) }
{
    let mut counts = Vec::new(alloc);
    'parts: for part in parts {
        add_part(measure, &mut counts, *part)?;
    }
    Ok(take_newest(&mut counts))
}
