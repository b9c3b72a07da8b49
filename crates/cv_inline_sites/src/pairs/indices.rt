ghost use Rattle.std.specs.Prelude.{◌≡◌, ◌++◌, ◌+◌, ◌<◌, ◌^◌, IfOk, OnOk, length};
ghost use Rattle.cv_inline.specs.terms.Drawings.{drawn_in};
ghost use Rattle.cv_inline.specs.terms.Stacks.{names_from};

use cv_inline::terms::{Drawing, Index};
use std::alloc::{AllocError, Global};

/// Adds the drawn indices of a branch, one for each replication, from one on.
fn add_indices(
    indices: &mut Vec<u32>,
    drawn: &Drawing,
    from: Index,
    replications: &[(u32, u32)],
) -> Result<(), AllocError>
    requires { from.replication + length replications.now < 2 ^ 32 }
    ensures { OnOk result (indices.new.items ≡ indices.old.items
        ++ names_from ((drawn_in drawn.now).index from.site from.place from.other from.branch)
        from.replication replications.now) }
{
    let Some((_, rest)) = replications.split_first() else {
        return Ok(());
    };
    indices.push(drawn.index(from))?;
    let next = Index {
        site: from.site,
        place: from.place,
        other: from.other,
        branch: from.branch,
        replication: from.replication + 1,
    };
    add_indices(indices, drawn, next, rest)
}

/// The drawn indices of a branch, one for each replication.
pub fn drawn_indices(
    alloc: Global,
    drawn: &Drawing,
    site: u32,
    place: u32,
    other: u32,
    branch: u32,
    replications: &[(u32, u32)],
) -> Result<Vec<u32>, AllocError>
    requires { length replications.now < 2 ^ 32 }
    ensures { IfOk result (λ names. names.items
        ≡ names_from ((drawn_in drawn.now).index site place other branch) 0 replications.now) }
{
    let mut names = Vec::new(alloc);
    let from = Index {
        site,
        place,
        other,
        branch,
        replication: 0,
    };
    add_indices(&mut names, drawn, from, replications)?;
    Ok(names)
}
