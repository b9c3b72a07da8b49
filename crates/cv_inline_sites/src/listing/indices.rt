ghost use Rattle.std.specs.Prelude.{◌≡◌, ◌==◌, ◌++◌, ◌+◌, ◌<◌, ◌^◌, [], IfOk, if◌then◌else◌, length, map};
ghost use Rattle.cv_pool.specs.Nodes.{ChildBelow};
ghost use Rattle.cv_syntax_trees.specs.Tree.{size};
ghost use Rattle.cv_syntax.specs.PoolTrees.{tree_at};
ghost use Rattle.cv_inline.specs.Draws.{branch_draws, index_draws};
ghost use Rattle.cv_inline.specs.terms.Callers.{caller_in};
ghost use Rattle.cv_inline_sites.specs.listing.Listed.{draw_in};

use crate::listing::branches::{Calls, calls_at};
use crate::listing::draws::{Draw, Role};
use cv_inline::terms::{Caller, Index};
use cv_syntax::{NodeId, Pool};
use std::alloc::AllocError;

/// Adds the draws for the indices of a branch of a find, from one on.
pub fn add_indices(
    draws: &mut Vec<Draw>,
    from: Index,
    base: u32,
    replications: &[(u32, u32)],
) -> Result<(), AllocError>
    requires { from.replication + length replications.now < 2 ^ 32 }
    ensures { IfOk result (λ _. map draw_in draws.new.items ≡ map draw_in draws.old.items
        ++ branch_draws from.site from.place from.other from.branch base from.replication
        replications.now) }
{
    let Some((_, rest)) = replications.split_first() else {
        return Ok(());
    };
    draws.push(Draw {
        role: Role::OfFind(from),
        base,
    })?;
    let next = Index {
        site: from.site,
        place: from.place,
        other: from.other,
        branch: from.branch,
        replication: from.replication + 1,
    };
    add_indices(draws, next, base, rest)
}

/// Adds the draws for the indices of a branch, if it goes over the calls of a site.
fn add_calls(
    draws: &mut Vec<Draw>,
    from: Index,
    calls: Calls,
    other: &Caller,
) -> Result<(), AllocError>
    requires { from.replication + length other.now.replications.items < 2 ^ 32 }
    ensures { IfOk result (λ _. map draw_in draws.new.items ≡ map draw_in draws.old.items
        ++ (if other.now.bound == calls.bound then branch_draws from.site from.place from.other
        from.branch calls.index from.replication other.now.replications.items else [])) }
{
    if other.bound == calls.bound {
        return add_indices(draws, from, calls.index, other.replications.as_slice());
    }
    Ok(())
}

/// Adds the draws for the indices of the branches of a find that go over the calls of a site.
pub fn add_branch_indices(
    pool: &Pool,
    draws: &mut Vec<Draw>,
    site: u32,
    place: u32,
    other: &Caller,
    branches: Option<NodeId>,
) -> Result<(), AllocError>
    requires live { ChildBelow (length pool.now.trees) branches }
    requires fits { size (tree_at pool.now.trees branches) < 2 ^ 32 }
    requires few { length other.now.replications.items < 2 ^ 32 }
    ensures { IfOk result (λ _. map draw_in draws.new.items ≡ map draw_in draws.old.items
        ++ index_draws site place (caller_in pool.now.trees other.now) 0
        (tree_at pool.now.trees branches)) }
{
    let mut branch = 0;
    let mut at = branches;
    'branches: while let Some(calls) = calls_at(pool, at) {
        let from = Index {
            site,
            place,
            other: other.number,
            branch,
            replication: 0,
        };
        add_calls(draws, from, calls, other)?;
        branch += 1;
        at = calls.behind;
    }
    Ok(())
}
