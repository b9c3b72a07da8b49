// The settling steps that a game suggests, in the order of the strategy.
ghost use Rattle.std.specs.Prelude.{IfOk, IfSome, length};
ghost use Rattle.cv_pool.specs.PoolView.{Grows};
ghost use Rattle.cv_step_writer.specs.Proposals.{IsProposalBelow};

use crate::checking::is_proposal_below;
use crate::collisions::Chance;
use crate::equations::equations_of;
use crate::stop::Stop;
use crate::types::Table;
use crate::{collisions, merge, prune, rewrite, unlet, unnew};
use cv_grounds::open;
use cv_settling_overview::walk::Overview;
use cv_step_writer::Proposal;
use cv_syntax::{Decl, Decls, Head, NameId, NodeId, Pool, PoolError};
use std::alloc::{AllocError, Global};
use std::collections::HashSet;

/// The variables whose secrecy is asked.
fn queried_variables(
    alloc: Global,
    pool: &Pool,
    decls: &Decls,
) -> Result<HashSet<u32>, AllocError> {
    let mut names = HashSet::new(alloc);
    for k in 0..decls.len() {
        if let Some(Decl::Query(n)) = decls.get(k) {
            if let Some(node) = open(pool, *n) {
                if let Head::Secret(x) | Head::SecretOnce(x) = node.head {
                    names.insert(x)?;
                }
            }
        }
    }
    Ok(names)
}

/// The step that merges a test or leaves out a definition: the first one, where so many are passed over.
fn plain_step(
    alloc: Global,
    pool: &Pool,
    decls: &Decls,
    overview: &Overview,
    left: &mut u32,
) -> Result<Option<Proposal>, AllocError> {
    if let Some(place) = merge::find(alloc, pool, overview, left)? {
        let place = u64::from(place);
        return Ok(Some(Proposal::Merge { place }));
    }
    let queried = queried_variables(alloc, pool, decls)?;
    if let Some(x) = unnew::find(overview, &queried, left) {
        return Ok(Some(Proposal::Unnew { x: NameId(x) }));
    }
    match unlet::find(pool, overview, &queried, left) {
        Some(x) => Ok(Some(Proposal::Unlet { x: NameId(x) })),
        None => Ok(None),
    }
}

/// The step that rewrites a term: the first one, where so many are passed over.
#[tactic(auto, using(crate::proofs::Growing::growing))]
fn rewriting_step(
    alloc: Global,
    pool: &mut Pool,
    decls: &Decls,
    overview: &Overview,
    left: &mut u32,
) -> Result<Option<Proposal>, Stop>
    ensures { Grows pool.old pool.new }
{
    let equations = equations_of(alloc, pool, decls)?;
    let table = Table {
        pool,
        decls,
        variables: &overview.variables,
    };
    match rewrite::find(alloc, &table, &overview.terms, &equations, left)? {
        Some(found) => rewrite::propose(alloc, pool, &found),
        None => Ok(None),
    }
}

/// The settling step with a number. Those that rest on collisions come behind all others.
#[tactic(auto, using(crate::proofs::Growing::growing))]
fn settling_step(
    alloc: Global,
    pool: &mut Pool,
    decls: &Decls,
    game: NodeId,
    spared: &[Chance],
    number: u32,
) -> Result<Option<Proposal>, Stop>
    ensures { Grows pool.old pool.new }
{
    let overview = Overview::of(alloc, pool, game)?;
    let mut left = number;
    if let Some(k) = prune::find(alloc, pool, &overview, &mut left)? {
        return prune::propose(alloc, pool, &overview, k);
    }
    if let Some(step) = plain_step(alloc, pool, decls, &overview, &mut left)? {
        return Ok(Some(step));
    }
    if let Some(step) = rewriting_step(alloc, pool, decls, &overview, &mut left)? {
        return Ok(Some(step));
    }
    let queried = queried_variables(alloc, pool, decls)?;
    Ok(collisions::find(alloc, decls, &overview, &queried, spared, &mut left)?)
}

/// The settling step with a number, from 0, that a game suggests, in the order of the strategy: bodies that are not reached, tests
/// with equal bodies, variables that nothing names, `let`s whose term may stand for their variable, terms that an equation makes
/// smaller, equalities that hold by chance alone but for the steps that are spared. Each lowers the measure. There is none where fewer
/// are suggested; whether one is accepted the kernel says.
#[tactic(auto, using(crate::proofs::Growing::growing))]
pub fn suggest(
    alloc: Global,
    pool: &mut Pool,
    decls: &Decls,
    game: NodeId,
    spared: &[Chance],
    number: u32,
) -> Result<Option<Proposal>, PoolError>
    ensures live { IfOk result (λ p. IfSome p (IsProposalBelow (length pool.new.trees))) }
    ensures grows { Grows pool.old pool.new }
{
    match settling_step(alloc, pool, decls, game, spared, number) {
        Ok(Some(step)) => {
            if is_proposal_below(pool.live(), &step) {
                Ok(Some(step))
            } else {
                Ok(None)
            }
        }
        Ok(None) => Ok(None),
        Err(Stop(e)) => Err(e),
    }
}
