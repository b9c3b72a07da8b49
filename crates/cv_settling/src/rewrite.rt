// The terms that an equation makes smaller.
ghost use Rattle.std.specs.Prelude.{◌≡◌, All, IfOk, Some, map, option_map};
ghost use Rattle.std.specs.List.{filter, flat_map};
ghost use Rattle.cv_pool.specs.PoolView.{Grows};
ghost use Rattle.cv_syntax.specs.PoolTrees.{tree_at};
ghost use Rattle.cv_scene.specs.Reasons.{equations_in};
ghost use Rattle.cv_scene.specs.Scenes.{Scene};
ghost use Rattle.cv_settling_rules.specs.Candidates.{Rewrite};
ghost use Rattle.cv_settling.specs.Instances.{HasRoot, numbered_from, seen_in, sides_by};
ghost use Rattle.cv_settling.specs.Measured.{is_lower};
ghost use Rattle.cv_settling.specs.Picking.{IsPicked};
ghost use Rattle.cv_settling.specs.Rewritings.{AreMeasurable, IsMeasurable, candidate_of, lower_rewritings, lower_sides, placed_in};
ghost use Rattle.cv_settling.specs.Seen.{IsTableOf};

use crate::equations::Equation;
use crate::matching::lower_instance;
use crate::stop::Stop;
use crate::terms::{Given, made, put};
use crate::truths::{Outcome, truth};
use crate::types::Table;
use cv_grounds::open;
use cv_settling_overview::walk::Placed;
use cv_step_writer::{Line, Proposal, Reason};
use cv_syntax::{Head, NodeId, Pool, PoolError};
use std::alloc::{AllocError, Global};

/// A term with the equation that makes it smaller: one of truth values, or a declared one, with the terms for its variables.
#[derive(Drop)]
pub(crate) enum Rewriting {
    Truth(Placed, Outcome),
    Instance(Placed, Equation, Vec<Given>),
}

/// A declared equation that makes a term smaller: the first one, where so many are passed over.
fn find_instance(
    alloc: Global,
    table: &Table,
    equations: &[Equation],
    at: Placed,
    left: &mut u32,
) -> Result<Option<Rewriting>, AllocError>
    requires { All (HasRoot table.now.pool.now.trees) equations.now }
    ensures { IfOk result (λ o. (s : Scene) → IsTableOf s table.now
        → IsMeasurable (tree_at table.now.pool.now.trees (Some at.node))
        → IsPicked (map (Rewrite at.place)
        (filter (is_lower s (tree_at table.now.pool.now.trees (Some at.node)))
        (flat_map (sides_by s (tree_at table.now.pool.now.trees (Some at.node)))
        (map (seen_in table.now.pool.now.trees) equations.now)))) left.old left.new
        (option_map (candidate_of table.now.pool.now.trees) o)) }
{
    let Some(node) = open(table.pool, at.node) else {
        return Ok(None);
    };
    for equation in equations {
        let instance = lower_instance(alloc, table, equation, node.head, at.node)?;
        if let Some(given) = instance {
            if *left == 0 {
                return Ok(Some(Rewriting::Instance(at, *equation, given)));
            }
            *left -= 1;
        }
    }
    Ok(None)
}

/// An equation that makes a term smaller: the first one, where so many are passed over. One of truth values comes before the declared
/// ones.
fn find_at(
    alloc: Global,
    table: &Table,
    equations: &[Equation],
    at: Placed,
    left: &mut u32,
) -> Result<Option<Rewriting>, AllocError>
    requires { All (HasRoot table.now.pool.now.trees) equations.now }
    ensures { IfOk result (λ o. (s : Scene) → IsTableOf s table.now
        → map (seen_in table.now.pool.now.trees) equations.now
        ≡ numbered_from 1 (equations_in s.declarations)
        → IsMeasurable (tree_at table.now.pool.now.trees (Some at.node))
        → IsPicked (map (Rewrite at.place)
        (lower_sides s (tree_at table.now.pool.now.trees (Some at.node)))) left.old left.new
        (option_map (candidate_of table.now.pool.now.trees) o)) }
{
    let Some(outcome) = truth(table.pool, at.node) else {
        return find_instance(alloc, table, equations, at, left);
    };
    if *left == 0 {
        return Ok(Some(Rewriting::Truth(at, outcome)));
    }
    *left -= 1;
    find_instance(alloc, table, equations, at, left)
}

/// A term with an equation that makes it smaller: the first one, where so many are passed over.
pub(crate) fn find(
    alloc: Global,
    table: &Table,
    terms: &[Placed],
    equations: &[Equation],
    left: &mut u32,
) -> Result<Option<Rewriting>, AllocError>
    requires { All (HasRoot table.now.pool.now.trees) equations.now }
    ensures { IfOk result (λ o. (s : Scene) → IsTableOf s table.now
        → map (seen_in table.now.pool.now.trees) equations.now
        ≡ numbered_from 1 (equations_in s.declarations)
        → AreMeasurable (placed_in table.now.pool.now.trees terms.now)
        → IsPicked (lower_rewritings s (placed_in table.now.pool.now.trees terms.now))
        left.old left.new (option_map (candidate_of table.now.pool.now.trees) o)) }
{
    for at in terms {
        let found = find_at(alloc, table, equations, *at, left)?;
        if let Some(rewriting) = found {
            return Ok(Some(rewriting));
        }
    }
    Ok(None)
}

/// The step that puts a term in the place of another one, by one line.
fn step(alloc: Global, at: Placed, term: NodeId, by: Reason) -> Result<Option<Proposal>, Stop> {
    let mut lines = Vec::new(alloc);
    lines.push(Line::Equal {
        left: at.node,
        right: term,
        by,
    })?;
    Ok(Some(Proposal::Rewrite {
        place: u64::from(at.place),
        term,
        by: lines,
    }))
}

/// The term that an equation of truth values gives.
#[tactic(auto, using(crate::proofs::Growing::growing))]
fn outcome_term(pool: &mut Pool, outcome: Outcome) -> Result<NodeId, Stop>
    ensures { Grows pool.old pool.new }
{
    match outcome {
        Outcome::Part(Some(n)) => Ok(n),
        Outcome::Part(None) => Err(Stop(PoolError::OutOfMemory)),
        Outcome::True => made(pool, Head::Yes, &[]),
        Outcome::False => made(pool, Head::No, &[]),
    }
}

/// The terms that stand for names, in their order.
fn terms_of(alloc: Global, given: &[Given]) -> Result<Vec<NodeId>, AllocError> {
    let mut terms = Vec::new(alloc);
    for there in given {
        terms.push(there.term)?;
    }
    Ok(terms)
}

/// The step that rewrites a term.
#[tactic(auto, using(crate::proofs::Growing::growing))]
pub(crate) fn propose(
    alloc: Global,
    pool: &mut Pool,
    found: &Rewriting,
) -> Result<Option<Proposal>, Stop>
    ensures { Grows pool.old pool.new }
{
    match found {
        Rewriting::Truth(at, outcome) => {
            let term = outcome_term(pool, *outcome)?;
            step(alloc, *at, term, Reason::Bool)
        }
        Rewriting::Instance(at, equation, given) => {
            let Some(right) = equation.right else {
                return Ok(None);
            };
            let terms = terms_of(alloc, given)?;
            let term = put(alloc, pool, given, right)?;
            step(alloc, *at, term, Reason::Equation(equation.number, terms))
        }
    }
}
