// Certificates with their terms in the pool.
ghost use Rattle.std.specs.Prelude.{◌≤◌, ℕ, All, IfOk, length};
ghost use Rattle.cv_pool.specs.PoolView.{Grows};
ghost use Rattle.cv_step_writer.specs.Certificates.{IsCertificateBelow, IsEntryBelow, IsPairBelow, IsRouteBelow, IsSecretPairBelow};
ghost use Rattle.cv_step_writer.specs.Derivations.{AreLinesBelow};

use crate::proposing::lines::{lines_of, node_of, nodes_of};
use crate::proposing::shortage::Shortage;
use cv_closure::{TermId, Terms};
use cv_closure_lines::Derivation;
use cv_direct_search::{Certificate, Entry, Pair, Route, SecretPair};
use cv_grounds::plant_terms;
use cv_step_writer as writer;
use cv_syntax::{NameId, Pool};
use std::alloc::{AllocError, Global};

/// The lines of a derivation, with its terms in the pool.
#[tactic(auto, using(crate::proofs::Below::planting))]
pub(crate) fn plant_lines(
    alloc: Global,
    pool: &mut Pool,
    by: &Derivation,
) -> Result<Vec<writer::Line>, Shortage>
    ensures below { IfOk result (λ ls. (n : ℕ) → length pool.new.trees ≤ n → AreLinesBelow n ls.items) }
    ensures grows { Grows pool.old pool.new }
{
    let nodes = plant_terms(alloc, pool, &by.terms)?;
    let lines = lines_of(alloc, &nodes, &by.lines)?;
    Ok(lines)
}

/// A route to an event above the definition of a cell's variable, with its terms in the pool.
#[tactic(auto, using(crate::proofs::Below::planting))]
fn plant_cell_route(
    alloc: Global,
    pool: &mut Pool,
    cell: TermId,
    place: u32,
    by: &Derivation,
) -> Result<writer::Route, Shortage>
    ensures below { IfOk result (λ r. (n : ℕ) → length pool.new.trees ≤ n → IsRouteBelow n r) }
    ensures grows { Grows pool.old pool.new }
{
    let nodes = plant_terms(alloc, pool, &by.terms)?;
    let cell = node_of(&nodes, cell)?;
    let lines = lines_of(alloc, &nodes, &by.lines)?;
    Ok(writer::Route::Cell {
        cell,
        place: u64::from(place),
        by: lines,
    })
}

/// A route to a right event, with its terms in the pool.
#[tactic(auto, using(crate::proofs::Below::planting))]
fn plant_route(alloc: Global, pool: &mut Pool, route: &Route) -> Result<writer::Route, Shortage>
    ensures below { IfOk result (λ r. (n : ℕ) → length pool.new.trees ≤ n → IsRouteBelow n r) }
    ensures grows { Grows pool.old pool.new }
{
    match route {
        Route::Above { place, by } => {
            let lines = plant_lines(alloc, pool, by)?;
            Ok(writer::Route::Above {
                place: u64::from(*place),
                by: lines,
            })
        }
        Route::Cell { cell, place, by } => plant_cell_route(alloc, pool, *cell, *place, by),
        Route::Holds { by } => {
            let lines = plant_lines(alloc, pool, by)?;
            Ok(writer::Route::Holds { by: lines })
        }
    }
}

/// Routes, with their terms in the pool.
#[tactic(auto, using(crate::proofs::Below::planting))]
fn plant_routes(
    alloc: Global,
    pool: &mut Pool,
    routes: &[Route],
) -> Result<Vec<writer::Route>, Shortage>
    ensures below { IfOk result (λ rs. (n : ℕ) → length pool.new.trees ≤ n
        → All (IsRouteBelow n) rs.items) }
    ensures grows { Grows pool.old pool.new }
{
    let mut list = Vec::new(alloc);
    for route in routes {
        let next = plant_route(alloc, pool, route)?;
        list.push(next)?;
    }
    Ok(list)
}

/// An entry by routes, with its terms in the pool: those for the variables on the right alone, over their table, and the routes'
/// own.
#[tactic(auto, using(crate::proofs::Below::planting))]
fn plant_with(
    alloc: Global,
    pool: &mut Pool,
    place: u32,
    table: &Terms,
    terms: &[TermId],
    alternative: Option<u64>,
    routes: &[Route],
) -> Result<writer::Entry, Shortage>
    ensures below { IfOk result (λ e. (n : ℕ) → length pool.new.trees ≤ n → IsEntryBelow n e) }
    ensures grows { Grows pool.old pool.new }
{
    let routes = plant_routes(alloc, pool, routes)?;
    let nodes = plant_terms(alloc, pool, table)?;
    let terms = nodes_of(alloc, &nodes, terms)?;
    Ok(writer::Entry::With {
        place: u64::from(place),
        terms,
        alternative,
        routes,
    })
}

/// An entry, with its terms in the pool.
#[tactic(auto, using(crate::proofs::Below::planting))]
fn plant_entry(alloc: Global, pool: &mut Pool, entry: &Entry) -> Result<writer::Entry, Shortage>
    ensures below { IfOk result (λ e. (n : ℕ) → length pool.new.trees ≤ n → IsEntryBelow n e) }
    ensures grows { Grows pool.old pool.new }
{
    match entry {
        Entry::Never { place, by } => {
            let lines = plant_lines(alloc, pool, by)?;
            Ok(writer::Entry::Never {
                place: u64::from(*place),
                by: lines,
            })
        }
        Entry::With {
            place,
            table,
            terms,
            alternative,
            routes,
        } => plant_with(alloc, pool, *place, table, terms, *alternative, routes),
    }
}

/// Entries, with their terms in the pool.
#[tactic(auto, using(crate::proofs::Below::planting))]
fn plant_entries(
    alloc: Global,
    pool: &mut Pool,
    entries: &[Entry],
) -> Result<Vec<writer::Entry>, Shortage>
    ensures below { IfOk result (λ es. (n : ℕ) → length pool.new.trees ≤ n
        → All (IsEntryBelow n) es.items) }
    ensures grows { Grows pool.old pool.new }
{
    let mut list = Vec::new(alloc);
    for entry in entries {
        let next = plant_entry(alloc, pool, entry)?;
        list.push(next)?;
    }
    Ok(list)
}

/// A pair, with its terms in the pool.
#[tactic(auto, using(crate::proofs::Below::planting))]
fn plant_pair(alloc: Global, pool: &mut Pool, pair: &Pair) -> Result<writer::Pair, Shortage>
    ensures below { IfOk result (λ p. (n : ℕ) → length pool.new.trees ≤ n → IsPairBelow n p) }
    ensures grows { Grows pool.old pool.new }
{
    let by = plant_lines(alloc, pool, &pair.by)?;
    Ok(writer::Pair {
        first: u64::from(pair.first),
        second: u64::from(pair.second),
        event: pair.event,
        by,
    })
}

/// Pairs, with their terms in the pool.
#[tactic(auto, using(crate::proofs::Below::planting))]
fn plant_pairs(
    alloc: Global,
    pool: &mut Pool,
    pairs: &[Pair],
) -> Result<Vec<writer::Pair>, Shortage>
    ensures below { IfOk result (λ ps. (n : ℕ) → length pool.new.trees ≤ n
        → All (IsPairBelow n) ps.items) }
    ensures grows { Grows pool.old pool.new }
{
    let mut list = Vec::new(alloc);
    for pair in pairs {
        let next = plant_pair(alloc, pool, pair)?;
        list.push(next)?;
    }
    Ok(list)
}

/// A pair of definitions, with its terms in the pool.
#[tactic(auto, using(crate::proofs::Below::planting))]
fn plant_secret_pair(
    alloc: Global,
    pool: &mut Pool,
    pair: &SecretPair,
) -> Result<writer::SecretPair, Shortage>
    ensures below { IfOk result (λ p. (n : ℕ) → length pool.new.trees ≤ n → IsSecretPairBelow n p) }
    ensures grows { Grows pool.old pool.new }
{
    let by = plant_lines(alloc, pool, &pair.by)?;
    Ok(writer::SecretPair {
        first: u64::from(pair.first),
        second: u64::from(pair.second),
        by,
    })
}

/// Pairs of definitions, with their terms in the pool.
#[tactic(auto, using(crate::proofs::Below::planting))]
fn plant_secret_pairs(
    alloc: Global,
    pool: &mut Pool,
    pairs: &[SecretPair],
) -> Result<Vec<writer::SecretPair>, Shortage>
    ensures below { IfOk result (λ ps. (n : ℕ) → length pool.new.trees ≤ n
        → All (IsSecretPairBelow n) ps.items) }
    ensures grows { Grows pool.old pool.new }
{
    let mut list = Vec::new(alloc);
    for pair in pairs {
        let next = plant_secret_pair(alloc, pool, pair)?;
        list.push(next)?;
    }
    Ok(list)
}

/// The names of arrays.
fn names_of(alloc: Global, arrays: &[u32]) -> Result<Vec<NameId>, AllocError> {
    let mut names = Vec::new(alloc);
    for array in arrays {
        names.push(NameId(*array))?;
    }
    Ok(names)
}

/// A certificate of a correspondence, with its terms in the pool.
#[tactic(auto, using(crate::proofs::Below::planting))]
fn plant_events(
    alloc: Global,
    pool: &mut Pool,
    entries: &[Entry],
    distinct: &[u32],
    pairs: &[Pair],
) -> Result<writer::Certificate, Shortage>
    ensures below { IfOk result (IsCertificateBelow (length pool.new.trees)) }
    ensures grows { Grows pool.old pool.new }
{
    let distinct = names_of(alloc, distinct)?;
    let entries = plant_entries(alloc, pool, entries)?;
    let pairs = plant_pairs(alloc, pool, pairs)?;
    Ok(writer::Certificate::Events {
        entries,
        distinct,
        pairs,
    })
}

/// A certificate, with its terms in the pool.
#[tactic(auto, using(crate::proofs::Below::planting))]
pub(crate) fn plant_certificate(
    alloc: Global,
    pool: &mut Pool,
    certificate: &Certificate,
) -> Result<writer::Certificate, Shortage>
    ensures below { IfOk result (IsCertificateBelow (length pool.new.trees)) }
    ensures grows { Grows pool.old pool.new }
{
    match certificate {
        Certificate::Secret { pairs } => {
            let pairs = plant_secret_pairs(alloc, pool, pairs)?;
            Ok(writer::Certificate::Secret { pairs })
        }
        Certificate::Events {
            entries,
            distinct,
            pairs,
        } => plant_events(alloc, pool, entries, distinct, pairs),
    }
}
