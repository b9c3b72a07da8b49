ghost use Rattle.std.specs.Prelude.{◌≡◌, ◌&&◌, ◌==◌, ◌∷◌, [], All, IfOk, IfSome, List, None, OnOk, ℕ, length, option_map};
ghost use Rattle.cv_pool.specs.KindTree.{KindTree};
ghost use Rattle.cv_scene.specs.Scenes.{Scene};
ghost use Rattle.cv_pool.specs.Nodes.{ChildBelow};
ghost use Rattle.cv_syntax.specs.PoolTrees.{tree_at};
ghost use Rattle.cv_query_certificates.specs.PairParts.{first_wrong_pair, least};
ghost use Rattle.cv_query_certificates.specs.Pairs.{needed_pairs};
ghost use Rattle.cv_syntax_trees.specs.lists.Options.{first_of};
ghost use Rattle.cv_query_parts.specs.Countable.{AreCountableParts};
ghost use Rattle.cv_query_parts.specs.Said.{IsRouteBelow};
ghost use Rattle.cv_query_parts.specs.Views.{IsAskedBelow, asked_of};
ghost use Rattle.cv_query_parts.specs.pairs.Marked.{IsEntryBelow, IsMarkedBelow};
ghost use Rattle.cv_query_parts.specs.pairs.Walks.{IsMet, IsPartBelow, IsWalked, Leads, first_unproved, is_that, items_of_pair, needed_of, needed_of_all, needed_of_entries, needed_of_entry, needed_of_route, needed_of_routes, nothing, part_seen};

use crate::pairs::marked::{MarkedEntry, MarkedRoute, marked_entries};
use crate::pairs::routes::meet;
use crate::parts::{first_surplus, place_in};
use crate::views::{Asked, Route};
use cv_syntax::{Head, NodeId, Pool, read_node};
use std::alloc::{AllocError, Global};

/// Two places of left events, an atom of the query, and their routes for it, which may end at one execution of a right event.
#[derive(Clone, Copy)]
pub struct Pairing {
    pub first: u64,
    pub second: u64,
    pub atom: u64,
    pub one: Route,
    pub other: Route,
    /// The derivation that a certificate gives for them.
    pub by: Option<NodeId>,
}

/// The pairs of a certificate that were met in the order in which they are needed, and the parts that are left.
#[derive(Drop)]
struct Walk {
    met: Vec<Pairing>,
    left: Option<NodeId>,
}

/// The pairs that were met, and the place of the first part that is another one, lacks, or is one too many.
#[derive(Drop)]
pub struct Walked {
    pub met: Vec<Pairing>,
    pub stopped: Option<u64>,
}

/// A part of a certificate that is a pair.
#[derive(Clone, Copy)]
struct PairPart {
    first: u64,
    second: u64,
    atom: u64,
    by: Option<NodeId>,
}

/// The pair that a part is.
#[tactic(auto, using(crate::proofs::Said::sayings))]
fn pair_of(pool: &Pool, part: Option<NodeId>) -> Option<PairPart>
    requires { ChildBelow (length pool.now.trees) part }
    ensures pair { option_map (part_seen pool.now.trees) result
        ≡ items_of_pair (tree_at pool.now.trees part) }
    ensures live { IfSome result (IsPartBelow (length pool.now.trees)) }
{
    let node = read_node(pool, part?);
    let Head::Pair = node.head else {
        return None;
    };
    let behind = read_node(pool, node.second?);
    let last = read_node(pool, behind.second?);
    Some(PairPart {
        first: place_in(pool, node.first),
        second: place_in(pool, behind.first),
        atom: place_in(pool, last.first),
        by: last.second,
    })
}

/// Whether a part is the pair that is needed.
fn is_needed(found: PairPart, needed: Pairing) -> bool
    ensures { result ≡ is_that needed found }
{
    found.first == needed.first && found.second == needed.second && found.atom == needed.atom
}

/// The lesser one of two places.
fn lesser(p: u64, q: u64) -> u64
    ensures { result ≡ least p q }
{
    if q < p { q } else { p }
}

/// Goes over the next part, where this pair is needed: the place at which the walk stops, where the part is another one or lacks.
fn take(pool: &Pool, walk: &mut Walk, needed: Pairing) -> Result<Option<u64>, AllocError>
    requires walked { IsWalked pool.now.trees walk.old }
    requires one { IsRouteBelow (length pool.now.trees) needed.one }
    requires other { IsRouteBelow (length pool.now.trees) needed.other }
    ensures leads { IfOk result (λ stopped. Leads pool.now.trees walk.old walk.new stopped
        (λ s k. needed_of s k pool.now.trees needed ∷ []) nothing) }
    ensures walked { OnOk result (IsWalked pool.now.trees walk.new) }
{
    let Some(n) = walk.left else {
        return Ok(Some(needed.first));
    };
    let part = read_node(pool, n);
    let Some(found) = pair_of(pool, part.first) else {
        return Ok(Some(needed.first));
    };
    if !is_needed(found, needed) {
        return Ok(Some(lesser(needed.first, found.first)));
    }
    walk.met.push(Pairing {
        by: found.by,
        ..needed
    })?;
    walk.left = part.second;
    Ok(None)
}

/// Goes over the part for two routes, where they need a pair.
fn walk_both(
    pool: &Pool,
    walk: &mut Walk,
    first: u64,
    second: u64,
    one: MarkedRoute,
    other: MarkedRoute,
) -> Result<Option<u64>, AllocError>
    requires walked { IsWalked pool.now.trees walk.old }
    requires one { IsMarkedBelow (length pool.now.trees) one }
    requires other { IsMarkedBelow (length pool.now.trees) other }
    ensures leads { IfOk result (λ stopped. Leads pool.now.trees walk.old walk.new stopped
        (λ s k. needed_of_routes s k pool.now.trees first second one other) nothing) }
    ensures walked { OnOk result (IsWalked pool.now.trees walk.new) }
{
    if one.atom != other.atom {
        return Ok(None);
    }
    if !meet(one.route, other.route) {
        return Ok(None);
    }
    let needed = Pairing {
        first,
        second,
        atom: u64::from(one.atom),
        one: one.route,
        other: other.route,
        by: None,
    };
    take(pool, walk, needed)
}

/// Goes over the parts for a route and each of the others.
fn walk_others(
    pool: &Pool,
    walk: &mut Walk,
    first: u64,
    second: u64,
    one: MarkedRoute,
    others: &[MarkedRoute],
) -> Result<Option<u64>, AllocError>
    requires walked { IsWalked pool.now.trees walk.old }
    requires one { IsMarkedBelow (length pool.now.trees) one }
    requires others { All (IsMarkedBelow (length pool.now.trees)) others.now }
    ensures leads { IfOk result (λ stopped. Leads pool.now.trees walk.old walk.new stopped
        (λ s k. needed_of_route s k pool.now.trees first second one others.now) nothing) }
    ensures walked { OnOk result (IsWalked pool.now.trees walk.new) }
{
    'others: for j in 0..others.len() {
        let stopped = walk_both(pool, walk, first, second, one, others[j])?;
        if stopped.is_some() {
            return Ok(stopped);
        }
    }
    Ok(None)
}

/// Goes over the parts for two entries.
fn walk_entries(
    pool: &Pool,
    walk: &mut Walk,
    entry: &MarkedEntry,
    other: &MarkedEntry,
) -> Result<Option<u64>, AllocError>
    requires walked { IsWalked pool.now.trees walk.old }
    requires entry { IsEntryBelow (length pool.now.trees) entry.now }
    requires other { IsEntryBelow (length pool.now.trees) other.now }
    ensures leads { IfOk result (λ stopped. Leads pool.now.trees walk.old walk.new stopped
        (λ s k. needed_of_entries s k pool.now.trees entry.now other.now) nothing) }
    ensures walked { OnOk result (IsWalked pool.now.trees walk.new) }
{
    let routes = entry.routes.as_slice();
    let others = other.routes.as_slice();
    'routes: for j in 0..routes.len() {
        let stopped = walk_others(pool, walk, entry.place, other.place, routes[j], others)?;
        if stopped.is_some() {
            return Ok(stopped);
        }
    }
    Ok(None)
}

/// Goes over the parts for an entry and each of these.
fn walk_entry(
    pool: &Pool,
    walk: &mut Walk,
    entry: &MarkedEntry,
    entries: &[MarkedEntry],
) -> Result<Option<u64>, AllocError>
    requires walked { IsWalked pool.now.trees walk.old }
    requires entry { IsEntryBelow (length pool.now.trees) entry.now }
    requires entries { All (IsEntryBelow (length pool.now.trees)) entries.now }
    ensures leads { IfOk result (λ stopped. Leads pool.now.trees walk.old walk.new stopped
        (λ s k. needed_of_entry s k pool.now.trees entry.now entries.now) nothing) }
    ensures walked { OnOk result (IsWalked pool.now.trees walk.new) }
{
    'entries: for j in 0..entries.len() {
        let stopped = walk_entries(pool, walk, entry, &entries[j])?;
        if stopped.is_some() {
            return Ok(stopped);
        }
    }
    Ok(None)
}

/// Goes over the parts for all entries.
fn walk_all(
    pool: &Pool,
    walk: &mut Walk,
    entries: &[MarkedEntry],
) -> Result<Option<u64>, AllocError>
    requires walked { IsWalked pool.now.trees walk.old }
    requires entries { All (IsEntryBelow (length pool.now.trees)) entries.now }
    ensures leads { IfOk result (λ stopped. Leads pool.now.trees walk.old walk.new stopped
        (λ s k. needed_of_all s k pool.now.trees entries.now) nothing) }
    ensures walked { OnOk result (IsWalked pool.now.trees walk.new) }
{
    'entries: for j in 0..entries.len() {
        let stopped = walk_entry(pool, walk, &entries[j], &entries[j..])?;
        if stopped.is_some() {
            return Ok(stopped);
        }
    }
    Ok(None)
}

/// Goes over the parts for the pairs that are needed: none without `inj` on the left.
fn walk_needed(
    alloc: Global,
    pool: &Pool,
    walk: &mut Walk,
    asked: &Asked,
    parts: Option<NodeId>,
) -> Result<Option<u64>, AllocError>
    requires walked { IsWalked pool.now.trees walk.old }
    requires asked { IsAskedBelow (length pool.now.trees) asked.now }
    requires parts { ChildBelow (length pool.now.trees) parts }
    ensures leads { IfOk result (λ stopped. Leads pool.now.trees walk.old walk.new stopped
        (λ s k. needed_pairs s k (asked_of pool.now.trees asked.now)
        (tree_at pool.now.trees parts)) nothing) }
    ensures walked { OnOk result (IsWalked pool.now.trees walk.new) }
{
    if !asked.inj {
        return Ok(None);
    }
    let entries = marked_entries(alloc, pool, asked, parts)?;
    let stopped = walk_all(pool, walk, entries.as_slice())?;
    Ok(stopped)
}

/// Goes over the parts that are to be the pairs that a correspondence needs, for a certificate with these parts. Which of the pairs that
/// are met isn't derived is not looked at.
pub fn walk_pairs(
    alloc: Global,
    pool: &Pool,
    asked: &Asked,
    parts: Option<NodeId>,
    left: Option<NodeId>,
) -> Result<Walked, AllocError>
    requires asked { IsAskedBelow (length pool.now.trees) asked.now }
    requires parts { ChildBelow (length pool.now.trees) parts }
    requires left { ChildBelow (length pool.now.trees) left }
    requires few { AreCountableParts (tree_at pool.now.trees left) }
    ensures wrong { IfOk result (λ w. (s : Scene) (k : ℕ) (ds : List ℕ) →
        first_wrong_pair s k ds (needed_pairs s k (asked_of pool.now.trees asked.now)
        (tree_at pool.now.trees parts)) (tree_at pool.now.trees left)
        ≡ first_of (first_unproved s k ds pool.now.trees w.met.items) w.stopped) }
    ensures met { IfOk result (λ w. All (IsMet pool.now.trees) w.met.items) }
{
    let mut walk = Walk {
        met: Vec::new(alloc),
        left,
    };
    let stopped = walk_needed(alloc, pool, &mut walk, asked, parts)?;
    let Walk { met, left } = walk;
    match stopped {
        Some(place) => Ok(Walked {
            met,
            stopped: Some(place),
        }),
        None => Ok(Walked {
            met,
            stopped: first_surplus(pool, left),
        }),
    }
}
