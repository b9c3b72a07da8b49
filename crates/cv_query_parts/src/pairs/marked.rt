ghost use Rattle.std.specs.Prelude.{◌≡◌, All, IfOk, IfSome, List, length, option_map};
ghost use Rattle.cv_pool.specs.KindTree.{KindTree};
ghost use Rattle.cv_pool.specs.Nodes.{ChildBelow};
ghost use Rattle.cv_syntax.specs.PoolTrees.{tree_at};
ghost use Rattle.cv_scene.specs.Scenes.{Scene};
ghost use Rattle.cv_query_certificates.specs.Pairs as pairs;
ghost use Rattle.cv_query_certificates.specs.Pairs.{ends_in, injective_ends};
ghost use Rattle.cv_query_parts.specs.Alternatives.{AreAtomsBelow, atoms_seen};
ghost use Rattle.cv_query_parts.specs.Said.{atom_seen, saying_of};
ghost use Rattle.cv_query_parts.specs.Views.{IsAskedBelow, asked_of};
ghost use Rattle.cv_query_parts.specs.pairs.Marked.{IsEntryBelow, IsMarkedBelow, ends_of_saying, ends_seen, entries_seen, entry_seen};

use crate::alternatives::{NumberedAtom, choice_of, chosen_atoms};
use crate::parts::place_in;
use crate::views::{Asked, Atom, Entry, Route, atom_of, entry_of, route_of};
use cv_syntax::{NodeId, Pool, read_node};
use std::alloc::{AllocError, Global};

/// The route for an event that is marked `inj`, with the number of the atom.
#[derive(Clone, Copy)]
pub struct MarkedRoute {
    pub atom: u32,
    pub route: Route,
}

/// A place of the left event, with the routes for the events that are marked `inj`.
#[derive(Drop)]
pub struct MarkedEntry {
    pub place: u64,
    pub routes: Vec<MarkedRoute>,
}

/// Whether an atom is marked `inj`.
fn is_injective(atom: Atom) -> bool
    ensures { (trees : List KindTree) → result ≡ pairs.is_injective (atom_seen trees atom) }
{
    match atom {
        Atom::Event { inj, .. } => inj,
        Atom::Term(_) => false,
    }
}

/// The routes for the atoms that are marked `inj`.
#[tactic(auto, using(crate::proofs::Said::sayings))]
fn marked_routes(
    alloc: Global,
    pool: &Pool,
    atoms: &[NumberedAtom],
    routes: Option<NodeId>,
) -> Result<Vec<MarkedRoute>, AllocError>
    requires atoms { AreAtomsBelow (length pool.now.trees) atoms.now }
    requires routes { ChildBelow (length pool.now.trees) routes }
    ensures ends { IfOk result (λ found. (s : Scene) → ends_seen s pool.now.trees found.items
        ≡ injective_ends s (atoms_seen pool.now.trees atoms.now)
        (tree_at pool.now.trees routes)) }
    ensures live { IfOk result (λ found.
        All (IsMarkedBelow (length pool.now.trees)) found.items) }
{
    let mut found = Vec::new(alloc);
    let mut at = routes;
    'atoms: for k in 0..atoms.len() {
        let Some(n) = at else {
            return Ok(found);
        };
        let node = read_node(pool, n);
        at = node.second;
        if !is_injective(atom_of(pool, atoms[k].atom)) {
            continue;
        }
        found.push(MarkedRoute {
            atom: atoms[k].number,
            route: route_of(pool, node.first),
        })?;
    }
    Ok(found)
}

/// The place of an entry with routes, and those for the atoms that are marked `inj`.
fn marked_entry(
    alloc: Global,
    pool: &Pool,
    asked: &Asked,
    part: Option<NodeId>,
) -> Result<Option<MarkedEntry>, AllocError>
    requires asked { IsAskedBelow (length pool.now.trees) asked.now }
    requires part { ChildBelow (length pool.now.trees) part }
    ensures ends { IfOk result (λ o. (s : Scene) → option_map (entry_seen s pool.now.trees) o
        ≡ ends_of_saying s (asked_of pool.now.trees asked.now)
        (saying_of (tree_at pool.now.trees part))) }
    ensures live { IfOk result (λ o. IfSome o (IsEntryBelow (length pool.now.trees))) }
{
    match entry_of(pool, part) {
        Entry::With { place, choice, .. } => {
            let choice = choice_of(pool, choice);
            let atoms = chosen_atoms(asked.alternatives, choice.number);
            Ok(Some(MarkedEntry {
                place: place_in(pool, place),
                routes: marked_routes(alloc, pool, atoms, choice.routes)?,
            }))
        }
        Entry::Never { .. } => Ok(None),
        Entry::Other => Ok(None),
    }
}

/// The places of the left event that have routes, with those for the atoms that are marked `inj`.
#[tactic(auto, using(crate::proofs::Said::sayings))]
pub(crate) fn marked_entries(
    alloc: Global,
    pool: &Pool,
    asked: &Asked,
    parts: Option<NodeId>,
) -> Result<Vec<MarkedEntry>, AllocError>
    requires asked { IsAskedBelow (length pool.now.trees) asked.now }
    requires parts { ChildBelow (length pool.now.trees) parts }
    ensures ends { IfOk result (λ found. (s : Scene)
        → entries_seen s pool.now.trees found.items
        ≡ ends_in s (asked_of pool.now.trees asked.now) (tree_at pool.now.trees parts)) }
    ensures live { IfOk result (λ found.
        All (IsEntryBelow (length pool.now.trees)) found.items) }
{
    let mut found = Vec::new(alloc);
    let mut at = parts;
    'parts: while let Some(n) = at {
        let cell = read_node(pool, n);
        if let Some(entry) = marked_entry(alloc, pool, asked, cell.first)? {
            found.push(entry)?;
        }
        at = cell.second;
    }
    Ok(found)
}
