ghost use Rattle.std.specs.Prelude.{◌≡◌, IfOk, length};
ghost use Rattle.cv_pool.specs.Nodes.{ChildBelow};
ghost use Rattle.cv_syntax.specs.PoolTrees.{tree_at};
ghost use Rattle.cv_syntax_trees.specs.declared.sites.sort.Sort.TheVariants.{OfType};
ghost use Rattle.cv_typing.specs.Tables.{above_of};
ghost use Rattle.cv_scene.specs.Sights as sights;
ghost use Rattle.cv_scene.specs.Sights.{sight_at};
ghost use Rattle.cv_scene.specs.Terms.{above_at};
ghost use Rattle.cv_query_certificates.specs.EventNodes.{only_site};
ghost use Rattle.cv_query_certificates.specs.Failures as failures;
ghost use Rattle.cv_query_certificates.specs.Forms as forms;
ghost use Rattle.cv_query_parts.specs.Alternatives.{AreAtomsBelow, atoms_seen};
ghost use Rattle.cv_query_parts.specs.Said.{IsAtomBelow, IsRouteBelow, atom_seen, has_way, has_with, way_seen};
ghost use Rattle.cv_query_parts.specs.Views.{IsAskedBelow, IsReady, asked_of, game_of, scene_of, trees_of};

use crate::cells::site_place;
use crate::nodes::{are_as_many, is_event_above};
use cv_derive_lines::Claim;
use cv_derive_lines::terms::{is_term_of, is_typed_claim};
use cv_query_parts::{
    Asked, Atom, Entry, NumberedAtom, Route, View, atom_of, choice_of, chosen, entry_of,
    indices_at, is_number, node_at, route_of, surplus_entry,
};
use cv_syntax::children::{first_of, is_empty};
use cv_syntax::{NodeId, read_node};
use cv_syntax_trees::sites::Sort;
use std::alloc::{AllocError, Global};
use std::collections::HashMap;

/// Whether an event's node at a place stands above the only definition of a cell's variable.
fn is_above_site(
    view: &View,
    event: u32,
    terms: Option<NodeId>,
    place: u64,
    cell: Option<NodeId>,
) -> bool
    requires ready { IsReady view.now }
    requires terms { ChildBelow (length (trees_of view.now)) terms }
    requires cell { ChildBelow (length (trees_of view.now)) cell }
    ensures { result ≡ forms.is_above_site (game_of view.now) event
        (tree_at (trees_of view.now) terms) place
        (only_site (game_of view.now) (tree_at (trees_of view.now) cell)) }
{
    match site_place(view, cell) {
        Some(site) => is_event_above(view, event, terms, place, site),
        None => false,
    }
}

/// Whether a cell is typed at a place.
fn is_cell_at(view: &View, above: &HashMap<u32, Sort>, place: u32, cell: Option<NodeId>) -> bool
    requires ready { IsReady view.now }
    requires above { above_of above.now ≡ above_at (scene_of view.now) place }
    requires cell { ChildBelow (length (trees_of view.now)) cell }
    ensures { result
        ≡ sights.is_cell_at (scene_of view.now) place (tree_at (trees_of view.now) cell) }
{
    is_typed_claim(view.work, view.arrays, above, Claim::IsDefined(cell))
}

/// Whether a tree is a term of a type at a place.
fn is_of_type(
    view: &View,
    above: &HashMap<u32, Sort>,
    place: u32,
    t: u32,
    term: Option<NodeId>,
) -> bool
    requires ready { IsReady view.now }
    requires above { above_of above.now ≡ above_at (scene_of view.now) place }
    requires term { ChildBelow (length (trees_of view.now)) term }
    ensures { result ≡ sights.is_term_of (sight_at (scene_of view.now) place) (OfType t)
        (tree_at (trees_of view.now) term) }
{
    is_term_of(view.work, view.arrays, above, Sort::OfType(t), term)
}

/// Whether a route has the form that an atom asks at a place.
fn has_route_form(
    view: &View,
    above: &HashMap<u32, Sort>,
    place: u32,
    atom: Atom,
    route: Route,
) -> bool
    requires ready { IsReady view.now }
    requires above { above_of above.now ≡ above_at (scene_of view.now) place }
    requires atom { IsAtomBelow (length (trees_of view.now)) atom }
    requires route { IsRouteBelow (length (trees_of view.now)) route }
    ensures { result ≡ has_way (scene_of view.now) place (atom_seen (trees_of view.now) atom)
        (way_seen (trees_of view.now) route) }
{
    match atom {
        Atom::Event {
            event,
            arguments,
            ..
        } => match route {
            Route::Above { place: q, .. } => { is_event_above(view, event, arguments, q, place) }
            Route::Cell { cell, place: q, .. } => {
                is_cell_at(view, above, place, cell)
                    && is_above_site(view, event, arguments, q, cell)
            }
            Route::Holds(_) => false,
            Route::Other => false,
        },
        Atom::Term(_) => match route {
            Route::Holds(_) => true,
            _ => false,
        },
    }
}

/// Whether there is a route of the form that is asked for each atom, in order.
#[tactic(auto, using(crate::proofs::Formed::formed))]
fn have_route_forms(
    view: &View,
    above: &HashMap<u32, Sort>,
    place: u32,
    atoms: &[NumberedAtom],
    routes: Option<NodeId>,
) -> bool
    requires ready { IsReady view.now }
    requires above { above_of above.now ≡ above_at (scene_of view.now) place }
    requires atoms { AreAtomsBelow (length (trees_of view.now)) atoms.now }
    requires routes { ChildBelow (length (trees_of view.now)) routes }
    ensures { result ≡ forms.have_route_forms (scene_of view.now) place
        (atoms_seen (trees_of view.now) atoms.now) (tree_at (trees_of view.now) routes) }
{
    let pool = &view.work.pool;
    let mut at = routes;
    'atoms: for k in 0..atoms.len() {
        let Some(n) = at else {
            return false;
        };
        let node = read_node(pool, n);
        let atom = atom_of(pool, atoms[k].atom);
        let route = route_of(pool, node.first);
        if !has_route_form(view, above, place, atom, route) {
            return false;
        }
        at = node.second;
    }
    is_empty(pool, at)
}

/// Whether an alternative is chosen, and there is a route of the form that is asked for each of its atoms.
fn has_choice(
    view: &View,
    above: &HashMap<u32, Sort>,
    asked: &Asked,
    place: u32,
    choice: Option<NodeId>,
) -> bool
    requires ready { IsReady view.now }
    requires above { above_of above.now ≡ above_at (scene_of view.now) place }
    requires asked { IsAskedBelow (length (trees_of view.now)) asked.now }
    requires choice { ChildBelow (length (trees_of view.now)) choice }
    ensures { result ≡ forms.has_choice (scene_of view.now)
        (asked_of (trees_of view.now) asked.now) place (tree_at (trees_of view.now) choice) }
{
    let choice = choice_of(&view.work.pool, choice);
    match chosen(asked.alternatives, choice.number) {
        Some(atoms) => have_route_forms(view, above, place, atoms, choice.routes),
        None => false,
    }
}

/// Whether there is a term of its type for each of the variables.
#[tactic(auto, using(crate::proofs::Formed::formed))]
fn have_types(
    view: &View,
    above: &HashMap<u32, Sort>,
    place: u32,
    others: &[(u32, u32)],
    witnesses: Option<NodeId>,
) -> bool
    requires ready { IsReady view.now }
    requires above { above_of above.now ≡ above_at (scene_of view.now) place }
    requires witnesses { ChildBelow (length (trees_of view.now)) witnesses }
    ensures { result ≡ forms.have_types (sight_at (scene_of view.now) place) others.now
        (tree_at (trees_of view.now) witnesses) }
{
    let mut at = witnesses;
    'variables: for k in 0..others.len() {
        let Some(n) = at else {
            return false;
        };
        let node = read_node(&view.work.pool, n);
        if !is_of_type(view, above, place, others[k].1, node.first) {
            return false;
        }
        at = node.second;
    }
    is_empty(&view.work.pool, at)
}

/// Whether witnesses and a choice have the form that a query asks at a place.
fn has_with_form(
    alloc: Global,
    view: &View,
    asked: &Asked,
    place: u32,
    witnesses: Option<NodeId>,
    choice: Option<NodeId>,
) -> Result<bool, AllocError>
    requires ready { IsReady view.now }
    requires asked { IsAskedBelow (length (trees_of view.now)) asked.now }
    requires witnesses { ChildBelow (length (trees_of view.now)) witnesses }
    requires choice { ChildBelow (length (trees_of view.now)) choice }
    ensures { IfOk result (λ has. has
        ≡ has_with (scene_of view.now) (asked_of (trees_of view.now) asked.now) place
        (tree_at (trees_of view.now) witnesses) (tree_at (trees_of view.now) choice)) }
{
    let pool = &view.work.pool;
    let arguments = first_of(pool, node_at(view, place));
    if !are_as_many(pool, asked.variables, arguments) {
        return Ok(false);
    }
    let above = indices_at(alloc, view, place)?;
    if !have_types(view, &above, place, asked.others, witnesses) {
        return Ok(false);
    }
    Ok(has_choice(view, &above, asked, place, choice))
}

/// Whether a part has the form that a query asks of an entry for a place.
fn has_form(
    alloc: Global,
    view: &View,
    asked: &Asked,
    place: u32,
    part: Option<NodeId>,
) -> Result<bool, AllocError>
    requires ready { IsReady view.now }
    requires asked { IsAskedBelow (length (trees_of view.now)) asked.now }
    requires part { ChildBelow (length (trees_of view.now)) part }
    ensures { IfOk result (λ has. has
        ≡ forms.has_form (scene_of view.now) (asked_of (trees_of view.now) asked.now) place
        (tree_at (trees_of view.now) part)) }
{
    match entry_of(&view.work.pool, part) {
        Entry::Never { place: n, .. } => Ok(is_number(&view.work.pool, place, n)),
        Entry::With {
            place: n,
            witnesses,
            choice,
        } => {
            if !is_number(&view.work.pool, place, n) {
                return Ok(false);
            }
            has_with_form(alloc, view, asked, place, witnesses, choice)
        }
        Entry::Other => Ok(false),
    }
}

/// The first of the places without an entry of the form that is asked, or that of an entry too many.
#[tactic(auto, using(crate::proofs::Formed::formed))]
pub fn first_unformed(
    alloc: Global,
    view: &View,
    asked: &Asked,
    places: &[u32],
    parts: Option<NodeId>,
) -> Result<Option<u64>, AllocError>
    requires ready { IsReady view.now }
    requires asked { IsAskedBelow (length (trees_of view.now)) asked.now }
    requires parts { ChildBelow (length (trees_of view.now)) parts }
    ensures { IfOk result (λ place. place
        ≡ failures.first_unformed (scene_of view.now) (asked_of (trees_of view.now) asked.now)
        places.now (tree_at (trees_of view.now) parts)) }
{
    let mut at = parts;
    'places: for k in 0..places.len() {
        let place = places[k];
        let Some(n) = at else {
            return Ok(Some(place as u64));
        };
        let part = read_node(&view.work.pool, n);
        if !has_form(alloc, view, asked, place, part.first)? {
            return Ok(Some(place as u64));
        }
        at = part.second;
    }
    Ok(surplus_entry(&view.work.pool, at))
}
