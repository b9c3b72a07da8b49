ghost use Rattle.std.specs.Prelude.{◌≡◌, ◌∷◌, ℕ, IfOk, None, length, true};
ghost use Rattle.std.specs.List.{list_all};
ghost use Rattle.cv_pool.specs.Nodes.{ChildBelow};
ghost use Rattle.cv_syntax.specs.PoolTrees.{tree_at};
ghost use Rattle.cv_scene.specs.lines.Ends.{is_end};
ghost use Rattle.cv_scene.specs.lines.Lines.{IsDefined, lines_of, statements};
ghost use Rattle.cv_query_certificates.specs.Claims.{behind_cell, claims_of, entry_claims};
ghost use Rattle.cv_query_certificates.specs.EventNodes.{arguments_at as arguments_there, only_site};
ghost use Rattle.cv_query_certificates.specs.Failures as failures;
ghost use Rattle.cv_query_certificates.specs.Failures.{first_failing, first_unformed};
ghost use Rattle.cv_query_certificates.specs.Forms.{has_form};
ghost use Rattle.cv_query_entries.specs.ends.Said.{said_equal};
ghost use Rattle.cv_query_entries.specs.terms.Given.{put};
ghost use Rattle.cv_query_entries.specs.terms.Parts.{IsGivenBelow, terms_of};
ghost use Rattle.cv_query_parts.specs.Alternatives.{AreAtomsBelow, atoms_seen};
ghost use Rattle.cv_query_parts.specs.Said.{IsAtomBelow, IsRouteBelow, atom_seen, way_seen};
ghost use Rattle.cv_query_parts.specs.Views.{IsAskedBelow, IsReady, asked_of, game_of, scene_of, trees_of};
ghost use Rattle.cv_query.specs.Claimed.{ends_by};

use crate::claims::arguments_at;
use cv_query_entries::ends::{
    ends_with_cell, ends_with_equations, ends_with_falsity, ends_with_term,
};
use cv_query_entries::rows_above;
use cv_query_entries::terms::{Given, Part};
use cv_query_parts::{
    Asked, Atom, Entry, NumberedAtom, Route, View, atom_of, choice_of, chosen_atoms, entry_of,
    route_of,
};
use cv_syntax::children::first_of;
use cv_syntax::{NodeId, read_node};
use std::alloc::{AllocError, Global};

/// A tree in which terms are to be put.
fn pending(node: Option<NodeId>) -> Part
    ensures node { result.node ≡ node }
    ensures pending { result.pending ≡ true }
{
    Part {
        node,
        pending: true,
    }
}

/// Whether the derivation of a route by a cell ends with what an event asks of it.
fn ends_behind_cell(
    alloc: Global,
    view: &View,
    given: &Given,
    arguments: Option<NodeId>,
    cell: Option<NodeId>,
    place: u64,
    by: Option<NodeId>,
) -> Result<bool, AllocError>
    requires ready { IsReady view.now }
    requires given { IsGivenBelow (length (trees_of view.now)) given.now }
    requires arguments { ChildBelow (length (trees_of view.now)) arguments }
    requires cell { ChildBelow (length (trees_of view.now)) cell }
    requires by { ChildBelow (length (trees_of view.now)) by }
    ensures { IfOk result (λ ends. ends
        ≡ is_end (statements (lines_of (tree_at (trees_of view.now) by)))
        (IsDefined (tree_at (trees_of view.now) cell) ∷ said_equal
        (behind_cell (tree_at (trees_of view.now) cell)
        (only_site (game_of view.now) (tree_at (trees_of view.now) cell))
        (arguments_there (game_of view.now) place))
        (put (terms_of (trees_of view.now) given.now)
        (tree_at (trees_of view.now) arguments)))) }
{
    let pool = &view.work.pool;
    let rows = rows_above(alloc, view, cell)?;
    let behind = Given {
        variables: None,
        arguments: None,
        others: rows.as_slice(),
        terms: first_of(pool, cell),
    };
    let there = pending(arguments_at(view, place));
    Ok(ends_with_cell(pool, by, cell, &behind, there, given, pending(arguments)))
}

/// Whether the derivation of a route by an event above ends with what an event asks of it.
fn ends_above(
    view: &View,
    given: &Given,
    arguments: Option<NodeId>,
    place: u64,
    by: Option<NodeId>,
) -> bool
    requires ready { IsReady view.now }
    requires given { IsGivenBelow (length (trees_of view.now)) given.now }
    requires arguments { ChildBelow (length (trees_of view.now)) arguments }
    requires by { ChildBelow (length (trees_of view.now)) by }
    ensures { result ≡ is_end (statements (lines_of (tree_at (trees_of view.now) by)))
        (said_equal (arguments_there (game_of view.now) place)
        (put (terms_of (trees_of view.now) given.now)
        (tree_at (trees_of view.now) arguments))) }
{
    let there = Part {
        node: arguments_at(view, place),
        pending: false,
    };
    let nothing = Given {
        variables: None,
        arguments: None,
        others: given.others,
        terms: None,
    };
    ends_with_equations(
        &view.work.pool,
        by,
        &nothing,
        there,
        given,
        pending(arguments),
    )
}

/// Whether the derivation of a route ends with what an atom asks of it.
fn has_end(
    alloc: Global,
    view: &View,
    given: &Given,
    atom: Atom,
    route: Route,
) -> Result<bool, AllocError>
    requires ready { IsReady view.now }
    requires given { IsGivenBelow (length (trees_of view.now)) given.now }
    requires atom { IsAtomBelow (length (trees_of view.now)) atom }
    requires route { IsRouteBelow (length (trees_of view.now)) route }
    ensures { IfOk result (λ ends. ends ≡ ends_by (scene_of view.now)
        (put (terms_of (trees_of view.now) given.now)) (atom_seen (trees_of view.now) atom)
        (way_seen (trees_of view.now) route)) }
{
    match atom {
        Atom::Event { arguments, .. } => match route {
            Route::Above { place, by } => Ok(ends_above(view, given, arguments, place, by)),
            Route::Cell { cell, place, by } => {
                ends_behind_cell(alloc, view, given, arguments, cell, place, by)
            }
            Route::Holds(_) => Ok(false),
            Route::Other => Ok(false),
        },
        Atom::Term(term) => match route {
            Route::Holds(by) => Ok(ends_with_term(&view.work.pool, by, given, pending(term))),
            Route::Above { .. } => Ok(false),
            Route::Cell { .. } => Ok(false),
            Route::Other => Ok(false),
        },
    }
}

/// Whether the derivations of routes end with what the atoms ask of them.
#[tactic(auto, using(crate::proofs::Claiming::claiming))]
fn have_ends(
    alloc: Global,
    view: &View,
    given: &Given,
    atoms: &[NumberedAtom],
    routes: Option<NodeId>,
) -> Result<bool, AllocError>
    requires ready { IsReady view.now }
    requires given { IsGivenBelow (length (trees_of view.now)) given.now }
    requires atoms { AreAtomsBelow (length (trees_of view.now)) atoms.now }
    requires routes { ChildBelow (length (trees_of view.now)) routes }
    ensures { (p : ℕ) → IfOk result (λ ends. ends ≡ list_all (failures.has_end (scene_of view.now) p)
        (claims_of (scene_of view.now) (put (terms_of (trees_of view.now) given.now))
        (atoms_seen (trees_of view.now) atoms.now) (tree_at (trees_of view.now) routes))) }
{
    let pool = &view.work.pool;
    let mut at = routes;
    'atoms: for k in 0..atoms.len() {
        let Some(n) = at else {
            return Ok(true);
        };
        let node = read_node(pool, n);
        let atom = atom_of(pool, atoms[k].atom);
        let route = route_of(pool, node.first);
        let ends = has_end(alloc, view, given, atom, route)?;
        if !ends {
            return Ok(false);
        }
        at = node.second;
    }
    Ok(true)
}

/// Whether the derivations of an entry of the right form end with what is asked of them.
#[tactic(auto, using(crate::proofs::Claiming::claiming))]
fn has_ends(
    alloc: Global,
    view: &View,
    asked: &Asked,
    place: u32,
    part: Option<NodeId>,
) -> Result<bool, AllocError>
    requires ready { IsReady view.now }
    requires asked { IsAskedBelow (length (trees_of view.now)) asked.now }
    requires part { ChildBelow (length (trees_of view.now)) part }
    requires formed { has_form (scene_of view.now) (asked_of (trees_of view.now) asked.now) place
        (tree_at (trees_of view.now) part) ≡ true }
    ensures { IfOk result (λ ends. ends ≡ list_all (failures.has_end (scene_of view.now) place)
        (entry_claims (scene_of view.now) (asked_of (trees_of view.now) asked.now) place
        (tree_at (trees_of view.now) part))) }
{
    match entry_of(&view.work.pool, part) {
        Entry::Never { by, .. } => Ok(ends_with_falsity(&view.work.pool, by)),
        Entry::With {
            witnesses,
            choice,
            ..
        } => {
            let given = Given {
                variables: asked.variables,
                arguments: arguments_at(view, place as u64),
                others: asked.others,
                terms: witnesses,
            };
            let choice = choice_of(&view.work.pool, choice);
            let atoms = chosen_atoms(asked.alternatives, choice.number);
            let ends = have_ends(alloc, view, &given, atoms, choice.routes)?;
            Ok(ends)
        }
        Entry::Other => Ok(true),
    }
}

/// The first of the places whose entry has a derivation that doesn't end with what is asked of it, where all entries have the
/// right form.
#[tactic(auto, using(crate::proofs::Claiming::claiming))]
pub(crate) fn first_unfinished(
    alloc: Global,
    view: &View,
    asked: &Asked,
    places: &[u32],
    parts: Option<NodeId>,
) -> Result<Option<u32>, AllocError>
    requires ready { IsReady view.now }
    requires asked { IsAskedBelow (length (trees_of view.now)) asked.now }
    requires parts { ChildBelow (length (trees_of view.now)) parts }
    requires formed { first_unformed (scene_of view.now) (asked_of (trees_of view.now) asked.now)
        places.now (tree_at (trees_of view.now) parts) ≡ None }
    ensures { IfOk result (λ place. place ≡ first_failing failures.has_end (scene_of view.now)
        (asked_of (trees_of view.now) asked.now) places.now
        (tree_at (trees_of view.now) parts)) }
{
    let mut at = parts;
    'places: for k in 0..places.len() {
        let place = places[k];
        let Some(n) = at else {
            return Ok(None);
        };
        let part = read_node(&view.work.pool, n);
        if !has_ends(alloc, view, asked, place, part.first)? {
            return Ok(Some(place));
        }
        at = part.second;
    }
    Ok(None)
}
