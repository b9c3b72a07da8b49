ghost use Rattle.std.specs.Prelude.{◌≡◌, IfOk, length, not, is_some};
ghost use Rattle.std.specs.List.{list_all};
ghost use Rattle.cv_pool.specs.Nodes.{ChildBelow};
ghost use Rattle.cv_syntax_trees.specs.Tree.{Tree};
ghost use Rattle.cv_syntax.specs.PoolTrees.{tree_at};
ghost use Rattle.cv_typing.specs.Tables.{above_of};
ghost use Rattle.cv_scene.specs.Derivations.{first_bad_line};
ghost use Rattle.cv_scene.specs.Sights.{sight_at};
ghost use Rattle.cv_scene.specs.Terms.{above_at, replications_at as replications_there};
ghost use Rattle.cv_query_certificates.specs.Claims.{claims_of, entry_claims};
ghost use Rattle.cv_query_certificates.specs.Failures as failures;
ghost use Rattle.cv_query_certificates.specs.Failures.{first_failing};
ghost use Rattle.cv_query_parts.specs.Alternatives.{AreAtomsBelow, atoms_seen};
ghost use Rattle.cv_query_parts.specs.Views.{IsAskedBelow, IsReady, asked_of, scene_of, trees_of};
ghost use Rattle.cv_query_parts.specs.Countable.{AreCountable, AreCountableParts, IsCountable, IsCountableSaying};
ghost use Rattle.cv_query_parts.specs.Said.{saying_of};

use crate::claims::derivation_of;
use cv_derive::{DeriveFault, check};
use cv_query_parts::{
    Asked, Entry, NumberedAtom, View, atom_of, choice_of, chosen_atoms, entry_of, indices_at,
    replications_at, route_of,
};
use cv_syntax::{Game, NodeId, read_node};
use cv_syntax_trees::sites::Sort;
use std::alloc::{AllocError, Global};
use std::collections::HashMap;

/// The number of the first line of a derivation at a place that isn't right.
fn bad_line(
    view: &View,
    above: &HashMap<u32, Sort>,
    rows: &[(u32, u32)],
    place: u32,
    by: Option<NodeId>,
) -> Option<u32>
    requires ready { IsReady view.now }
    requires above { above_of above.now ≡ above_at (scene_of view.now) place }
    requires rows { rows.now ≡ replications_there (scene_of view.now) place }
    requires by { ChildBelow (length (trees_of view.now)) by }
    requires few { IsCountable (tree_at (trees_of view.now) by) }
    ensures { result ≡ first_bad_line (sight_at (scene_of view.now) place)
        (tree_at (trees_of view.now) by) }
{
    let game = Game { root: view.game };
    match check(
        view.work,
        game,
        view.arrays,
        view.sizes,
        above,
        rows,
        place,
        by,
        None,
    ) {
        Err(DeriveFault::LineBad(n)) => Some(n),
        _ => None,
    }
}

/// Whether each line of a derivation is right at a place.
fn is_right(
    view: &View,
    above: &HashMap<u32, Sort>,
    rows: &[(u32, u32)],
    place: u32,
    by: Option<NodeId>,
) -> bool
    requires ready { IsReady view.now }
    requires above { above_of above.now ≡ above_at (scene_of view.now) place }
    requires rows { rows.now ≡ replications_there (scene_of view.now) place }
    requires by { ChildBelow (length (trees_of view.now)) by }
    requires few { IsCountable (tree_at (trees_of view.now) by) }
    ensures { result ≡ not (is_some (first_bad_line (sight_at (scene_of view.now) place)
        (tree_at (trees_of view.now) by))) }
{
    bad_line(view, above, rows, place, by).is_none()
}

/// Whether each line of the routes' derivations is right at a place.
#[tactic(auto, using(crate::proofs::Claiming::claiming))]
fn are_right(
    view: &View,
    above: &HashMap<u32, Sort>,
    rows: &[(u32, u32)],
    place: u32,
    atoms: &[NumberedAtom],
    routes: Option<NodeId>,
) -> bool
    requires ready { IsReady view.now }
    requires above { above_of above.now ≡ above_at (scene_of view.now) place }
    requires rows { rows.now ≡ replications_there (scene_of view.now) place }
    requires atoms { AreAtomsBelow (length (trees_of view.now)) atoms.now }
    requires routes { ChildBelow (length (trees_of view.now)) routes }
    requires few { AreCountable (tree_at (trees_of view.now) routes) }
    ensures { (put : Tree → Tree) → result ≡ list_all (failures.is_right (scene_of view.now) place)
        (claims_of (scene_of view.now) put (atoms_seen (trees_of view.now) atoms.now)
        (tree_at (trees_of view.now) routes)) }
{
    let pool = &view.work.pool;
    let mut at = routes;
    'atoms: for k in 0..atoms.len() {
        let Some(n) = at else {
            return true;
        };
        let node = read_node(pool, n);
        let atom = atom_of(pool, atoms[k].atom);
        let route = route_of(pool, node.first);
        let by = derivation_of(atom, route);
        if !is_right(view, above, rows, place, by) {
            return false;
        }
        at = node.second;
    }
    true
}

/// Whether each line of an entry's derivations is right.
#[tactic(auto, using(crate::proofs::Claiming::claiming))]
fn has_right_lines(
    alloc: Global,
    view: &View,
    asked: &Asked,
    place: u32,
    part: Option<NodeId>,
) -> Result<bool, AllocError>
    requires ready { IsReady view.now }
    requires asked { IsAskedBelow (length (trees_of view.now)) asked.now }
    requires part { ChildBelow (length (trees_of view.now)) part }
    requires few { IsCountableSaying (saying_of (tree_at (trees_of view.now) part)) }
    ensures { IfOk result (λ right. right ≡ list_all (failures.is_right (scene_of view.now) place)
        (entry_claims (scene_of view.now) (asked_of (trees_of view.now) asked.now) place
        (tree_at (trees_of view.now) part))) }
{
    let above = indices_at(alloc, view, place)?;
    let replications = replications_at(alloc, view, place)?;
    let rows = replications.as_slice();
    match entry_of(&view.work.pool, part) {
        Entry::Never { by, .. } => Ok(is_right(view, &above, rows, place, by)),
        Entry::With { choice, .. } => {
            let choice = choice_of(&view.work.pool, choice);
            let atoms = chosen_atoms(asked.alternatives, choice.number);
            Ok(are_right(view, &above, rows, place, atoms, choice.routes))
        }
        Entry::Other => Ok(true),
    }
}

/// The first of the places whose entry has a derivation with a line that isn't right.
#[tactic(auto, using(crate::proofs::Claiming::claiming))]
pub(crate) fn first_wrong(
    alloc: Global,
    view: &View,
    asked: &Asked,
    places: &[u32],
    parts: Option<NodeId>,
) -> Result<Option<u32>, AllocError>
    requires ready { IsReady view.now }
    requires asked { IsAskedBelow (length (trees_of view.now)) asked.now }
    requires parts { ChildBelow (length (trees_of view.now)) parts }
    requires few { AreCountableParts (tree_at (trees_of view.now) parts) }
    ensures { IfOk result (λ place. place ≡ first_failing failures.is_right (scene_of view.now)
        (asked_of (trees_of view.now) asked.now) places.now
        (tree_at (trees_of view.now) parts)) }
{
    let mut at = parts;
    'places: for k in 0..places.len() {
        let place = places[k];
        let Some(n) = at else {
            return Ok(None);
        };
        let part = read_node(&view.work.pool, n);
        if !has_right_lines(alloc, view, asked, place, part.first)? {
            return Ok(Some(place));
        }
        at = part.second;
    }
    Ok(None)
}
