ghost use Rattle.std.specs.Prelude.{◌≡◌, ℕ, List, length};
ghost use Rattle.cv_pool.specs.KindTree.{KindTree};
ghost use Rattle.cv_pool.specs.Nodes.{ChildBelow};
ghost use Rattle.cv_syntax.specs.PoolTrees.{tree_at};
ghost use Rattle.cv_query_certificates.specs.EventNodes as certificates;
ghost use Rattle.cv_query_parts.specs.Said.{IsRouteBelow, atom_seen, way_seen};
ghost use Rattle.cv_query_parts.specs.Views.{IsReady, game_of, trees_of};
ghost use Rattle.cv_query.specs.Claimed.{derived_by};

use cv_query_parts::{Atom, Route, View, node_at};
use cv_syntax::NodeId;
use cv_syntax::children::first_of;

/// The derivation of a route, where it is one for the atom.
#[tactic(auto, using(crate::proofs::Naming::naming))]
pub(crate) fn derivation_of(atom: Atom, route: Route) -> Option<NodeId>
    ensures tree { (trees : List KindTree) → tree_at trees result
        ≡ derived_by (atom_seen trees atom) (way_seen trees route) }
    ensures live { (n : ℕ) → IsRouteBelow n route → ChildBelow n result }
{
    match atom {
        Atom::Event { .. } => match route {
            Route::Above { by, .. } => by,
            Route::Cell { by, .. } => by,
            Route::Holds(_) => None,
            Route::Other => None,
        },
        Atom::Term(_) => match route {
            Route::Holds(by) => by,
            Route::Above { .. } => None,
            Route::Cell { .. } => None,
            Route::Other => None,
        },
    }
}

/// The arguments of the event's node at a place that a certificate names.
#[tactic(auto, using(crate::proofs::Naming::naming))]
pub(crate) fn arguments_at(view: &View, place: u64) -> Option<NodeId>
    requires { IsReady view.now }
    ensures tree { tree_at (trees_of view.now) result
        ≡ certificates.arguments_at (game_of view.now) place }
    ensures live { ChildBelow (length (trees_of view.now)) result }
{
    if place > 4_294_967_295 {
        return None;
    }
    let pool = &view.work.pool;
    first_of(pool, node_at(view, place as u32))
}
