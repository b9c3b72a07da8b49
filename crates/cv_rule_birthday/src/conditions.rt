// What both rules ask first, and how a condition that fails is told.
ghost use Rattle.std.specs.Prelude.{◌≡◌, ◌<◌, ◌^◌, Some, length};
ghost use Rattle.std.specs.List.{list_all};
ghost use Rattle.cv_syntax_trees.specs.Tree.{size};
ghost use Rattle.cv_syntax.specs.PoolTrees.{tree_at};
ghost use Rattle.cv_scene.specs.Scenes as scenes;
ghost use Rattle.cv_scene_view.specs.Kept.{scene_of};
ghost use Rattle.cv_edit_places.specs.Plans as plans;
ghost use Rattle.cv_rule_birthday.specs.Conditions.{stands_at_places};

use cv_costs::are_increasing;
use cv_edit_places::Failure;
use cv_scene_view::{has_place, is_known};
use cv_syntax::{NodeId, Work};

/// A condition that fails.
pub(crate) fn failed(condition: u32, place: u32) -> Failure
    ensures { result ≡ plans.failed condition place }
{
    Failure { condition, place }
}

/// Whether a game has each of some places.
fn has_places(work: &Work, game: NodeId, places: &[u32]) -> bool
    requires live { game.0 < length work.now.pool.trees }
    requires fits { size (tree_at work.now.pool.trees (Some game)) < 2 ^ 32 }
    ensures { result ≡ list_all
        (scenes.has_place (scene_of work.now.pool work.now.decls game)) places.now }
{
    'places: for k in 0..places.len() {
        if !has_place(work, game, places[k]) {
            return false;
        }
    }
    true
}

/// Whether the file or the game has the variable, and the game the places, each behind the one before it.
pub(crate) fn stands(work: &Work, game: NodeId, x: u32, places: &[u32]) -> bool
    requires live { game.0 < length work.now.pool.trees }
    requires fits { size (tree_at work.now.pool.trees (Some game)) < 2 ^ 32 }
    ensures { result ≡ stands_at_places (scene_of work.now.pool work.now.decls game) x
        places.now }
{
    is_known(work, game, x) && (has_places(work, game, places) && are_increasing(places))
}
