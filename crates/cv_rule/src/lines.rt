ghost use Rattle.std.specs.Prelude.{◌≡◌, ◌<◌, All, IfOk, length};
ghost use Rattle.cv_syntax.specs.PoolTrees.{tree_at};
ghost use Rattle.cv_directory.specs.Live.{IsLive};
ghost use Rattle.cv_scene.specs.Derivations.{first_bad_line};
ghost use Rattle.cv_scene.specs.Sights.{sight_at};
ghost use Rattle.cv_scene_view.specs.Kept.{scene_of};
ghost use Rattle.cv_rule.specs.Prepared.{IsPrepared};
ghost use Rattle.cv_rule.specs.Stated.{IsLiveDerivation};

use cv_derive::{DeriveFault, check};
use cv_derive_reasons::sizes::Sizes;
use cv_scene_view::{indices_at, replications_at};
use cv_syntax::{Game, NodeId, Work};
use cv_typing::Arrays;
use std::alloc::{AllocError, Global};

/// The number of the first line of a derivation at a place of a game that isn't right.
pub(crate) fn bad_line(
    alloc: Global,
    work: &Work,
    game: NodeId,
    arrays: &Arrays,
    place: u32,
    by: Option<NodeId>,
) -> Result<Option<u32>, AllocError>
    requires prepared { IsPrepared work.now.pool.trees work.now.decls game arrays.now }
    requires declared { All (IsLive (length work.now.pool.trees)) work.now.decls.list }
    requires by { IsLiveDerivation work.now.pool.trees by }
    ensures { IfOk result (λ line. line ≡ first_bad_line
        (sight_at (scene_of work.now.pool work.now.decls game) place)
        (tree_at work.now.pool.trees by)) }
{
    let above = indices_at(alloc, work, game, place)?;
    let replications = replications_at(alloc, work, game, place)?;
    let rows = replications.as_slice();
    match check(
        work,
        Game { root: game },
        arrays,
        &Sizes::of(&work.pool, game),
        &above,
        rows,
        place,
        by,
        None,
    ) {
        Err(DeriveFault::LineBad(n)) => Ok(Some(n)),
        _ => Ok(None),
    }
}
