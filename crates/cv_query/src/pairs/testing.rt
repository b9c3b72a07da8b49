ghost use Rattle.std.specs.Prelude.{◌≡◌, All, IfOk, Some, length, ◌<◌};
ghost use Rattle.cv_syntax_trees.specs.lists.Options.{first_of};
ghost use Rattle.cv_pool.specs.Nodes.{ChildBelow};
ghost use Rattle.cv_syntax.specs.PoolTrees.{tree_at};
ghost use Rattle.cv_scene_view.specs.Kept.{scene_of};
ghost use Rattle.cv_query_certificates.specs.Marks.{raise_of as raise_in};
ghost use Rattle.cv_query_parts.specs.Views.{IsReadyIn};
ghost use Rattle.cv_query_parts.specs.pairs.Walks as walks;
ghost use Rattle.cv_query_parts.specs.pairs.Walks.{IsMet};
ghost use Rattle.cv_query.specs.pairs.Proved.{IsAsBefore};

use crate::pairs::proving::{Taken, proves_pair};
use cv_query_parts::pairs::{Pairing, Walked, raise_of};
use cv_syntax::{NodeId, Work};
use cv_typing::Arrays;
use std::alloc::{AllocError, Global};

/// The first place of the first pair that isn't derived.
fn first_unproved(
    alloc: Global,
    work: &mut Work,
    game: NodeId,
    arrays: &Arrays,
    taken: &Taken,
    met: &[Pairing],
) -> Result<Option<u64>, AllocError>
    requires ready { IsReadyIn work.old.pool.trees work.old.decls.list game arrays.now }
    requires met { All (IsMet work.old.pool.trees) met.now }
    ensures first { IfOk result (λ place. place
        ≡ walks.first_unproved (scene_of work.old.pool work.old.decls game) taken.now.raise
        taken.now.distinct.now work.old.pool.trees met.now) }
    ensures before { IsAsBefore work.old work.new }
{
    'pairs: for k in 0..met.len() {
        let pairing = met[k];
        if !proves_pair(alloc, work, game, arrays, taken, pairing)? {
            return Ok(Some(pairing.first));
        }
    }
    Ok(None)
}

/// The place of the first pair that is wrong, of a certificate with these parts: one that was met and isn't derived, or else where the walk
/// over them stopped. Where no pair was met, the game isn't read.
pub(crate) fn first_wrong_pair(
    alloc: Global,
    work: &mut Work,
    game: NodeId,
    arrays: &Arrays,
    parts: Option<NodeId>,
    distinct: &[u32],
    walked: &Walked,
) -> Result<Option<u64>, AllocError>
    requires ready { IsReadyIn work.old.pool.trees work.old.decls.list game arrays.now }
    requires parts { ChildBelow (length work.old.pool.trees) parts }
    requires met { All (IsMet work.old.pool.trees) walked.now.met.items }
    ensures first { IfOk result (λ place. place ≡ first_of (walks.first_unproved
        (scene_of work.old.pool work.old.decls game)
        (raise_in (scene_of work.old.pool work.old.decls game)
        (tree_at work.old.pool.trees parts)) distinct.now work.old.pool.trees
        walked.now.met.items) walked.now.stopped) }
    ensures before { IsAsBefore work.old work.new }
{
    if walked.met.is_empty() {
        return Ok(walked.stopped);
    }
    let raise = raise_of(work, game, parts)?;
    let taken = Taken { raise, distinct };
    let met = walked.met.as_slice();
    match first_unproved(alloc, work, game, arrays, &taken, met)? {
        Some(place) => Ok(Some(place)),
        None => Ok(walked.stopped),
    }
}
