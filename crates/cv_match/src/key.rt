ghost use Rattle.std.specs.Prelude.{◌≡◌, All, Some, length};
ghost use Rattle.cv_syntax.specs.PoolTrees.{tree_at};
ghost use Rattle.cv_directory.specs.Live.{IsLive};
ghost use Rattle.cv_scene.specs.Refusals as refusals;
ghost use Rattle.cv_match_terms.specs.patterns.Searches.{IsReady};
ghost use Rattle.cv_match.specs.instances.Matchings.{matching_by};
ghost use Rattle.cv_match_terms.specs.uses.Tallies.{IsTableOf};

use cv_match_terms::patterns::{Search, key_of};
use cv_match_terms::uses::UseTable;
use cv_scene_view::is_queried;
use cv_syntax::Work;

/// Whether the key's variable has one definition, a `new` of the key's type, and no query asks for it.
pub fn has_key(work: &Work, search: &Search, table: &UseTable) -> bool
    requires ready { IsReady work.now.pool search.now }
    requires table { IsTableOf (tree_at work.now.pool.trees (Some search.now.game)) table.now }
    requires declared { All (IsLive (length work.now.pool.trees)) work.now.decls.list }
    ensures { result ≡ refusals.has_key (matching_by work.now.pool work.now.decls search.now) }
{
    let key = key_of(&work.pool, search.side);
    table.is_drawn_of(search.key, key.1) && !is_queried(work, search.game, search.key)
}
