ghost use Rattle.std.specs.Prelude.{◌≡◌, ◌<◌, ℕ, All, IfSome, List, Some, option_map};
ghost use Rattle.cv_pool.specs.KindTree.{KindTree};
ghost use Rattle.cv_syntax.specs.Declarations.{declarations};
ghost use Rattle.cv_syntax.specs.PoolTrees.{tree_at};
ghost use Rattle.cv_directory.specs.Live.{IsLive};
ghost use Rattle.cv_meaning.specs.Queries.{queries_in};
ghost use Rattle.cv_scene.specs.Sights.{from_one};

use cv_syntax::{Decls, NodeId, query_at};

/// The query of a file of a number, from 1.
pub fn query_numbered(decls: &Decls, number: u64) -> Option<NodeId>
    ensures tree { (trees : List KindTree) → option_map (λ q. tree_at trees (Some q)) result
        ≡ from_one (queries_in (declarations trees decls.now.list)) number }
    ensures live { (n : ℕ) → All (IsLive n) decls.now.list → IfSome result (λ q. q.0 < n) }
{
    let mut left = number;
    'decls: for k in 0..decls.len() {
        let Some(query) = query_at(decls, k) else {
            continue;
        };
        if left == 1 {
            return Some(query);
        }
        left = left.saturating_sub(1);
    }
    None
}
