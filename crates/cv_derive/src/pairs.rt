ghost use Rattle.std.specs.Prelude.{◌≡◌, ◌+◌, ◌<◌, ◌^◌, All, IfSome, Some, length};
ghost use Rattle.cv_pool.specs.Nodes.{ChildBelow};
ghost use Rattle.cv_syntax.specs.Declarations.{declarations};
ghost use Rattle.cv_syntax_trees.specs.Tree.{size};
ghost use Rattle.cv_syntax.specs.PoolTrees.{tree_at};
ghost use Rattle.cv_directory.specs.Definitions.{entries_of, large_in};
ghost use Rattle.cv_syntax_trees.specs.sites.Sites.{sites_of};
ghost use Rattle.cv_directory.specs.Tables.{entries_in};
ghost use Rattle.cv_directory.specs.Live.{IsLive};
ghost use Rattle.cv_scope_rules.specs.typing.Signature.{OfGame};
ghost use Rattle.cv_typing.specs.Tables.{above_of, arrays_of, directory_in};
ghost use Rattle.cv_scope_rules.specs.Phrases.{IsWellFormed};
ghost use Rattle.cv_scene.specs.Derivations.{first_bad_line};
ghost use Rattle.cv_scene.specs.Terms.{above_under, replications_at};
ghost use Rattle.cv_scene.specs.lines.Lines as derived;
ghost use Rattle.cv_scene.specs.lines.Lines.{lines_of};
ghost use Rattle.cv_scene_view.specs.Kept.{scene_of};
ghost use Rattle.cv_derive.specs.Seconds.{IsSecond, pair_of};

use crate::checking::first_bad;
use crate::sight::{Assumed, Second, Sight};
use cv_derive_lines::citing::Bookmarks;
use cv_derive_reasons::sizes::Sizes;
use cv_syntax::{Game, NodeId, Work};
use cv_syntax_trees::sites::Sort;
use cv_typing::Arrays;
use std::collections::HashMap;

/// The number of the first line that isn't right of a derivation at two places of a game. The sorts are those of the indices
/// above both, the second copy's under their own names. It takes no memory.
pub fn first_bad_of_pair(
    work: &Work,
    game: Game,
    arrays: &Arrays,
    above: &HashMap<u32, Sort>,
    replications: &[(u32, u32)],
    place: u32,
    second: &Second,
    by: Option<NodeId>,
) -> Option<u32>
    requires live { game.root.0 < length work.now.pool.trees }
    requires fits { size (tree_at work.now.pool.trees (Some game.root)) < 2 ^ 32 }
    requires lines { ChildBelow (length work.now.pool.trees) by }
    requires few { 1 + derived.count (lines_of (tree_at work.now.pool.trees by)) < 2 ^ 32 }
    requires declared { All (IsLive (length work.now.pool.trees)) work.now.decls.list }
    requires formed { IsWellFormed (declarations work.now.pool.trees work.now.decls.list)
        (tree_at work.now.pool.trees (Some game.root)) }
    requires arrays { arrays_of arrays.now
        ≡ OfGame (sites_of (tree_at work.now.pool.trees (Some game.root))) }
    requires entries { IfSome (directory_in arrays.now) (λ d. entries_in work.now.pool.trees d
        ≡ entries_of (large_in work.now.decls.list)
        (tree_at work.now.pool.trees (Some game.root))) }
    requires replications { replications.now
        ≡ replications_at (scene_of work.now.pool work.now.decls game.root) place }
    requires second { IsSecond work.now.pool.trees
        (scene_of work.now.pool work.now.decls game.root) second.now }
    requires above { above_of above.now ≡ above_under
        (pair_of work.now.pool.trees (scene_of work.now.pool work.now.decls game.root)
        place second.now).replications }
    ensures { result ≡ first_bad_line
        (pair_of work.now.pool.trees (scene_of work.now.pool work.now.decls game.root)
        place second.now) (tree_at work.now.pool.trees by) }
{
    let sizes = Sizes::of(&work.pool, game.root);
    let sight = Sight {
        work,
        game,
        arrays,
        above,
        replications,
        sizes: &sizes,
        place,
        second: Some(*second),
        lines: by,
    };
    first_bad(&sight, &Bookmarks::new(), Assumed::Nothing, 1, by)
}
