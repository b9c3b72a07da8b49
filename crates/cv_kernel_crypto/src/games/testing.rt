ghost use Rattle.std.specs.Prelude.{◌≡◌, ◌<◌, ◌^◌, All, IfOk, IfSome, Some, is_some, length};
ghost use Rattle.cv_syntax.specs.Declarations.{declarations};
ghost use Rattle.cv_syntax_trees.specs.Tree.{size};
ghost use Rattle.cv_syntax.specs.PoolTrees.{tree_at};
ghost use Rattle.cv_directory.specs.Definitions.{entries_of, large_in};
ghost use Rattle.cv_syntax_trees.specs.sites.Sites.{sites_of};
ghost use Rattle.cv_directory.specs.Tables.{entries_in};
ghost use Rattle.cv_directory.specs.Live.{IsLive};
ghost use Rattle.cv_scope_rules.specs.typing.Signature.{OfGame};
ghost use Rattle.cv_typing.specs.Tables.{arrays_of, directory_in};
ghost use Rattle.cv_scene.specs.Terms as terms;
ghost use Rattle.cv_bound.specs.declared.cost.Cost.TheVariants.{Zero};

use cv_bound::Cost;
use cv_scene_view::is_game;
use cv_syntax::{Game, NodeId, Work};
use cv_typing::Arrays;
use std::alloc::{AllocError, Global};

/// The game that a step leads to, with what there is to read in it, and what the step costs.
#[derive(Drop)]
pub struct Next {
    pub game: Game,
    pub arrays: Arrays,
    pub cost: Cost,
}

/// The game at a node, as a step leads to it that costs nothing, where it is a game.
pub fn next_at(alloc: Global, work: &Work, root: NodeId) -> Result<Option<Next>, AllocError>
    requires live { root.0 < length work.now.pool.trees }
    requires declared { All (IsLive (length work.now.pool.trees)) work.now.decls.list }
    requires fits { size (tree_at work.now.pool.trees (Some root)) < 2 ^ 32 }
    ensures game { IfOk result (λ found. is_some found ≡ terms.is_game
        (declarations work.now.pool.trees work.now.decls.list)
        (tree_at work.now.pool.trees (Some root))) }
    ensures root { IfOk result (λ found. IfSome found (λ next. next.game.root ≡ root)) }
    ensures cost { IfOk result (λ found. IfSome found (λ next. next.cost ≡ Zero)) }
    ensures arrays { IfOk result (λ found. IfSome found (λ next.
        arrays_of next.arrays ≡ OfGame (sites_of (tree_at work.now.pool.trees (Some root))))) }
    ensures entries { IfOk result (λ found. IfSome found (λ next. IfSome (directory_in next.arrays)
        (λ d. entries_in work.now.pool.trees d ≡ entries_of (large_in work.now.decls.list)
        (tree_at work.now.pool.trees (Some root))))) }
{
    let game = Game { root };
    match is_game(alloc, work, game)? {
        Some(arrays) => Ok(Some(Next {
            game,
            arrays,
            cost: Cost::Zero,
        })),
        None => Ok(None),
    }
}
