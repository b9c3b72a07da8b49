// Games with what is known at their places.
ghost use Rattle.std.specs.Prelude.{◌<◌, ◌^◌, IsTrue, Some, length};
ghost use Rattle.cv_syntax_trees.specs.Tree.{size};
ghost use Rattle.cv_syntax.specs.PoolTrees.{tree_at};

use crate::games::Listing;
use cv_closure::Theory;
use cv_grounds::Survey;
use cv_syntax::children::room_left;
use cv_syntax::{Game, Pool, Work};

/// A game with what is known at its places.
#[derive(Clone, Copy)]
pub struct Scene<'a> {
    pub work: &'a Work,
    pub game: Game,
    pub listing: &'a Listing,
    pub survey: &'a Survey,
    pub theory: &'a Theory,
}

/// The most nodes of a game.
const MOST_NODES: u32 = 1_000_000;

/// Whether a game is there, and no larger than games are.
pub fn is_small(pool: &Pool, game: Game) -> bool
    ensures live { IsTrue result → game.root.0 < length pool.now.trees }
    ensures fits { IsTrue result → size (tree_at pool.now.trees (Some game.root)) < 2 ^ 32 }
{
    if game.root.0 >= pool.live() {
        return false;
    }
    room_left(pool, Some(game.root), MOST_NODES).is_some()
}
