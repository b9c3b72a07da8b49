ghost use Rattle.std.specs.Prelude.{◌≡◌, ◌<◌, ◌^◌, Some, length};
ghost use Rattle.cv_pool.specs.Nodes.{ChildBelow};
ghost use Rattle.cv_syntax_trees.specs.Tree.{size};
ghost use Rattle.cv_syntax.specs.PoolTrees.{tree_at};
ghost use Rattle.cv_scene.specs.Scenes as scenes;
ghost use Rattle.cv_rule_birthday.specs.guess.Guessing as guessing;

use cv_edit_places::has_term_at;
use cv_scene_view::part_at;
use cv_syntax::children::read_child;
use cv_syntax::{Head, NodeId, Pool};

/// Whether a node reads a variable.
pub(crate) fn head_reads(x: u32, head: Head) -> bool
    ensures { result ≡ scenes.head_reads x head }
{
    match head {
        Head::Leaf(y) => y == x,
        Head::Read(y) => y == x,
        _ => false,
    }
}

/// Whether a term reads a variable.
pub(crate) fn reads(pool: &Pool, x: u32, term: Option<NodeId>) -> bool
    requires { ChildBelow (length pool.now.trees) term }
    ensures { result ≡ guessing.reads x (tree_at pool.now.trees term) }
{
    let Some(node) = read_child(pool, term) else {
        return false;
    };
    head_reads(x, node.head)
}

/// Whether a term is an equality with a side that reads a variable.
fn compares(pool: &Pool, x: u32, term: Option<NodeId>) -> bool
    requires { ChildBelow (length pool.now.trees) term }
    ensures { result ≡ guessing.compares x (tree_at pool.now.trees term) }
{
    let Some(node) = read_child(pool, term) else {
        return false;
    };
    match node.head {
        Head::Eq => reads(pool, x, node.first) || reads(pool, x, node.second),
        _ => false,
    }
}

/// Whether a variable is compared at a place of a game.
fn compares_at(pool: &Pool, game: NodeId, x: u32, place: u32) -> bool
    requires live { game.0 < length pool.now.trees }
    requires fits { size (tree_at pool.now.trees (Some game)) < 2 ^ 32 }
    ensures { result ≡ guessing.compares_at (tree_at pool.now.trees (Some game)) x place }
{
    has_term_at(pool, game, place) && compares(pool, x, part_at(pool, game, place))
}

/// The first of some places where a variable isn't compared.
pub(crate) fn first_outside(pool: &Pool, game: NodeId, x: u32, places: &[u32]) -> Option<u32>
    requires live { game.0 < length pool.now.trees }
    requires fits { size (tree_at pool.now.trees (Some game)) < 2 ^ 32 }
    ensures { result ≡ guessing.first_outside
        (guessing.compares_at (tree_at pool.now.trees (Some game)) x) places.now }
{
    'places: for k in 0..places.len() {
        if !compares_at(pool, game, x, places[k]) {
            return Some(places[k]);
        }
    }
    None
}
