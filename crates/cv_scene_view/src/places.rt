ghost use Rattle.std.specs.Prelude.{◌≡◌, ◌+◌, ◌<◌, ◌^◌, Some, length};
ghost use Rattle.cv_pool.specs.Nodes.{ChildBelow};
ghost use Rattle.cv_syntax_trees.specs.Tree as tree;
ghost use Rattle.cv_syntax.specs.PoolTrees.{tree_at};
ghost use Rattle.cv_scene.specs.Scenes as scenes;
ghost use Rattle.cv_meaning.specs.Replaced.{is_output as is_output_tree};
ghost use Rattle.cv_scene_view.specs.Kept.{scene_of};

use cv_path::at;
use cv_syntax::{Head, NodeId, Pool, Work, read_node, size};

/// Whether a game has a place.
pub fn has_place(work: &Work, game: NodeId, place: u32) -> bool
    requires live { game.0 < length work.now.pool.trees }
    requires fits { tree.size (tree_at work.now.pool.trees (Some game)) < 2 ^ 32 }
    ensures { result ≡ scenes.has_place (scene_of work.now.pool work.now.decls game) place }
{
    place < size(&work.pool, game)
}

/// What stands at a place of a game.
pub fn part_at(pool: &Pool, game: NodeId, place: u32) -> Option<NodeId>
    requires live { game.0 < length pool.now.trees }
    requires fits { tree.size (tree_at pool.now.trees (Some game)) < 2 ^ 32 }
    ensures part { tree_at pool.now.trees result
        ≡ scenes.part_at (tree_at pool.now.trees (Some game)) place }
    ensures live { ChildBelow (game.0 + 1) result }
{
    at(pool, game, place)
}

/// Whether a node is of an output process.
fn is_output(pool: &Pool, node: NodeId) -> bool
    requires { node.0 < length pool.now.trees }
    ensures { result ≡ is_output_tree (tree_at pool.now.trees (Some node)) }
{
    match read_node(pool, node).head {
        Head::Yield => true,
        Head::Out(_) => true,
        Head::Event(_) => true,
        Head::New(_, _) => true,
        Head::Let(_, _) => true,
        Head::If => true,
        Head::Find(_) => true,
        Head::Key(_) => true,
        Head::Call(_, _) => true,
        _ => false,
    }
}

/// Whether an output process stands at a place of a game.
pub fn is_output_at(work: &Work, game: NodeId, place: u32) -> bool
    requires live { game.0 < length work.now.pool.trees }
    requires fits { tree.size (tree_at work.now.pool.trees (Some game)) < 2 ^ 32 }
    ensures { result ≡ scenes.is_output_at (scene_of work.now.pool work.now.decls game) place }
{
    match at(&work.pool, game, place) {
        Some(node) => is_output(&work.pool, node),
        None => false,
    }
}
