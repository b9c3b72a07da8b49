ghost use Rattle.std.specs.Prelude.{◌≡◌, ◌+◌, ◌<◌, ◌^◌, Some, length};
ghost use Rattle.cv_pool.specs.Nodes.{ChildBelow};
ghost use Rattle.cv_syntax_trees.specs.Tree.{Node, second_place, size};
ghost use Rattle.cv_syntax.specs.PoolTrees.{tree_at};
ghost use Rattle.cv_derive_facts.specs.Definitions.{behind_at, body_place, can_define, process_place};

use cv_path::{at, size_below};
use cv_syntax::children::read_child;
use cv_syntax::{Game, Head, NodeId, Opened, Pool, Work, read_node};

/// Whether a construct can define variables for a process behind it.
fn can_define(head: Head) -> bool
    ensures { result ≡ can_define head }
{
    match head {
        Head::In(_)
        | Head::New(_, _)
        | Head::Let(_, _)
        | Head::Branch
        | Head::Key(_)
        | Head::Call(_, _) => true,
        _ => false,
    }
}

/// The place of a node's second child, where the node stands at a place.
fn second_place(pool: &Pool, place: u32, node: Opened) -> u32
    requires first { ChildBelow (length pool.now.trees) node.first }
    requires fits { second_place place node.head (tree_at pool.now.trees node.first) < 2 ^ 32 }
    ensures { result ≡ second_place place node.head (tree_at pool.now.trees node.first) }
{
    place + node.head.weight() + size_below(pool, node.first)
}

/// The place of a branch's body, where its list stands at a place.
fn body_place(pool: &Pool, place: u32, rest: Option<NodeId>) -> u32
    requires live { ChildBelow (length pool.now.trees) rest }
    requires fits { place + size (tree_at pool.now.trees rest) < 2 ^ 32 }
    ensures { result ≡ body_place place (tree_at pool.now.trees rest) }
{
    let Some(list) = read_child(pool, rest) else {
        return place;
    };
    let Some(condition) = read_child(pool, list.second) else {
        return place;
    };
    let behind = second_place(pool, place, list);
    second_place(pool, behind, condition)
}

/// The place of the process behind a definition that stands at a place.
fn process_place(pool: &Pool, place: u32, node: Opened) -> u32
    requires first { ChildBelow (length pool.now.trees) node.first }
    requires second { ChildBelow (length pool.now.trees) node.second }
    requires fits { place + size (Node node.head (tree_at pool.now.trees node.first)
        (tree_at pool.now.trees node.second)) < 2 ^ 32 }
    ensures { result ≡ process_place place node.head (tree_at pool.now.trees node.first)
        (tree_at pool.now.trees node.second) }
{
    let second = second_place(pool, place, node);
    match node.head {
        Head::Branch => body_place(pool, second, node.second),
        _ => second,
    }
}

/// The place of the process behind the definition at a place of a game: of a branch its body, of an input,
/// a `new`, a `let`, a key or a call what follows. There is none where none of these stands there.
pub fn behind(work: &Work, game: Game, place: u32) -> Option<u32>
    requires live { game.root.0 < length work.now.pool.trees }
    requires fits { size (tree_at work.now.pool.trees (Some game.root)) < 2 ^ 32 }
    ensures { result ≡ behind_at (tree_at work.now.pool.trees (Some game.root)) place }
{
    let n = at(&work.pool, game.root, place)?;
    let node = read_node(&work.pool, n);
    if !can_define(node.head) {
        return None;
    }
    Some(process_place(&work.pool, place, node))
}
