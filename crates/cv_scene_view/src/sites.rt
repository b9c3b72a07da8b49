ghost use Rattle.std.specs.Prelude.{◌≡◌, ◌+◌, ◌<◌, ◌^◌, ◌&&◌, ◌||◌, IfErr, IfOk, None, OnOk, Some, length, not};
ghost use Rattle.cv_pool.specs.Nodes.{ChildBelow};
ghost use Rattle.cv_syntax_trees.specs.Tree.{size};
ghost use Rattle.cv_syntax.specs.PoolTrees.{tree_at};
ghost use Rattle.cv_scope_rules.specs.Sites.{Variable};
ghost use Rattle.cv_scope_rules.specs.Made.{made_by};
ghost use Rattle.cv_scene.specs.Scenes as scenes;
ghost use Rattle.cv_scene_view.specs.Kept.{scene_of};

use cv_path::is_definition;
use cv_syntax::{Head, NodeId, Opened, Pool, Work, read_node};

/// Whether a node is a `new`.
fn is_draw(head: Head) -> bool
    ensures { result ≡ scenes.is_new_head head }
{
    match head {
        Head::New(_, _) => true,
        _ => false,
    }
}

/// Whether a node defines a variable by `new`.
fn is_draw_of(pool: &Pool, node: Opened, x: u32) -> bool
    requires { ChildBelow (length pool.now.trees) node.first }
    ensures { result ≡ (scenes.is_new_head node.head
        && made_by node.head (tree_at pool.now.trees node.first) (Variable x)) }
{
    is_draw(node.head) && is_definition(pool, node, x)
}

/// Whether a node doesn't define a variable but by `new`.
fn may_define(pool: &Pool, node: Opened, x: u32) -> bool
    requires { ChildBelow (length pool.now.trees) node.first }
    ensures { result ≡ (scenes.is_new_head node.head
        || not (made_by node.head (tree_at pool.now.trees node.first) (Variable x))) }
{
    is_draw(node.head) || !is_definition(pool, node, x)
}

/// Whether some node of a tree defines a variable by `new`.
fn is_drawn(pool: &Pool, x: u32, tree: Option<NodeId>) -> bool
    requires { ChildBelow (length pool.now.trees) tree }
    ensures { result ≡ scenes.has_some_new x (tree_at pool.now.trees tree) }
{
    let mut at = tree;
    'tree: while let Some(k) = at {
        let node = read_node(pool, k);
        if is_draw_of(pool, node, x) {
            return true;
        }
        if is_drawn(pool, x, node.first) {
            return true;
        }
        at = node.second;
    }
    false
}

/// Whether no node of a tree defines a variable but by `new`.
fn is_only_drawn(pool: &Pool, x: u32, tree: Option<NodeId>) -> bool
    requires { ChildBelow (length pool.now.trees) tree }
    ensures { result ≡ scenes.has_news_alone x (tree_at pool.now.trees tree) }
{
    let mut at = tree;
    'tree: while let Some(k) = at {
        let node = read_node(pool, k);
        if !may_define(pool, node, x) {
            return false;
        }
        if !is_only_drawn(pool, x, node.first) {
            return false;
        }
        at = node.second;
    }
    true
}

/// Whether all sites of a variable are `new`.
pub fn is_chosen(work: &Work, game: NodeId, x: u32) -> bool
    requires { game.0 < length work.now.pool.trees }
    ensures { result ≡ scenes.is_chosen (scene_of work.now.pool work.now.decls game) x }
{
    is_drawn(&work.pool, x, Some(game)) && is_only_drawn(&work.pool, x, Some(game))
}

/// Whether a node names a variable in a term or a `defined` list.
fn is_reading(x: u32, head: Head) -> bool
    ensures { result ≡ scenes.head_reads x head }
{
    match head {
        Head::Leaf(y) => y == x,
        Head::Read(y) => y == x,
        _ => false,
    }
}

/// The place behind a tree that stands at a place, where it doesn't read a variable; or the first place that does.
fn reading(pool: &Pool, x: u32, from: u32, tree: Option<NodeId>) -> Result<u32, u32>
    requires live { ChildBelow (length pool.now.trees) tree }
    requires fits { from + size (tree_at pool.now.trees tree) < 2 ^ 32 }
    ensures none { OnOk result (scenes.first_reading x from (tree_at pool.now.trees tree) ≡ None) }
    ensures next { IfOk result (λ next. next ≡ from + size (tree_at pool.now.trees tree)) }
    ensures found { IfErr result (λ p.
        scenes.first_reading x from (tree_at pool.now.trees tree) ≡ Some p) }
{
    let mut place = from;
    let mut at = tree;
    'tree: while let Some(k) = at {
        let node = read_node(pool, k);
        if is_reading(x, node.head) {
            return Err(place);
        }
        match reading(pool, x, place + node.head.weight(), node.first) {
            Ok(next) => place = next,
            Err(found) => return Err(found),
        }
        at = node.second;
    }
    Ok(place)
}

/// The first place of a game where a term or a `defined` list names a variable.
pub fn first_reading(pool: &Pool, game: NodeId, x: u32) -> Option<u32>
    requires live { game.0 < length pool.now.trees }
    requires fits { size (tree_at pool.now.trees (Some game)) < 2 ^ 32 }
    ensures { result ≡ scenes.first_reading x 0 (tree_at pool.now.trees (Some game)) }
{
    match reading(pool, x, 0, Some(game)) {
        Ok(_) => None,
        Err(found) => Some(found),
    }
}
