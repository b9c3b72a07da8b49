ghost use Rattle.std.specs.Prelude.{◌≡◌, ◌<◌, ◌^◌, ◌&&◌, Some, if◌then◌else◌, length};
ghost use Rattle.cv_pool.specs.Nodes.{ChildBelow};
ghost use Rattle.cv_syntax_trees.specs.Tree.{size};
ghost use Rattle.cv_syntax.specs.PoolTrees.{tree_at};
ghost use Rattle.cv_scope_rules.specs.Made.{made_by};
ghost use Rattle.cv_scope_rules.specs.Sites.{Variable};
ghost use Rattle.cv_scene.specs.Sights as sights;
ghost use Rattle.cv_rule_codef.specs.Adjacent as adjacent;
ghost use Rattle.cv_rule_codef.specs.Row as row;

use cv_path::is_definition;
use cv_syntax::children::read_child;
use cv_syntax::{Head, NodeId, Opened, Pool, read_node};

/// 1 for a construct that defines a variable, and else 0.
fn site_here(pool: &Pool, x: u32, node: Opened) -> u32
    requires { ChildBelow (length pool.now.trees) node.first }
    ensures { result ≡ (if made_by node.head (tree_at pool.now.trees node.first) (Variable x)
        then 1 else 0) }
{
    if is_definition(pool, node, x) {
        return 1;
    }
    0
}

/// How many constructs of a tree define a variable.
fn sites(pool: &Pool, x: u32, tree: Option<NodeId>) -> u32
    requires live { ChildBelow (length pool.now.trees) tree }
    requires fits { size (tree_at pool.now.trees tree) < 2 ^ 32 }
    ensures { result ≡ adjacent.sites x (tree_at pool.now.trees tree) }
{
    let mut count: u32 = 0;
    let mut at = tree;
    'tree: while let Some(k) = at {
        let node = read_node(pool, k);
        count += site_here(pool, x, node);
        count += sites(pool, x, node.first);
        at = node.second;
    }
    count
}

/// Whether a process begins with a `new` or a `let` of a variable.
fn begins_with(pool: &Pool, x: u32, process: Option<NodeId>) -> bool
    requires { ChildBelow (length pool.now.trees) process }
    ensures { result ≡ adjacent.begins_with x (tree_at pool.now.trees process) }
{
    let Some(node) = read_child(pool, process) else {
        return false;
    };
    match node.head {
        Head::New(y, _) => y == x,
        Head::Let(y, _) => y == x,
        _ => false,
    }
}

/// What stands behind the first item of a list.
fn behind_item(pool: &Pool, list: Option<NodeId>) -> Option<NodeId>
    requires { ChildBelow (length pool.now.trees) list }
    ensures tree { tree_at pool.now.trees result
        ≡ adjacent.behind_item (tree_at pool.now.trees list) }
    ensures live { ChildBelow (length pool.now.trees) result }
{
    let Some(link) = read_child(pool, list) else {
        return None;
    };
    match link.head {
        Head::Cons => link.second,
        _ => None,
    }
}

/// The process that follows a construct.
fn following(pool: &Pool, node: Opened) -> Option<NodeId>
    requires { ChildBelow (length pool.now.trees) node.second }
    ensures tree { tree_at pool.now.trees result
        ≡ adjacent.following node.head (tree_at pool.now.trees node.second) }
    ensures live { ChildBelow (length pool.now.trees) result }
{
    match node.head {
        Head::Branch => behind_item(pool, behind_item(pool, node.second)),
        _ => node.second,
    }
}

/// Whether a construct defines a variable, and another one too or directly behind it.
fn defines_both(pool: &Pool, x: u32, y: u32, node: Opened) -> bool
    requires first { ChildBelow (length pool.now.trees) node.first }
    requires second { ChildBelow (length pool.now.trees) node.second }
    ensures { result ≡ adjacent.defines_both x y node.head (tree_at pool.now.trees node.first)
        (tree_at pool.now.trees node.second) }
{
    if !is_definition(pool, node, x) {
        return false;
    }
    if is_definition(pool, node, y) {
        return true;
    }
    begins_with(pool, y, following(pool, node))
}

/// Whether a construct of a tree does.
fn are_joined(pool: &Pool, x: u32, y: u32, tree: Option<NodeId>) -> bool
    requires { ChildBelow (length pool.now.trees) tree }
    ensures { result ≡ adjacent.are_joined x y (tree_at pool.now.trees tree) }
{
    let mut at = tree;
    'tree: while let Some(k) = at {
        let node = read_node(pool, k);
        if defines_both(pool, x, y, node) {
            return true;
        }
        if are_joined(pool, x, y, node.first) {
            return true;
        }
        at = node.second;
    }
    false
}

/// Whether two variables of a game are adjacent.
fn are_adjacent(pool: &Pool, game: NodeId, x: u32, y: u32) -> bool
    requires live { game.0 < length pool.now.trees }
    requires fits { size (tree_at pool.now.trees (Some game)) < 2 ^ 32 }
    ensures { result ≡ adjacent.are_adjacent x y (tree_at pool.now.trees (Some game)) }
{
    if x == y {
        return false;
    }
    if sites(pool, x, Some(game)) != 1 {
        return false;
    }
    if sites(pool, y, Some(game)) != 1 {
        return false;
    }
    if are_joined(pool, x, y, Some(game)) {
        return true;
    }
    are_joined(pool, y, x, Some(game))
}

/// Whether a construct is a replication.
fn is_replication(head: Head) -> bool
    ensures { result ≡ adjacent.is_replication head }
{
    match head {
        Head::Repl(_, _) => true,
        _ => false,
    }
}

/// Whether a construct of a tree defines a variable, below no replication of the tree.
fn is_defined_below(pool: &Pool, x: u32, tree: Option<NodeId>) -> bool
    requires { ChildBelow (length pool.now.trees) tree }
    ensures { result ≡ adjacent.is_defined_below x (tree_at pool.now.trees tree) }
{
    let mut at = tree;
    'tree: while let Some(k) = at {
        let node = read_node(pool, k);
        if is_replication(node.head) {
            return false;
        }
        if is_definition(pool, node, x) {
            return true;
        }
        if is_defined_below(pool, x, node.first) {
            return true;
        }
        at = node.second;
    }
    false
}

/// Whether a construct defines the second variable, and the first one is defined behind it.
fn is_defined_behind(pool: &Pool, x: u32, y: u32, node: Opened) -> bool
    requires first { ChildBelow (length pool.now.trees) node.first }
    requires second { ChildBelow (length pool.now.trees) node.second }
    ensures { result ≡ (made_by node.head (tree_at pool.now.trees node.first) (Variable y)
        && adjacent.is_defined_below x (adjacent.following node.head
        (tree_at pool.now.trees node.second))) }
{
    if !is_definition(pool, node, y) {
        return false;
    }
    is_defined_below(pool, x, following(pool, node))
}

/// Whether the second variable's definition stands above one of the first.
fn stands_above(pool: &Pool, x: u32, y: u32, tree: Option<NodeId>) -> bool
    requires { ChildBelow (length pool.now.trees) tree }
    ensures { result ≡ adjacent.stands_above x y (tree_at pool.now.trees tree) }
{
    let mut at = tree;
    'tree: while let Some(k) = at {
        let node = read_node(pool, k);
        if is_defined_behind(pool, x, y, node) {
            return true;
        }
        if stands_above(pool, x, y, node.first) {
            return true;
        }
        at = node.second;
    }
    false
}

/// Whether the second of two variables of a game is defined above the first.
fn is_above(pool: &Pool, game: NodeId, x: u32, y: u32) -> bool
    requires live { game.0 < length pool.now.trees }
    requires fits { size (tree_at pool.now.trees (Some game)) < 2 ^ 32 }
    ensures { result ≡ adjacent.is_above x y (tree_at pool.now.trees (Some game)) }
{
    if x == y {
        return false;
    }
    if sites(pool, x, Some(game)) != 1 {
        return false;
    }
    if sites(pool, y, Some(game)) != 1 {
        return false;
    }
    stands_above(pool, x, y, Some(game))
}

/// Whether two variables of a game are adjacent, or the second one is defined above the first.
fn are_related(pool: &Pool, game: NodeId, above: bool, x: u32, y: u32) -> bool
    requires live { game.0 < length pool.now.trees }
    requires fits { size (tree_at pool.now.trees (Some game)) < 2 ^ 32 }
    ensures { result ≡ row.are_related above x y (tree_at pool.now.trees (Some game)) }
{
    if above {
        return is_above(pool, game, x, y);
    }
    are_adjacent(pool, game, x, y)
}

/// The variable of a cell.
fn variable_of(pool: &Pool, cell: NodeId) -> Option<u32>
    requires { cell.0 < length pool.now.trees }
    ensures { result ≡ sights.variable_of (tree_at pool.now.trees (Some cell)) }
{
    match read_node(pool, cell).head {
        Head::Leaf(x) => Some(x),
        Head::Read(x) => Some(x),
        _ => None,
    }
}

/// Whether the variables of two cells are adjacent in a game, or the second one is defined above the first.
pub(crate) fn are_codefined(
    pool: &Pool,
    game: NodeId,
    above: bool,
    from: NodeId,
    to: NodeId,
) -> bool
    requires live { game.0 < length pool.now.trees }
    requires fits { size (tree_at pool.now.trees (Some game)) < 2 ^ 32 }
    requires from { from.0 < length pool.now.trees }
    requires to { to.0 < length pool.now.trees }
    ensures { result ≡ row.are_codefined above (tree_at pool.now.trees (Some game))
        (tree_at pool.now.trees (Some from)) (tree_at pool.now.trees (Some to)) }
{
    let Some(x) = variable_of(pool, from) else {
        return false;
    };
    let Some(y) = variable_of(pool, to) else {
        return false;
    };
    are_related(pool, game, above, x, y)
}
