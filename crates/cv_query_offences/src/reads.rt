ghost use Rattle.std.specs.Prelude.{◌≡◌, ◌+◌, ◌<◌, ◌^◌, ◌&&◌, ◌==◌, IfErr, IfOk, None, OnOk, Some, false, length, not};
ghost use Rattle.std.specs.List.{list_any};
ghost use Rattle.cv_pool.specs.Nodes.{ChildBelow};
ghost use Rattle.cv_syntax_trees.specs.Tree.{size};
ghost use Rattle.cv_syntax.specs.PoolTrees.{tree_at};
ghost use Rattle.cv_scope_rules.specs.declared.position.Position.TheVariants.{Anywhere};
ghost use Rattle.cv_query_certificates.specs.Secrets as secrets;

use cv_scope_rules::Position;
use cv_syntax::{Head, NodeId, Pool, read_node};

/// Whether a name is one of these.
fn is_among(names: &[u32], y: u32) -> bool
    ensures { result ≡ list_any (λ x. y == x) names.now }
{
    names.iter().any(|x| y == *x)
}

/// Whether a tree is a cell of a `defined` list.
fn is_cell(position: Position) -> bool
    ensures { result ≡ secrets.is_cell position }
{
    match position {
        Position::OneCell => true,
        _ => false,
    }
}

/// Whether a node reads a value of one of the variables. A cell of a `defined` list isn't read.
fn reads_value(names: &[u32], position: Position, head: Head) -> bool
    ensures { result ≡ list_any (λ y. secrets.reads_value y position head) names.now }
{
    if is_cell(position) {
        return false;
    }
    match head {
        Head::Leaf(y) => is_among(names, y),
        Head::Read(y) => is_among(names, y),
        _ => false,
    }
}

/// Whether a node offends, where `free` says that it is the whole term of a copy.
fn offends(names: &[u32], free: bool, position: Position, head: Head) -> bool
    ensures { result ≡ (not free
        && list_any (λ y. secrets.reads_value y position head) names.now) }
{
    !free && reads_value(names, position, head)
}

/// Whether a node is a `let` of a variable.
fn is_let_of(x: u32, head: Head) -> bool
    ensures { result ≡ secrets.is_let_of x head }
{
    match head {
        Head::Let(y, _) => y == x,
        _ => false,
    }
}

/// The place behind a tree that stands at a place, where no value of these variables is read in it but as the whole term of a
/// `let` of another one; or the first place where one is. `free` says that the tree is such a term.
fn other_read(
    pool: &Pool,
    x: u32,
    names: &[u32],
    free: bool,
    position: Position,
    from: u32,
    tree: Option<NodeId>,
) -> Result<u32, u32>
    requires live { ChildBelow (length pool.now.trees) tree }
    requires fits { from + size (tree_at pool.now.trees tree) < 2 ^ 32 }
    ensures none { OnOk result (secrets.first_other_read x names.now free position from
        (tree_at pool.now.trees tree) ≡ None) }
    ensures next { IfOk result (λ next. next ≡ from + size (tree_at pool.now.trees tree)) }
    ensures found { IfErr result (λ p. secrets.first_other_read x names.now free position from
        (tree_at pool.now.trees tree) ≡ Some p) }
{
    let mut place = from;
    let mut here = position;
    let mut is_free = free;
    let mut at = tree;
    'tree: while let Some(k) = at {
        let node = read_node(pool, k);
        let head = node.head;
        if offends(names, is_free, here, head) {
            return Err(place);
        }
        let copied = is_let_of(x, head);
        let behind = place + head.weight();
        match other_read(pool, x, names, copied, here.first(head), behind, node.first) {
            Ok(next) => place = next,
            Err(found) => return Err(found),
        }
        here = here.second(head);
        is_free = false;
        at = node.second;
    }
    Ok(place)
}

/// The first place of a game where a value of these variables is read, but as the whole term of a `let` of another one.
pub(crate) fn first_other_read(pool: &Pool, game: NodeId, x: u32, names: &[u32]) -> Option<u32>
    requires live { game.0 < length pool.now.trees }
    requires fits { size (tree_at pool.now.trees (Some game)) < 2 ^ 32 }
    ensures { result ≡ secrets.first_other_read x names.now false Anywhere 0
        (tree_at pool.now.trees (Some game)) }
{
    match other_read(pool, x, names, false, Position::Anywhere, 0, Some(game)) {
        Ok(_) => None,
        Err(found) => Some(found),
    }
}
