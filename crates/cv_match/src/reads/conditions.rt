ghost use Rattle.std.specs.Prelude.{◌≡◌, ◌&&◌, ◌||◌, ◌+◌, ◌<◌, ◌^◌, IfErr, IfOk, None, OnOk, Some, length, true};
ghost use Rattle.cv_pool.specs.Nodes.{ChildBelow};
ghost use Rattle.cv_syntax_trees.specs.Tree.{size};
ghost use Rattle.cv_syntax.specs.PoolTrees.{tree_at};
ghost use Rattle.cv_scene.specs.Scenes.{first_reading, head_reads};
ghost use Rattle.cv_scene.specs.Refusals as refusals;
ghost use Rattle.cv_match.specs.reads.Within.{use_within};

use cv_match_terms::uses::is_reading;
use cv_scope_rules::Position;
use cv_syntax::{Head, NodeId, Pool, read_node};

/// Whether the first child there is a condition.
fn is_condition(position: Position) -> bool
    ensures { result ≡ refusals.is_condition position }
{
    match position {
        Position::Guarded => true,
        _ => false,
    }
}

/// Whether a node within a condition reads a variable.
fn is_use(within: bool, x: u32, head: Head) -> bool
    ensures { result ≡ (within && head_reads x head) }
{
    within && is_reading(x, head)
}

/// Whether the first child of a node is a condition or a part of one.
fn is_inside(within: bool, position: Position) -> bool
    ensures { result ≡ (within || refusals.is_condition position) }
{
    within || is_condition(position)
}

/// The place behind a part of a game that doesn't read a variable in a condition of a `find`; or the first place that does.
/// Within a condition each place counts.
pub fn condition_use(
    pool: &Pool,
    x: u32,
    within: bool,
    position: Position,
    from: u32,
    tree: Option<NodeId>,
) -> Result<u32, u32>
    requires live { ChildBelow (length pool.now.trees) tree }
    requires fits { from + size (tree_at pool.now.trees tree) < 2 ^ 32 }
    ensures none { OnOk result (use_within within x position from
        (tree_at pool.now.trees tree) ≡ None) }
    ensures next { IfOk result (λ next. next ≡ from + size (tree_at pool.now.trees tree)) }
    ensures found { IfErr result (λ p. use_within within x position from
        (tree_at pool.now.trees tree) ≡ Some p) }
{
    let mut place = from;
    let mut here = position;
    let mut at = tree;
    'tree: while let Some(k) = at {
        let node = read_node(pool, k);
        if is_use(within, x, node.head) {
            return Err(place);
        }
        let first = place + node.head.weight();
        match condition_use(
            pool,
            x,
            is_inside(within, here),
            here.first(node.head),
            first,
            node.first,
        ) {
            Ok(next) => place = next,
            Err(found) => return Err(found),
        }
        here = here.second(node.head);
        at = node.second;
    }
    Ok(place)
}

/// The first place of a term where it reads a variable.
pub fn reading_at(pool: &Pool, x: u32, from: u32, term: Option<NodeId>) -> Option<u32>
    requires live { ChildBelow (length pool.now.trees) term }
    requires fits { from + size (tree_at pool.now.trees term) < 2 ^ 32 }
    ensures { result ≡ first_reading x from (tree_at pool.now.trees term) }
{
    match condition_use(pool, x, true, Position::Anywhere, from, term) {
        Ok(_) => None,
        Err(found) => Some(found),
    }
}
