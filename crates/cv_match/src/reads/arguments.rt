ghost use Rattle.std.specs.Prelude.{◌≡◌, ◌+◌, ◌<◌, ◌^◌, length};
ghost use Rattle.cv_pool.specs.Nodes.{ChildBelow};
ghost use Rattle.cv_syntax_trees.specs.Tree.{size};
ghost use Rattle.cv_syntax.specs.PoolTrees.{tree_at};
ghost use Rattle.cv_meaning.specs.contexts.Groups.{function_of};
ghost use Rattle.cv_scene.specs.Refusals as refusals;

use crate::reads::conditions::reading_at;
use cv_match_terms::patterns::is_argument_name;
use cv_path::size_below;
use cv_syntax::{Head, NodeId, Pool, read_node};

/// Whether a node of a body is the name of an argument.
fn is_argument(pool: &Pool, f: Option<NodeId>, head: Head) -> bool
    requires { ChildBelow (length pool.now.trees) f }
    ensures { result ≡ refusals.is_name_of
        (function_of (tree_at pool.now.trees f)).arguments head }
{
    match head {
        Head::Leaf(y) => is_argument_name(pool, f, y),
        _ => false,
    }
}

/// The first place of a term where it reads a variable in what stands for an argument.
pub fn argument_use(
    pool: &Pool,
    x: u32,
    f: Option<NodeId>,
    body: Option<NodeId>,
    from: u32,
    term: Option<NodeId>,
) -> Option<u32>
    requires function { ChildBelow (length pool.now.trees) f }
    requires body { ChildBelow (length pool.now.trees) body }
    requires live { ChildBelow (length pool.now.trees) term }
    requires fits { from + size (tree_at pool.now.trees term) < 2 ^ 32 }
    ensures { result ≡ refusals.first_in_arguments x
        (function_of (tree_at pool.now.trees f)).arguments (tree_at pool.now.trees body) from
        (tree_at pool.now.trees term) }
{
    let mut place = from;
    let mut at = body;
    let mut there = term;
    'body: while let Some(n) = at {
        let Some(k) = there else {
            return None;
        };
        let node = read_node(pool, n);
        let other = read_node(pool, k);
        if is_argument(pool, f, node.head) {
            return reading_at(pool, x, place, there);
        }
        let first = place + other.head.weight();
        if let Some(found) = argument_use(pool, x, f, node.first, first, other.first) {
            return Some(found);
        }
        place = first + size_below(pool, other.first);
        at = node.second;
        there = other.second;
    }
    None
}
