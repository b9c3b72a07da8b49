ghost use Rattle.std.specs.Prelude.{◌≡◌, length};
ghost use Rattle.cv_pool.specs.Nodes.{ChildBelow};
ghost use Rattle.cv_syntax_trees.specs.Tree.{same_tree};
ghost use Rattle.cv_syntax.specs.PoolTrees.{tree_at};
ghost use Rattle.cv_meaning.specs.contexts.Groups.{function_of, group_of};
ghost use Rattle.cv_match_terms.specs.patterns.Searches.{filled_part, is_whole};

use crate::heads::is_head;
use crate::patterns::filling::put;
use crate::patterns::names::body_of;
use cv_syntax::{NodeId, Pool, read_node, same};

/// Whether a part of a term is that part of a function's body, with what stands for names. Nothing is built.
fn is_filled(
    pool: &Pool,
    side: Option<NodeId>,
    f: Option<NodeId>,
    whole: Option<NodeId>,
    body: Option<NodeId>,
    term: Option<NodeId>,
) -> bool
    requires side { ChildBelow (length pool.now.trees) side }
    requires function { ChildBelow (length pool.now.trees) f }
    requires whole { ChildBelow (length pool.now.trees) whole }
    requires body { ChildBelow (length pool.now.trees) body }
    requires term { ChildBelow (length pool.now.trees) term }
    ensures { result ≡ same_tree (filled_part (group_of (tree_at pool.now.trees side))
        (function_of (tree_at pool.now.trees f)) (tree_at pool.now.trees whole)
        (tree_at pool.now.trees body)) (tree_at pool.now.trees term) }
{
    let mut at = body;
    let mut there = term;
    'body: while let Some(n) = at {
        let node = read_node(pool, n);
        if let Some(part) = put(pool, side, f, whole, node.head) {
            return same(pool, part.tree, there);
        }
        let Some(m) = there else {
            return false;
        };
        let other = read_node(pool, m);
        if !is_head(node.head, other.head) {
            return false;
        }
        if !is_filled(pool, side, f, whole, node.first, other.first) {
            return false;
        }
        at = node.second;
        there = other.second;
    }
    same(pool, None, there)
}

/// Whether a term is a function's body, with what stands for its names.
pub fn is_whole(pool: &Pool, side: Option<NodeId>, f: Option<NodeId>, term: Option<NodeId>) -> bool
    requires side { ChildBelow (length pool.now.trees) side }
    requires function { ChildBelow (length pool.now.trees) f }
    requires term { ChildBelow (length pool.now.trees) term }
    ensures { result ≡ is_whole (group_of (tree_at pool.now.trees side))
        (function_of (tree_at pool.now.trees f)) (tree_at pool.now.trees term) }
{
    is_filled(pool, side, f, term, body_of(pool, f), term)
}
