ghost use Rattle.std.specs.Prelude.{◌≡◌, IfSome, length, option_map};
ghost use Rattle.cv_pool.specs.Nodes.{ChildBelow};
ghost use Rattle.cv_syntax_trees.specs.Tree.{same_tree};
ghost use Rattle.cv_syntax.specs.PoolTrees.{tree_at};
ghost use Rattle.cv_meaning.specs.contexts.Groups.{function_of, group_of};
ghost use Rattle.cv_scene.specs.Instances.{standing_for, standing_here};
ghost use Rattle.cv_match_terms.specs.patterns.Searches.{filled_by, given_by, stands_in};

use crate::patterns::names::{body_of, is_name};
use cv_syntax::children::{first_of, second_of};
use cv_syntax::{Head, NodeId, Pool, read_node, same};

/// A term that stands for a name.
#[derive(Clone, Copy)]
pub(crate) struct Part {
    pub(crate) tree: Option<NodeId>,
}

/// Whether a node of a body is a name.
fn is_leaf_of(head: Head, x: u32) -> bool
    ensures { result ≡ stands_in x head }
{
    match head {
        Head::Leaf(y) => y == x,
        _ => false,
    }
}

/// What stands in a term where a body first has a name.
#[tactic(auto, using(crate::proofs::patterns::Standing::standing))]
fn standing(pool: &Pool, x: u32, body: Option<NodeId>, term: Option<NodeId>) -> Option<Part>
    requires body { ChildBelow (length pool.now.trees) body }
    requires term { ChildBelow (length pool.now.trees) term }
    ensures tree { option_map (λ p. tree_at pool.now.trees p.tree) result
        ≡ standing_for x (tree_at pool.now.trees body) (tree_at pool.now.trees term) }
    ensures live { IfSome result (λ p. ChildBelow (length pool.now.trees) p.tree) }
{
    let mut at = body;
    let mut there = term;
    'body: while let Some(n) = at {
        let node = read_node(pool, n);
        if is_leaf_of(node.head, x) {
            return Some(Part { tree: there });
        }
        if let Some(part) = standing(pool, x, node.first, first_of(pool, there)) {
            return Some(part);
        }
        at = node.second;
        there = second_of(pool, there);
    }
    None
}

/// The term that stands for a name of a function, where a term is to be its instance.
#[tactic(auto, using(crate::proofs::patterns::Standing::standing))]
pub fn term_of(pool: &Pool, f: Option<NodeId>, term: Option<NodeId>, x: u32) -> Option<NodeId>
    requires function { ChildBelow (length pool.now.trees) f }
    requires term { ChildBelow (length pool.now.trees) term }
    ensures tree { tree_at pool.now.trees result
        ≡ given_by (function_of (tree_at pool.now.trees f)) (tree_at pool.now.trees term) x }
    ensures live { ChildBelow (length pool.now.trees) result }
{
    let part = standing(pool, x, body_of(pool, f), term)?;
    part.tree
}

/// The term that stands for a node of a body, where it is a name of the function.
pub(crate) fn put(
    pool: &Pool,
    side: Option<NodeId>,
    f: Option<NodeId>,
    term: Option<NodeId>,
    head: Head,
) -> Option<Part>
    requires side { ChildBelow (length pool.now.trees) side }
    requires function { ChildBelow (length pool.now.trees) f }
    requires term { ChildBelow (length pool.now.trees) term }
    ensures tree { option_map (λ p. tree_at pool.now.trees p.tree) result
        ≡ filled_by (group_of (tree_at pool.now.trees side))
        (function_of (tree_at pool.now.trees f)) (tree_at pool.now.trees term) head }
    ensures live { IfSome result (λ p. ChildBelow (length pool.now.trees) p.tree) }
{
    match head {
        Head::Leaf(x) => {
            if !is_name(pool, side, f, x) {
                return None;
            }
            Some(Part {
                tree: term_of(pool, f, term, x),
            })
        }
        _ => None,
    }
}
