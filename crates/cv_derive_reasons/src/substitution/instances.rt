ghost use Rattle.std.specs.Prelude.{◌≡◌, ◌<◌, IfSome, length, option_map};
ghost use Rattle.cv_pool.specs.Nodes.{ChildBelow};
ghost use Rattle.cv_syntax_trees.specs.Tree.{bound_names, same_tree};
ghost use Rattle.cv_syntax.specs.PoolTrees.{tree_at};
ghost use Rattle.cv_scene.specs.lines.Given as given;

use crate::substitution::substitution::Put;
use cv_syntax::{Head, NodeId, Pool, read_node, same};

/// The term that is given for a variable, where the binders and the terms stand in one order.
#[tactic(auto, using(crate::proofs::substitution::Unders::instances))]
fn term_for(pool: &Pool, binders: Option<NodeId>, terms: Option<NodeId>, x: u32) -> Option<Put>
    requires binders { ChildBelow (length pool.now.trees) binders }
    requires terms { ChildBelow (length pool.now.trees) terms }
    ensures tree { option_map (λ g. tree_at pool.now.trees g.term) result
        ≡ given.term_for (bound_names (tree_at pool.now.trees binders))
        (tree_at pool.now.trees terms) x }
    ensures live { IfSome result (λ g. ChildBelow (length pool.now.trees) g.term) }
{
    let mut at = binders;
    let mut behind = terms;
    'binders: while let Some(k) = at {
        let cell = read_node(pool, k);
        let Head::Binder(y, _) = cell.head else {
            return None;
        };
        let Some(n) = behind else {
            return None;
        };
        let node = read_node(pool, n);
        if y == x {
            return Some(Put { term: node.first });
        }
        at = cell.second;
        behind = node.second;
    }
    None
}

/// The term that is given for a node, where it is one of the variables.
fn given_for(pool: &Pool, binders: Option<NodeId>, terms: Option<NodeId>, head: Head) -> Option<Put>
    requires binders { ChildBelow (length pool.now.trees) binders }
    requires terms { ChildBelow (length pool.now.trees) terms }
    ensures tree { option_map (λ g. tree_at pool.now.trees g.term) result
        ≡ given.given_for (bound_names (tree_at pool.now.trees binders))
        (tree_at pool.now.trees terms) head }
    ensures live { IfSome result (λ g. ChildBelow (length pool.now.trees) g.term) }
{
    match head {
        Head::Leaf(x) => term_for(pool, binders, terms, x),
        _ => None,
    }
}

/// Whether a tree is another one with terms for the variables of binders, all at once. Nothing is built.
#[tactic(auto, using(crate::proofs::substitution::Unders::unders))]
pub fn same_instance(
    pool: &Pool,
    tree: Option<NodeId>,
    pattern: Option<NodeId>,
    binders: Option<NodeId>,
    terms: Option<NodeId>,
) -> bool
    requires tree { ChildBelow (length pool.now.trees) tree }
    requires pattern { ChildBelow (length pool.now.trees) pattern }
    requires binders { ChildBelow (length pool.now.trees) binders }
    requires terms { ChildBelow (length pool.now.trees) terms }
    ensures { result ≡ same_tree (tree_at pool.now.trees tree)
        (given.with_given (bound_names (tree_at pool.now.trees binders))
        (tree_at pool.now.trees terms) (tree_at pool.now.trees pattern)) }
{
    let Some(m) = pattern else {
        return same(pool, tree, None);
    };
    let y = read_node(pool, m);
    if let Some(g) = given_for(pool, binders, terms, y.head) {
        return same(pool, tree, g.term);
    }
    let Some(n) = tree else {
        return false;
    };
    let x = read_node(pool, n);
    x.head.code() == y.head.code()
        && same_instance(pool, x.first, y.first, binders, terms)
        && same_instance(pool, x.second, y.second, binders, terms)
}
