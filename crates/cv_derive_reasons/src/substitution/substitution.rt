ghost use Rattle.std.specs.Prelude.{◌≡◌, ◌<◌, IfSome, length, option_map};
ghost use Rattle.cv_pool.specs.Nodes.{ChildBelow};
ghost use Rattle.cv_syntax_trees.specs.declared.head.Head.TheVariants.{Leaf};
ghost use Rattle.cv_syntax_trees.specs.Tree.{lone, same_tree};
ghost use Rattle.cv_syntax.specs.PoolTrees.{tree_at};
ghost use Rattle.cv_scene.specs.lines.Given as given;
ghost use Rattle.cv_derive_reasons.specs.substitution.Under.{names_of, under};

use crate::inferences::is_alone;
use cv_syntax::{Head, NodeId, Pool, read_node, same};

/// A term that is given for a name.
#[derive(Clone, Copy)]
pub struct Put {
    pub term: Option<NodeId>,
}

/// The term that is given for a name, where the names and the terms stand in one order. With each name stands its parameter.
#[tactic(auto, using(crate::proofs::substitution::Unders::unders))]
fn term_for(pool: &Pool, names: &[(u32, u32)], terms: Option<NodeId>, x: u32) -> Option<Put>
    requires { ChildBelow (length pool.now.trees) terms }
    ensures tree { option_map (λ g. tree_at pool.now.trees g.term) result
        ≡ given.term_for (names_of names.now) (tree_at pool.now.trees terms) x }
    ensures live { IfSome result (λ g. ChildBelow (length pool.now.trees) g.term) }
{
    let mut at = terms;
    'names: for k in 0..names.len() {
        let Some(n) = at else {
            return None;
        };
        let node = read_node(pool, n);
        if names[k].0 == x {
            return Some(Put { term: node.first });
        }
        at = node.second;
    }
    None
}

/// The term that is given for a node, where it is one of the names.
fn given_for(pool: &Pool, names: &[(u32, u32)], terms: Option<NodeId>, head: Head) -> Option<Put>
    requires { ChildBelow (length pool.now.trees) terms }
    ensures tree { option_map (λ g. tree_at pool.now.trees g.term) result
        ≡ given.given_for (names_of names.now) (tree_at pool.now.trees terms) head }
    ensures live { IfSome result (λ g. ChildBelow (length pool.now.trees) g.term) }
{
    match head {
        Head::Leaf(x) => term_for(pool, names, terms, x),
        _ => None,
    }
}

/// Whether a tree is a name with terms for names.
#[tactic(auto, using(crate::proofs::substitution::Unders::unders))]
pub fn is_name_under(
    pool: &Pool,
    tree: Option<NodeId>,
    x: u32,
    names: &[(u32, u32)],
    terms: Option<NodeId>,
) -> bool
    requires tree { ChildBelow (length pool.now.trees) tree }
    requires terms { ChildBelow (length pool.now.trees) terms }
    ensures { result ≡ same_tree (tree_at pool.now.trees tree)
        (under names.now (tree_at pool.now.trees terms) (lone (Leaf x))) }
{
    if let Some(g) = term_for(pool, names, terms, x) {
        return same(pool, tree, g.term);
    }
    is_alone(pool, Head::Leaf(x), tree)
}

/// Whether a tree is another one with terms for names, all at once. Nothing is built.
#[tactic(auto, using(crate::proofs::substitution::Unders::unders))]
pub fn same_under(
    pool: &Pool,
    tree: Option<NodeId>,
    pattern: Option<NodeId>,
    names: &[(u32, u32)],
    terms: Option<NodeId>,
) -> bool
    requires tree { ChildBelow (length pool.now.trees) tree }
    requires pattern { ChildBelow (length pool.now.trees) pattern }
    requires terms { ChildBelow (length pool.now.trees) terms }
    ensures { result ≡ same_tree (tree_at pool.now.trees tree)
        (under names.now (tree_at pool.now.trees terms) (tree_at pool.now.trees pattern)) }
{
    let Some(m) = pattern else {
        return same(pool, tree, None);
    };
    let y = read_node(pool, m);
    if let Some(g) = given_for(pool, names, terms, y.head) {
        return same(pool, tree, g.term);
    }
    let Some(n) = tree else {
        return false;
    };
    let x = read_node(pool, n);
    x.head.code() == y.head.code()
        && same_under(pool, x.first, y.first, names, terms)
        && same_under(pool, x.second, y.second, names, terms)
}
