ghost use Rattle.std.specs.Prelude.{◌≡◌, ◌<◌, ◌&&◌, List, length};
ghost use Rattle.cv_pool.specs.KindTree.{KindTree};
ghost use Rattle.cv_pool.specs.Nodes.{ChildBelow};
ghost use Rattle.cv_syntax_trees.specs.Children as children;
ghost use Rattle.cv_syntax.specs.Declarations.{declarations};
ghost use Rattle.cv_syntax_trees.specs.Tree.{same_tree};
ghost use Rattle.cv_syntax.specs.PoolTrees.{tree_at};
ghost use Rattle.cv_scope_rules.specs.typing.Signature.{declaration_of};
ghost use Rattle.cv_scope_rules.specs.Context.{items};
ghost use Rattle.cv_scene.specs.lines.Inferences.{equations_of};
ghost use Rattle.cv_scene.specs.Reasons as reasons;
ghost use Rattle.cv_scene.specs.Sights.{Sight};
ghost use Rattle.cv_derive_reasons.specs.injectivity.Values.{are_values_by};

use crate::inferences::{is_over, sides};
use cv_syntax::children::{is_empty, read_child};
use cv_syntax::{Class, Decls, Head, NameId, NodeId, Opened, Pool, Work, read_node};

/// Whether a name is that of a function with `[data]`.
fn is_data(decls: &Decls, f: u32) -> bool
    ensures { (trees : List KindTree) → result
        ≡ reasons.is_data_by (declaration_of (declarations trees decls.now.list) f) }
{
    match decls.class(NameId(f)) {
        Class::Fun { data_like } => data_like,
        _ => false,
    }
}

/// Whether two items of lists are the last ones.
fn are_last(pool: &Pool, left: Opened, right: Opened) -> bool
    requires left { ChildBelow (length pool.now.trees) left.second }
    requires right { ChildBelow (length pool.now.trees) right.second }
    ensures { result ≡ (children.is_empty (tree_at pool.now.trees left.second)
        && children.is_empty (tree_at pool.now.trees right.second)) }
{
    is_empty(pool, left.second) && is_empty(pool, right.second)
}

/// Whether a term is the conjunction of the equations between the items of two lists.
fn are_equations(
    pool: &Pool,
    left: Option<NodeId>,
    right: Option<NodeId>,
    term: Option<NodeId>,
) -> bool
    requires left { ChildBelow (length pool.now.trees) left }
    requires right { ChildBelow (length pool.now.trees) right }
    requires term { ChildBelow (length pool.now.trees) term }
    ensures { result ≡ same_tree (tree_at pool.now.trees term)
        (equations_of (items (tree_at pool.now.trees left))
        (items (tree_at pool.now.trees right))) }
{
    let mut at = left;
    let mut behind = right;
    let mut rest = term;
    'items: while let Some(k) = at {
        let m = read_node(pool, k);
        let Some(j) = behind else {
            return is_empty(pool, rest);
        };
        let n = read_node(pool, j);
        if are_last(pool, m, n) {
            return is_over(pool, Head::Eq, m.first, n.first, rest);
        }
        let Some((equation, more)) = sides(pool, Head::And, rest) else {
            return false;
        };
        if !is_over(pool, Head::Eq, m.first, n.first, equation) {
            return false;
        }
        at = m.second;
        behind = n.second;
        rest = more;
    }
    is_empty(pool, rest)
}

/// Whether two terms are values of one function with `[data]`, and a third one says that its arguments are equal.
fn are_equal_exactly_by(
    work: &Work,
    left: Option<NodeId>,
    right: Option<NodeId>,
    term: Option<NodeId>,
) -> bool
    requires left { ChildBelow (length work.now.pool.trees) left }
    requires right { ChildBelow (length work.now.pool.trees) right }
    requires term { ChildBelow (length work.now.pool.trees) term }
    ensures { result ≡ are_values_by (declarations work.now.pool.trees work.now.decls.list)
        (tree_at work.now.pool.trees left) (tree_at work.now.pool.trees right)
        (tree_at work.now.pool.trees term) }
{
    let Some(m) = read_child(&work.pool, left) else {
        return false;
    };
    let Some(n) = read_child(&work.pool, right) else {
        return false;
    };
    let Head::Apply(f) = m.head else {
        return false;
    };
    let Head::Apply(g) = n.head else {
        return false;
    };
    if f != g {
        return false;
    }
    if !is_data(&work.decls, f) {
        return false;
    }
    are_equations(&work.pool, m.first, n.first, term)
}

/// Whether a term says that a function with `[data]` has one value at two lists of arguments exactly where these are equal.
pub fn is_injective(work: &Work, term: Option<NodeId>) -> bool
    requires { ChildBelow (length work.now.pool.trees) term }
    ensures { (s : Sight)
        → s.scene.declarations ≡ declarations work.now.pool.trees work.now.decls.list
        → result ≡ reasons.is_injective s (tree_at work.now.pool.trees term) }
{
    let Some((equation, right)) = sides(&work.pool, Head::Eq, term) else {
        return false;
    };
    let Some((left, other)) = sides(&work.pool, Head::Eq, equation) else {
        return false;
    };
    are_equal_exactly_by(work, left, other, right)
}
