ghost use Rattle.std.specs.Prelude.{◌≡◌, ◌<◌, IfSome, Some, length, option_map};
ghost use Rattle.cv_pool.specs.Nodes.{ChildBelow};
ghost use Rattle.cv_syntax_trees.specs.Tree.{first, second};
ghost use Rattle.cv_syntax.specs.PoolTrees.{tree_at};
ghost use Rattle.cv_scope_rules.specs.Context.{items};
ghost use Rattle.cv_scene.specs.Reasons as reasons;
ghost use Rattle.cv_scene.specs.Sights.{Pair, from_one};
ghost use Rattle.cv_scene.specs.lines.Inferences as inferences;
ghost use Rattle.cv_scene.specs.lines.Inferences.{number_of};
ghost use Rattle.cv_derive_lines.specs.citing.Bookmarks.{CanCite};
ghost use Rattle.cv_derive.specs.Seen.{Sees, sight_of, trees_of, visible_by};

use crate::defined::is_defined_under;
use crate::facts::is_fact_under;
use crate::sight::Sight;
use cv_derive_lines::citing::{Citing, cited_cell, cited_term, number};
use cv_derive_reasons::inferences::is_over;
use cv_syntax::children::{first_of, read_child, second_of};
use cv_syntax::{Head, NodeId, Pool, read_node, same};

/// Whether a term is the fact of a number at the second place, under the names of the second copy.
pub(crate) fn is_fact_of(s: &Sight, k: Option<NodeId>, term: Option<NodeId>) -> bool
    requires sees { Sees s.now }
    requires number { ChildBelow (length (trees_of s.now)) k }
    requires term { ChildBelow (length (trees_of s.now)) term }
    ensures { result ≡ reasons.is_fact_of (sight_of s.now).pair
        (number_of (tree_at (trees_of s.now) k)) (tree_at (trees_of s.now) term) }
{
    let Some(other) = s.second else {
        return false;
    };
    let k = number(&s.work.pool, k);
    is_fact_under(
        s.work,
        s.sizes,
        s.game,
        other.place,
        other.replications,
        other.replications,
        other.raised,
        k,
        term,
    )
}

/// Whether a cell is directly defined at the second place, under the names of the second copy.
pub(crate) fn is_cell_of(s: &Sight, cell: Option<NodeId>) -> bool
    requires sees { Sees s.now }
    requires cell { ChildBelow (length (trees_of s.now)) cell }
    ensures { result ≡ reasons.is_cell_of (sight_of s.now).pair (tree_at (trees_of s.now) cell) }
{
    let Some(other) = s.second else {
        return false;
    };
    is_defined_under(
        s.work,
        s.sizes,
        s.game,
        other.place,
        other.replications,
        other.replications,
        other.raised,
        cell,
    )
}

/// The item of a number of a list, from 1.
fn item_of(pool: &Pool, list: Option<NodeId>, k: u32) -> Option<Option<NodeId>>
    requires list { ChildBelow (length pool.now.trees) list }
    ensures item { option_map (tree_at pool.now.trees) result
        ≡ from_one (items (tree_at pool.now.trees list)) k }
    ensures live { IfSome result (λ item. ChildBelow (length pool.now.trees) item) }
{
    if k == 0 {
        return None;
    }
    let mut at = list;
    let mut left = k;
    'items: while let Some(n) = at {
        let node = read_node(pool, n);
        if left == 1 {
            return Some(node.first);
        }
        left -= 1;
        at = node.second;
    }
    None
}

/// Whether a term is the equation of a number that is given.
pub(crate) fn is_given_of(s: &Sight, k: Option<NodeId>, term: Option<NodeId>) -> bool
    requires sees { Sees s.now }
    requires number { ChildBelow (length (trees_of s.now)) k }
    requires term { ChildBelow (length (trees_of s.now)) term }
    ensures { result ≡ reasons.is_given_of (sight_of s.now).pair
        (number_of (tree_at (trees_of s.now) k)) (tree_at (trees_of s.now) term) }
{
    let Some(other) = s.second else {
        return false;
    };
    let pool = &s.work.pool;
    let k = number(pool, k);
    match item_of(pool, other.given, k) {
        Some(equation) => same(pool, term, equation),
        None => false,
    }
}

/// Whether two cells are of one array, whose values are taken to differ.
fn are_of_one(pool: &Pool, distinct: &[u32], cell: Option<NodeId>, other: Option<NodeId>) -> bool
    requires cell { ChildBelow (length pool.now.trees) cell }
    requires other { ChildBelow (length pool.now.trees) other }
    ensures { result ≡ reasons.are_of_one distinct.now (tree_at pool.now.trees cell)
        (tree_at pool.now.trees other) }
{
    let Some(node) = read_child(pool, cell) else {
        return false;
    };
    let Head::Read(x) = node.head else {
        return false;
    };
    let Some(there) = read_child(pool, other) else {
        return false;
    };
    let Head::Read(y) = there.head else {
        return false;
    };
    x == y && distinct.contains(&x)
}

/// Whether a term says that the index terms of a number of two cells are equal.
fn are_equal_in(
    pool: &Pool,
    cell: Option<NodeId>,
    other: Option<NodeId>,
    k: u32,
    term: Option<NodeId>,
) -> bool
    requires cell { ChildBelow (length pool.now.trees) cell }
    requires other { ChildBelow (length pool.now.trees) other }
    requires term { ChildBelow (length pool.now.trees) term }
    ensures { result ≡ reasons.are_equal_in
        (from_one (items (first (tree_at pool.now.trees cell))) k)
        (from_one (items (first (tree_at pool.now.trees other))) k)
        (tree_at pool.now.trees term) }
{
    let Some(left) = item_of(pool, first_of(pool, cell), k) else {
        return false;
    };
    let Some(right) = item_of(pool, first_of(pool, other), k) else {
        return false;
    };
    is_over(pool, Head::Eq, left, right, term)
}

/// Whether a term says that index terms of two cells are equal, where a line says that the cells are, and the values of their
/// array are taken to differ.
fn are_told_apart(
    pool: &Pool,
    distinct: &[u32],
    line: Option<NodeId>,
    cell: Option<NodeId>,
    other: Option<NodeId>,
    k: u32,
    term: Option<NodeId>,
) -> bool
    requires line { ChildBelow (length pool.now.trees) line }
    requires cell { ChildBelow (length pool.now.trees) cell }
    requires other { ChildBelow (length pool.now.trees) other }
    requires term { ChildBelow (length pool.now.trees) term }
    ensures { (o : Pair) → o.distinct ≡ distinct.now → result ≡ reasons.is_distinct_of (Some o)
        (tree_at pool.now.trees line) (tree_at pool.now.trees cell)
        (tree_at pool.now.trees other) k (tree_at pool.now.trees term) }
{
    if !are_of_one(pool, distinct, cell, other) {
        return false;
    }
    if !is_over(pool, Head::Eq, cell, other, line) {
        return false;
    }
    are_equal_in(pool, cell, other, k, term)
}

/// Whether a term says that index terms of two cited cells are equal, since their values are taken to differ.
pub(crate) fn is_distinct_of(
    s: &Sight,
    citing: &Citing,
    line: Option<NodeId>,
    cells: Option<NodeId>,
    term: Option<NodeId>,
) -> bool
    requires sees { Sees s.now }
    requires citing { CanCite (trees_of s.now) citing.now }
    requires line { ChildBelow (length (trees_of s.now)) line }
    requires cells { ChildBelow (length (trees_of s.now)) cells }
    requires term { ChildBelow (length (trees_of s.now)) term }
    ensures { result ≡ reasons.is_distinct_of (sight_of s.now).pair
        (inferences.cited_term (visible_by s.now citing.now) (tree_at (trees_of s.now) line))
        (inferences.cited_cell (visible_by s.now citing.now)
        (first (tree_at (trees_of s.now) cells)))
        (inferences.cited_cell (visible_by s.now citing.now)
        (first (second (tree_at (trees_of s.now) cells))))
        (number_of (second (second (tree_at (trees_of s.now) cells))))
        (tree_at (trees_of s.now) term) }
{
    let Some(other) = s.second else {
        return false;
    };
    let pool = &s.work.pool;
    let says = cited_term(pool, citing, line);
    let first = first_of(pool, cells);
    let behind = second_of(pool, cells);
    let second = first_of(pool, behind);
    let last = second_of(pool, behind);
    let left = cited_cell(pool, citing, first);
    let right = cited_cell(pool, citing, second);
    let k = number(pool, last);
    are_told_apart(pool, other.distinct, says, left, right, k, term)
}
