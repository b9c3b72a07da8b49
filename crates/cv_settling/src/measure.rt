// The measure that settling steps lower: how many equations at large types there are, then how many nodes.
ghost use Rattle.std.specs.Prelude.{◌≡◌, ◌+◌, if◌then◌else◌};
ghost use Rattle.cv_syntax_trees.specs.Head.{weight};
ghost use Rattle.cv_syntax_trees.specs.Tree.{size};
ghost use Rattle.cv_syntax.specs.PoolTrees.{tree_at};
ghost use Rattle.cv_scope_rules.specs.typing.Parts.{nothing_above};
ghost use Rattle.cv_scope_rules.specs.typing.Signature.{sort_of};
ghost use Rattle.cv_scene.specs.Scenes.{Scene};
ghost use Rattle.cv_scene.specs.Terms.{signature_in};
ghost use Rattle.cv_settling_rules.specs.Measure as measure;
ghost use Rattle.cv_settling.specs.Measured.{capped, told};
ghost use Rattle.cv_settling.specs.Putting.{put_in};
ghost use Rattle.cv_settling.specs.Seen.{IsTableOf};

use crate::parts::opened;
use crate::terms::{Given, given_at};
use crate::types::{Table, is_large};
use cv_syntax::{Head, NodeId, Pool};

/// The measure of a term.
#[derive(Clone, Copy)]
pub(crate) struct Measure {
    equations: u64,
    nodes: u64,
}

/// That of nothing.
const NOTHING: Measure = Measure {
    equations: 0,
    nodes: 0,
};

/// Whether a measure is less than another one.
pub(crate) fn is_less(a: Measure, b: Measure) -> bool
    ensures { result ≡ measure.is_less (told a) (told b) }
{
    a.equations < b.equations || (a.equations == b.equations && a.nodes < b.nodes)
}

/// One, where a test holds.
fn one_if(test: bool) -> u64
    ensures { result ≡ (if test then 1 else 0) }
{
    if test { 1 } else { 0 }
}

/// A measure, and that of a node without its children.
fn with_node(total: Measure, is_equation: bool, head: Head) -> Measure
    ensures equations { result.equations
        ≡ capped (total.equations + (if is_equation then 1 else 0)) }
    ensures nodes { result.nodes ≡ capped (total.nodes + weight head) }
{
    Measure {
        equations: total.equations.saturating_add(one_if(is_equation)),
        nodes: total.nodes.saturating_add(u64::from(head.weight())),
    }
}

/// Whether a node is an equation at a large type.
fn is_large_equality(table: &Table, head: Head, left: Option<NodeId>) -> bool
    ensures { (s : Scene) → IsTableOf s table.now → result
        ≡ measure.is_large_equality s head (tree_at table.now.pool.now.trees left) }
{
    match head {
        Head::Eq => is_large(table, left),
        _ => false,
    }
}

/// A measure, and that of a term.
fn measure_with(table: &Table, part: Option<NodeId>, total: Measure) -> Measure
    ensures equations { (s : Scene) → IsTableOf s table.now
        → result.equations ≡ capped (total.equations
        + measure.large_equalities s (tree_at table.now.pool.now.trees part)) }
    ensures nodes { result.nodes
        ≡ capped (total.nodes + size (tree_at table.now.pool.now.trees part)) }
{
    let Some(node) = opened(table.pool, part) else {
        return total;
    };
    let is_equation = is_large_equality(table, node.head, node.first);
    let here = with_node(total, is_equation, node.head);
    let before = measure_with(table, node.first, here);
    measure_with(table, node.second, before)
}

/// The measure of a term.
pub(crate) fn measure_of(table: &Table, term: Option<NodeId>) -> Measure
    ensures equations { (s : Scene) → IsTableOf s table.now
        → result.equations ≡ capped (measure.large_equalities s
        (tree_at table.now.pool.now.trees term)) }
    ensures nodes { result.nodes ≡ capped (size (tree_at table.now.pool.now.trees term)) }
{
    measure_with(table, term, NOTHING)
}

/// What stands at the root of a part with terms for names: the term that is put there, or the part.
fn root_of(pool: &Pool, given: &[Given], part: Option<NodeId>) -> Option<NodeId>
    ensures { (s : Scene)
        → sort_of (signature_in s) nothing_above (tree_at pool.now.trees result)
        ≡ sort_of (signature_in s) nothing_above
        (put_in pool.now.trees given.now (tree_at pool.now.trees part)) }
{
    let Some(node) = opened(pool, part) else {
        return part;
    };
    if let Some(term) = given_at(given, node.head) {
        return Some(term);
    }
    part
}

/// A measure, and that of a part with terms for names.
fn measure_put_with(table: &Table, given: &[Given], part: Option<NodeId>, total: Measure) -> Measure
    ensures equations { (s : Scene) → IsTableOf s table.now
        → result.equations ≡ capped (total.equations + measure.large_equalities s
        (put_in table.now.pool.now.trees given.now (tree_at table.now.pool.now.trees part))) }
    ensures nodes { result.nodes ≡ capped (total.nodes + size
        (put_in table.now.pool.now.trees given.now (tree_at table.now.pool.now.trees part))) }
{
    let Some(node) = opened(table.pool, part) else {
        return total;
    };
    if let Some(term) = given_at(given, node.head) {
        return measure_with(table, Some(term), total);
    }
    let root = root_of(table.pool, given, node.first);
    let is_equation = is_large_equality(table, node.head, root);
    let here = with_node(total, is_equation, node.head);
    let before = measure_put_with(table, given, node.first, here);
    measure_put_with(table, given, node.second, before)
}

/// The measure of a term with terms for names.
pub(crate) fn measure_put(table: &Table, given: &[Given], term: Option<NodeId>) -> Measure
    ensures equations { (s : Scene) → IsTableOf s table.now
        → result.equations ≡ capped (measure.large_equalities s
        (put_in table.now.pool.now.trees given.now (tree_at table.now.pool.now.trees term))) }
    ensures nodes { result.nodes ≡ capped (size
        (put_in table.now.pool.now.trees given.now (tree_at table.now.pool.now.trees term))) }
{
    measure_put_with(table, given, term, NOTHING)
}
