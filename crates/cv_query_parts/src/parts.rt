ghost use Rattle.std.specs.Prelude.{◌≡◌, ◌<◌, length};
ghost use Rattle.cv_pool.specs.Nodes.{ChildBelow};
ghost use Rattle.cv_syntax.specs.PoolTrees.{tree_at};
ghost use Rattle.cv_query_certificates.specs.EventNodes as certificates;
ghost use Rattle.cv_query_certificates.specs.Failures as failures;
ghost use Rattle.cv_query_certificates.specs.Forms as forms;

use cv_syntax::children::first_of;
use cv_syntax::{Head, NodeId, Pool, read_node};

/// The place that a certificate names, or 0.
#[tactic(auto, using(crate::proofs::Said::sayings))]
pub fn place_in(pool: &Pool, tree: Option<NodeId>) -> u64
    requires { ChildBelow (length pool.now.trees) tree }
    ensures { result ≡ certificates.place_in (tree_at pool.now.trees tree) }
{
    let Some(n) = tree else {
        return 0;
    };
    match read_node(pool, n).head {
        Head::Number(value) => value,
        _ => 0,
    }
}

/// Whether a tree is the number of a place.
#[tactic(auto, using(crate::proofs::Said::sayings))]
pub fn is_number(pool: &Pool, place: u32, tree: Option<NodeId>) -> bool
    requires { ChildBelow (length pool.now.trees) tree }
    ensures { result ≡ forms.is_number place (tree_at pool.now.trees tree) }
{
    let Some(n) = tree else {
        return false;
    };
    match read_node(pool, n).head {
        Head::Number(value) => value == place as u64,
        _ => false,
    }
}

/// The place of the first part, if it is an entry.
#[tactic(auto, using(crate::proofs::Said::sayings))]
pub fn surplus_entry(pool: &Pool, parts: Option<NodeId>) -> Option<u64>
    requires { ChildBelow (length pool.now.trees) parts }
    ensures { result ≡ failures.surplus_entry (tree_at pool.now.trees parts) }
{
    let part = read_node(pool, parts?);
    let entry = read_node(pool, part.first?);
    match entry.head {
        Head::AtEntry => Some(place_in(pool, entry.first)),
        _ => None,
    }
}

/// The place of the first of the pairs, if there is one.
#[tactic(auto, using(crate::proofs::Said::sayings))]
pub fn first_surplus(pool: &Pool, pairs: Option<NodeId>) -> Option<u64>
    requires { ChildBelow (length pool.now.trees) pairs }
    ensures { result ≡ failures.first_surplus (tree_at pool.now.trees pairs) }
{
    let part = read_node(pool, pairs?);
    Some(place_in(pool, first_of(pool, part.first)))
}
