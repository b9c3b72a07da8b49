ghost use Rattle.std.specs.Prelude.{◌≡◌, IfOk, length};
ghost use Rattle.cv_pool.specs.Nodes.{ChildBelow};
ghost use Rattle.cv_syntax.specs.PoolTrees.{tree_at};
ghost use Rattle.cv_query_certificates.specs.PairParts as certificates;
ghost use Rattle.cv_query_certificates.specs.PairParts.{distinct_in, pairs_in};
ghost use Rattle.cv_query_parts.specs.pairs.Ends.{name_by};

use cv_syntax::children::first_of;
use cv_syntax::{Head, NodeId, Pool, read_node};
use std::alloc::{AllocError, Global};

/// The parts behind so many entries.
#[tactic(auto, using(cv_syntax::proofs::Trees::opened))]
pub fn behind_entries(pool: &Pool, places: &[u32], parts: Option<NodeId>) -> Option<NodeId>
    requires { ChildBelow (length pool.now.trees) parts }
    ensures tree { tree_at pool.now.trees result
        ≡ certificates.behind_entries places.now (tree_at pool.now.trees parts) }
    ensures live { ChildBelow (length pool.now.trees) result }
{
    let mut at = parts;
    'places: for _k in 0..places.len() {
        let Some(n) = at else {
            return None;
        };
        let part = read_node(pool, n);
        at = part.second;
    }
    at
}

/// What stands behind the entries: the list of the variables whose values are taken to differ, and the pairs.
#[derive(Clone, Copy)]
pub struct Rest {
    pub names: Option<NodeId>,
    pub pairs: Option<NodeId>,
}

/// What the parts behind the entries are.
#[tactic(auto, using(cv_syntax::proofs::Trees::opened))]
pub fn rest_of(pool: &Pool, behind: Option<NodeId>) -> Rest
    requires { ChildBelow (length pool.now.trees) behind }
    ensures names { certificates.names_in (tree_at pool.now.trees result.names)
        ≡ distinct_in (tree_at pool.now.trees behind) }
    ensures pairs { tree_at pool.now.trees result.pairs
        ≡ pairs_in (tree_at pool.now.trees behind) }
    ensures names_live { ChildBelow (length pool.now.trees) result.names }
    ensures pairs_live { ChildBelow (length pool.now.trees) result.pairs }
{
    let none = Rest {
        names: None,
        pairs: behind,
    };
    let Some(n) = behind else {
        return none;
    };
    let part = read_node(pool, n);
    let Some(k) = part.first else {
        return none;
    };
    let node = read_node(pool, k);
    match node.head {
        Head::DistinctPart => Rest {
            names: node.first,
            pairs: part.second,
        },
        _ => none,
    }
}

/// The name of a variable, if an item of a list is one.
#[tactic(auto, using(cv_syntax::proofs::Trees::opened))]
fn name_of(pool: &Pool, item: Option<NodeId>) -> Option<u32>
    requires { ChildBelow (length pool.now.trees) item }
    ensures { result ≡ name_by (tree_at pool.now.trees item) }
{
    let Some(n) = item else {
        return None;
    };
    match read_node(pool, n).head {
        Head::Name(x) => Some(x),
        _ => None,
    }
}

/// The names that are the first items of a list.
#[tactic(auto, using(cv_syntax::proofs::Trees::opened))]
pub fn names_in(alloc: Global, pool: &Pool, names: Option<NodeId>) -> Result<Vec<u32>, AllocError>
    requires { ChildBelow (length pool.now.trees) names }
    ensures { IfOk result (λ found. found.items
        ≡ certificates.names_in (tree_at pool.now.trees names)) }
{
    let mut found = Vec::new(alloc);
    let mut at = names;
    'names: while let Some(n) = at {
        let cell = read_node(pool, n);
        let Some(x) = name_of(pool, cell.first) else {
            return Ok(found);
        };
        found.push(x)?;
        at = cell.second;
    }
    Ok(found)
}
