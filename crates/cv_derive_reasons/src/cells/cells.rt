ghost use Rattle.std.specs.Prelude.{◌≡◌, ◌<◌, length, take};
ghost use Rattle.cv_pool.specs.Nodes.{ChildBelow};
ghost use Rattle.cv_syntax_trees.specs.declared.head.Head.TheVariants.{Read};
ghost use Rattle.cv_syntax_trees.specs.Tree.{Empty, Node, same_tree};
ghost use Rattle.cv_syntax.specs.PoolTrees.{tree_at};
ghost use Rattle.cv_scope_rules.specs.Context.{cell_of, index_terms};
ghost use Rattle.cv_derive_reasons.specs.substitution.Under.{under};
ghost use Rattle.cv_derive_reasons.specs.cells.Cells.{are_indices_under};

use crate::inferences::sides;
use crate::substitution::is_name_under;
use cv_syntax::children::is_empty;
use cv_syntax::{Head, NodeId, Pool, read_node};

/// The first replications, so many of them.
pub fn front(replications: &[(u32, u32)], above: u32) -> &[(u32, u32)]
    ensures { result.now ≡ take above replications.now }
{
    let above = above as usize;
    if above < replications.len() {
        return &replications[..above];
    }
    replications
}

/// Whether a list has the indices of replications, with terms for names.
#[tactic(auto, using(crate::proofs::cells::Patterns::rows))]
fn are_indices_under(
    pool: &Pool,
    list: Option<NodeId>,
    replications: &[(u32, u32)],
    names: &[(u32, u32)],
    terms: Option<NodeId>,
) -> bool
    requires list { ChildBelow (length pool.now.trees) list }
    requires terms { ChildBelow (length pool.now.trees) terms }
    ensures { result ≡ are_indices_under names.now (tree_at pool.now.trees terms)
        replications.now (tree_at pool.now.trees list) }
{
    let mut count = 0;
    let mut at = list;
    'list: while let Some(n) = at {
        let node = read_node(pool, n);
        let Some(replication) = replications.get(count) else {
            return false;
        };
        let Head::Cons = node.head else {
            return false;
        };
        if !is_name_under(pool, node.first, replication.0, names, terms) {
            return false;
        }
        count += 1;
        at = node.second;
    }
    count == replications.len()
}

/// Whether a term is a variable at the indices of replications, with terms for names.
#[tactic(auto, using(crate::proofs::cells::Patterns::arrays))]
fn is_array_under(
    pool: &Pool,
    term: Option<NodeId>,
    x: u32,
    replications: &[(u32, u32)],
    names: &[(u32, u32)],
    terms: Option<NodeId>,
) -> bool
    requires term { ChildBelow (length pool.now.trees) term }
    requires terms { ChildBelow (length pool.now.trees) terms }
    ensures { result ≡ same_tree (tree_at pool.now.trees term)
        (under names.now (tree_at pool.now.trees terms)
        (Node (Read x) (index_terms replications.now) Empty)) }
{
    let Some((indices, rest)) = sides(pool, Head::Read(x), term) else {
        return false;
    };
    are_indices_under(pool, indices, replications, names, terms) && is_empty(pool, rest)
}

/// Whether a term is the cell of a variable below replications, with terms for names.
pub fn is_cell_under(
    pool: &Pool,
    term: Option<NodeId>,
    x: u32,
    replications: &[(u32, u32)],
    names: &[(u32, u32)],
    terms: Option<NodeId>,
) -> bool
    requires term { ChildBelow (length pool.now.trees) term }
    requires terms { ChildBelow (length pool.now.trees) terms }
    ensures { result ≡ same_tree (tree_at pool.now.trees term)
        (under names.now (tree_at pool.now.trees terms) (cell_of replications.now x)) }
{
    if replications.is_empty() {
        return is_name_under(pool, term, x, names, terms);
    }
    is_array_under(pool, term, x, replications, names, terms)
}
