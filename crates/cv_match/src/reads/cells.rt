ghost use Rattle.std.specs.Prelude.{◌≡◌, ◌&&◌, length};
ghost use Rattle.cv_pool.specs.Nodes.{ChildBelow};
ghost use Rattle.cv_syntax_trees.specs.declared.head.Head.TheVariants.{Cons, Leaf, Read};
ghost use Rattle.cv_syntax_trees.specs.Head.{same_head};
ghost use Rattle.cv_syntax_trees.specs.Tree.{Empty, Node, lone, same_tree};
ghost use Rattle.cv_syntax.specs.PoolTrees.{tree_at};
ghost use Rattle.cv_scope_rules.specs.Context.{cell_of, index_terms};

use cv_match_terms::heads::is_head;
use cv_syntax::children::{is_empty, is_leaf};
use cv_syntax::{Head, NodeId, Opened, Pool, read_node};

/// Whether a node of a list has an index for its item.
#[tactic(auto, using(crate::proofs::reads::Rows::indices))]
fn is_index(pool: &Pool, node: Opened, i: u32) -> bool
    requires { ChildBelow (length pool.now.trees) node.first }
    ensures { result ≡ (same_head node.head Cons
        && same_tree (tree_at pool.now.trees node.first) (lone (Leaf i))) }
{
    is_head(node.head, Head::Cons) && is_leaf(pool, i, node.first)
}

/// Whether a list has exactly the indices of replications.
#[tactic(auto, using(crate::proofs::reads::Rows::rows))]
fn are_indices(pool: &Pool, replications: &[(u32, u32)], list: Option<NodeId>) -> bool
    requires { ChildBelow (length pool.now.trees) list }
    ensures { result
        ≡ same_tree (tree_at pool.now.trees list) (index_terms replications.now) }
{
    let mut at = list;
    for replication in replications {
        let Some(n) = at else {
            return false;
        };
        let node = read_node(pool, n);
        if !is_index(pool, node, replication.0) {
            return false;
        }
        at = node.second;
    }
    is_empty(pool, at)
}

/// Whether a term is a variable at the indices of replications.
#[tactic(auto, using(crate::proofs::reads::Rows::arrays))]
fn is_array(pool: &Pool, replications: &[(u32, u32)], x: u32, term: Option<NodeId>) -> bool
    requires { ChildBelow (length pool.now.trees) term }
    ensures { result ≡ same_tree (tree_at pool.now.trees term)
        (Node (Read x) (index_terms replications.now) Empty) }
{
    let Some(n) = term else {
        return false;
    };
    let node = read_node(pool, n);
    is_head(node.head, Head::Read(x))
        && (are_indices(pool, replications, node.first) && is_empty(pool, node.second))
}

/// Whether a term is the cell of a variable below replications. Nothing is built.
#[tactic(auto, using(crate::proofs::reads::Rows::cells))]
pub fn is_cell(pool: &Pool, replications: &[(u32, u32)], x: u32, term: Option<NodeId>) -> bool
    requires { ChildBelow (length pool.now.trees) term }
    ensures { result
        ≡ same_tree (tree_at pool.now.trees term) (cell_of replications.now x) }
{
    if replications.is_empty() {
        return is_leaf(pool, x, term);
    }
    is_array(pool, replications, x, term)
}
