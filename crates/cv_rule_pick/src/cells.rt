ghost use Rattle.std.specs.Prelude.{◌≡◌, ◌<◌, IfSome, Some, length, option_map};
ghost use Rattle.std.specs.List.{list_any};
ghost use Rattle.cv_pool.specs.Nodes.{ChildBelow};
ghost use Rattle.cv_syntax_trees.specs.Tree.{same_tree};
ghost use Rattle.cv_syntax.specs.PoolTrees.{tree_at};
ghost use Rattle.cv_scope_rules.specs.Context.{cell_of, cells_of};
ghost use Rattle.cv_rule_pick.specs.Picking as picking;

use cv_derive_reasons::cells::{front, is_cell_under};
use cv_syntax::{Head, NodeId, Pool, read_node};

/// Whether a tree is the cell of a variable below replications.
pub(crate) fn is_cell(
    pool: &Pool,
    tree: Option<NodeId>,
    x: u32,
    replications: &[(u32, u32)],
) -> bool
    requires { ChildBelow (length pool.now.trees) tree }
    ensures { result ≡ same_tree (tree_at pool.now.trees tree) (cell_of replications.now x) }
{
    let none = front(replications, 0);
    is_cell_under(pool, tree, x, replications, none, None)
}

/// Whether a tree is the cell of one of the variables that binders bind.
#[tactic(auto, using(crate::proofs::WithTerms::cells))]
pub(crate) fn is_own(
    pool: &Pool,
    tree: Option<NodeId>,
    binders: Option<NodeId>,
    replications: &[(u32, u32)],
) -> bool
    requires tree { ChildBelow (length pool.now.trees) tree }
    requires binders { ChildBelow (length pool.now.trees) binders }
    ensures { result ≡ list_any (same_tree (tree_at pool.now.trees tree))
        (cells_of replications.now (tree_at pool.now.trees binders)) }
{
    let mut at = binders;
    'binders: while let Some(n) = at {
        let node = read_node(pool, n);
        let Head::Binder(x, _) = node.head else {
            return false;
        };
        if is_cell(pool, tree, x, replications) {
            return true;
        }
        at = node.second;
    }
    false
}

/// The term for a tree that is the cell of one of the variables that binders bind: binders and terms stand in one order.
#[tactic(auto, using(crate::proofs::WithTerms::cells))]
pub(crate) fn term_of(
    pool: &Pool,
    tree: NodeId,
    binders: Option<NodeId>,
    replications: &[(u32, u32)],
    terms: Option<NodeId>,
) -> Option<Option<NodeId>>
    requires tree { tree.0 < length pool.now.trees }
    requires binders { ChildBelow (length pool.now.trees) binders }
    requires terms { ChildBelow (length pool.now.trees) terms }
    ensures term { option_map (tree_at pool.now.trees) result
        ≡ picking.term_of (cells_of replications.now (tree_at pool.now.trees binders))
        (tree_at pool.now.trees terms) (tree_at pool.now.trees (Some tree)) }
    ensures live { IfSome result (ChildBelow (length pool.now.trees)) }
{
    let mut at = binders;
    let mut left = terms;
    'binders: while let Some(n) = at {
        let node = read_node(pool, n);
        let Head::Binder(x, _) = node.head else {
            return None;
        };
        let Some(k) = left else {
            return None;
        };
        let term = read_node(pool, k);
        if is_cell(pool, Some(tree), x, replications) {
            return Some(term.first);
        }
        at = node.second;
        left = term.second;
    }
    None
}
