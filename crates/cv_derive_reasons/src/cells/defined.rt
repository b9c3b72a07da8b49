ghost use Rattle.std.specs.Prelude.{◌≡◌, ◌<◌, length};
ghost use Rattle.cv_pool.specs.Nodes.{ChildBelow};
ghost use Rattle.cv_syntax.specs.PoolTrees.{tree_at};
ghost use Rattle.cv_scope_rules.specs.Context.{Context, cells_of, items};
ghost use Rattle.cv_derive_reasons.specs.cells.Cells.{defined_second, is_among_under, own_behind};

use crate::cells::cells::is_cell_under;
use crate::substitution::same_under;
use cv_scope_rules::Position;
use cv_syntax::children::second_of;
use cv_syntax::{Head, NodeId, Opened, Pool, read_node};

/// Whether a cell is an item of a list, with terms for names.
#[tactic(auto, using(crate::proofs::cells::Patterns::patterns))]
fn is_item_under(
    pool: &Pool,
    cell: Option<NodeId>,
    list: Option<NodeId>,
    names: &[(u32, u32)],
    terms: Option<NodeId>,
) -> bool
    requires cell { ChildBelow (length pool.now.trees) cell }
    requires list { ChildBelow (length pool.now.trees) list }
    requires terms { ChildBelow (length pool.now.trees) terms }
    ensures { result ≡ is_among_under names.now (tree_at pool.now.trees terms)
        (tree_at pool.now.trees cell) (items (tree_at pool.now.trees list)) }
{
    let mut at = list;
    'items: while let Some(n) = at {
        let node = read_node(pool, n);
        if same_under(pool, cell, node.first, names, terms) {
            return true;
        }
        at = node.second;
    }
    false
}

/// Whether a cell is that of a variable of a list of binders below replications, with terms for names.
#[tactic(auto, using(crate::proofs::cells::Patterns::patterns))]
fn is_bound_under(
    pool: &Pool,
    cell: Option<NodeId>,
    list: Option<NodeId>,
    replications: &[(u32, u32)],
    names: &[(u32, u32)],
    terms: Option<NodeId>,
) -> bool
    requires cell { ChildBelow (length pool.now.trees) cell }
    requires list { ChildBelow (length pool.now.trees) list }
    requires terms { ChildBelow (length pool.now.trees) terms }
    ensures { result ≡ is_among_under names.now (tree_at pool.now.trees terms)
        (tree_at pool.now.trees cell) (cells_of replications.now (tree_at pool.now.trees list)) }
{
    let mut at = list;
    'binders: while let Some(n) = at {
        let node = read_node(pool, n);
        let Head::Binder(x, _) = node.head else {
            return false;
        };
        if is_cell_under(pool, cell, x, replications, names, terms) {
            return true;
        }
        at = node.second;
    }
    false
}

/// The indices of the branch whose list or condition a second child is.
pub fn own_behind(position: Position, node: Opened, own: Option<NodeId>) -> Option<NodeId>
    ensures { result ≡ own_behind position node.head node.first own }
{
    match node.head {
        Head::Cons => match position {
            Position::Guarded => None,
            _ => own,
        },
        Head::Branch => node.first,
        Head::Repl(_, _) => None,
        _ => own,
    }
}

/// Whether a node below replications defines a cell for its second child, with terms for names. Around it stands a branch with
/// these indices.
pub fn defines(
    pool: &Pool,
    cell: Option<NodeId>,
    position: Position,
    own: Option<NodeId>,
    node: Opened,
    replications: &[(u32, u32)],
    names: &[(u32, u32)],
    terms: Option<NodeId>,
) -> bool
    requires cell { ChildBelow (length pool.now.trees) cell }
    requires first { ChildBelow (length pool.now.trees) node.first }
    requires own { ChildBelow (length pool.now.trees) own }
    requires terms { ChildBelow (length pool.now.trees) terms }
    ensures { (Γ : Context) → Γ.replications ≡ replications.now
        → Γ.own ≡ cells_of replications.now (tree_at pool.now.trees own)
        → result ≡ is_among_under names.now (tree_at pool.now.trees terms)
        (tree_at pool.now.trees cell)
        (defined_second position node.head (tree_at pool.now.trees node.first) Γ) }
{
    match node.head {
        Head::Cons => match position {
            Position::Guards => is_item_under(pool, cell, node.first, names, terms),
            Position::Guarded => is_bound_under(pool, cell, own, replications, names, terms),
            _ => false,
        },
        Head::In(_) => {
            let bound = second_of(pool, node.first);
            is_bound_under(pool, cell, bound, replications, names, terms)
        }
        Head::New(x, _) => is_cell_under(pool, cell, x, replications, names, terms),
        Head::Let(x, _) => is_cell_under(pool, cell, x, replications, names, terms),
        Head::Key(x) => is_cell_under(pool, cell, x, replications, names, terms),
        Head::Call(x, _) => is_cell_under(pool, cell, x, replications, names, terms),
        _ => false,
    }
}
