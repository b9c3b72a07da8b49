ghost use Rattle.std.specs.Prelude.{◌≡◌, ◌<◌, ◌↔◌, length, Some, IsNone};
ghost use Rattle.std.specs.List.{list_any};
ghost use Rattle.cv_pool.specs.Nodes.{ChildBelow};
ghost use Rattle.cv_syntax_trees.specs.Tree.{Empty, Node, same_tree};
ghost use Rattle.cv_syntax.specs.PoolTrees.{tree_at};
ghost use Rattle.cv_scope.specs.Held.{AreListed, IsOpened, cells_held, names_held, state_held};
ghost use Rattle.cv_scope.specs.Seen.{is_reached as is_reached_by, is_scoped_read, reads_definition as is_defined_by};

use crate::names::NameKinds;
use crate::state::State;
use crate::terms::{current, is_index};
use cv_scope_rules::Position;
use cv_syntax::{Head, NodeId, Opened, Pool, same};

/// Whether a node is a cell that a definition above assigns.
fn reads_definition(state: &State, pool: &Pool, k: NodeId, node: Opened) -> bool
    requires { IsOpened pool.now.trees k node }
    ensures { result ≡ is_defined_by (state_held pool.now.trees state.now) node.head
        (tree_at pool.now.trees node.first) (tree_at pool.now.trees node.second) }
{
    if node.second.is_some() {
        return false;
    }
    match node.head {
        Head::Leaf(x) => node.first.is_none() && state.defined.has(x, 0),
        Head::Read(x) => {
            if node.first.is_none() {
                return false;
            }
            match current(pool, state.replications.as_slice(), node.first) {
                Some(indices) => state.defined.has(x, indices),
                None => false,
            }
        }
        _ => false,
    }
}

/// Whether a tree is one of these.
fn is_one_of(pool: &Pool, k: NodeId, cells: &[Option<NodeId>]) -> bool
    requires live { k.0 < length pool.now.trees }
    requires listed { AreListed pool.now.trees cells.now }
    ensures { result ≡ list_any (same_tree (tree_at pool.now.trees (Some k)))
        (cells_held pool.now.trees cells.now) }
{
    for cell in cells {
        if same(pool, Some(k), *cell) {
            return true;
        }
    }
    false
}

/// Whether a `defined` list around has a tree. Where no cell is this node, the trees are compared, since kinds that
/// are read alike may differ.
fn is_listed(state: &State, pool: &Pool, k: NodeId) -> bool
    requires live { k.0 < length pool.now.trees }
    requires listed { AreListed pool.now.trees state.now.listed }
    ensures { result ≡ list_any (same_tree (tree_at pool.now.trees (Some k)))
        (cells_held pool.now.trees state.now.listed) }
{
    state.listed.has(k) || is_one_of(pool, k, state.listed.cells())
}

/// Whether a node is a cell that is assigned above, or that a `defined` list around has.
fn is_reached(state: &State, pool: &Pool, k: NodeId, node: Opened) -> bool
    requires node { IsOpened pool.now.trees k node }
    requires listed { AreListed pool.now.trees state.now.listed }
    ensures { result ≡ is_reached_by (state_held pool.now.trees state.now) node.head
        (tree_at pool.now.trees node.first) (tree_at pool.now.trees node.second) }
{
    reads_definition(state, pool, k, node) || is_listed(state, pool, k)
}

/// Whether a node reads only what is in scope.
pub fn is_in_scope(
    state: &State,
    pool: &Pool,
    names: &NameKinds,
    position: Position,
    k: NodeId,
    node: Opened,
) -> bool
    requires node { IsOpened pool.now.trees k node }
    requires listed { AreListed pool.now.trees state.now.listed }
    ensures { result ≡ is_scoped_read (names_held names.now) position
        (state_held pool.now.trees state.now) node.head (tree_at pool.now.trees node.first)
        (tree_at pool.now.trees node.second) }
{
    if matches!(position, Position::OneCell) {
        return true;
    }
    match node.head {
        Head::Leaf(x) => {
            is_index(state.replications.as_slice(), x)
                || names.is_constant(x)
                || is_reached(state, pool, k, node)
        }
        Head::Read(_) => is_reached(state, pool, k, node),
        _ => true,
    }
}
