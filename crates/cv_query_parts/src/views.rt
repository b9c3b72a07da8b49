ghost use Rattle.std.specs.Prelude.{◌≡◌, length};
ghost use Rattle.cv_pool.specs.Nodes.{ChildBelow};
ghost use Rattle.cv_syntax_trees.specs.Tree.{first};
ghost use Rattle.cv_syntax.specs.PoolTrees.{tree_at};
ghost use Rattle.cv_meaning.specs.Correspondences as query;
ghost use Rattle.cv_query_parts.specs.Said.{IsAtomBelow, IsEntryBelow, IsRouteBelow, atom_seen, cell_way, saying_at, saying_of, saying_seen, way_of, way_seen};

use crate::alternatives::NumberedAtom;
use crate::parts::place_in;
use cv_derive_reasons::sizes::Sizes;
use cv_syntax::{Head, NodeId, Pool, Work, read_node};
use cv_typing::Arrays;

/// A game in which certificates are read, with the arrays of its variables and sizes in it.
#[derive(Clone, Copy)]
pub struct View<'a> {
    pub work: &'a Work,
    pub game: NodeId,
    pub arrays: &'a Arrays,
    pub sizes: &'a Sizes,
}

/// A correspondence: its left event with the list of its variables, the variables on the right alone with their types, and the
/// alternatives of its right side.
#[derive(Clone, Copy)]
pub struct Asked<'a> {
    pub inj: bool,
    pub event: u32,
    pub variables: Option<NodeId>,
    pub others: &'a [(u32, u32)],
    pub alternatives: &'a [Vec<NumberedAtom>],
}

/// An atom of a correspondence.
#[derive(Clone, Copy)]
pub enum Atom {
    Event {
        inj: bool,
        event: u32,
        arguments: Option<NodeId>,
    },
    Term(Option<NodeId>),
}

/// Why an atom holds at a place.
#[derive(Clone, Copy)]
pub enum Route {
    /// The event's node at a place stands above.
    Above {
        place: u64,
        by: Option<NodeId>,
    },
    /// It stands above the only definition of a cell's variable.
    Cell {
        cell: Option<NodeId>,
        place: u64,
        by: Option<NodeId>,
    },
    /// The term is derived.
    Holds(Option<NodeId>),
    /// The tree is no route.
    Other,
}

/// What a certificate says of a node of the left event.
#[derive(Clone, Copy)]
pub enum Entry {
    Never {
        place: Option<NodeId>,
        by: Option<NodeId>,
    },
    With {
        place: Option<NodeId>,
        witnesses: Option<NodeId>,
        choice: Option<NodeId>,
    },
    /// The tree is no entry.
    Other,
}

/// The left event of a correspondence, with the list of its variables.
#[derive(Clone, Copy)]
pub struct LeftEvent {
    pub inj: bool,
    pub event: u32,
    pub variables: Option<NodeId>,
}

/// The left event that a tree is; a tree that is none stands for event 0.
#[tactic(auto, using(crate::proofs::Said::sayings))]
pub fn left_event(pool: &Pool, tree: Option<NodeId>) -> LeftEvent
    requires { ChildBelow (length pool.now.trees) tree }
    ensures inj { result.inj ≡ query.is_once (tree_at pool.now.trees tree) }
    ensures event { result.event ≡ query.event_of (tree_at pool.now.trees tree) }
    ensures variables { tree_at pool.now.trees result.variables
        ≡ first (tree_at pool.now.trees tree) }
    ensures live { ChildBelow (length pool.now.trees) result.variables }
{
    let Some(n) = tree else {
        return LeftEvent {
            inj: false,
            event: 0,
            variables: None,
        };
    };
    let node = read_node(pool, n);
    match node.head {
        Head::Occurs(event) => LeftEvent {
            inj: false,
            event,
            variables: node.first,
        },
        Head::OccursOnce(event) => LeftEvent {
            inj: true,
            event,
            variables: node.first,
        },
        _ => LeftEvent {
            inj: false,
            event: 0,
            variables: node.first,
        },
    }
}

/// The atom that a tree is.
#[tactic(auto, using(crate::proofs::Said::sayings))]
pub fn atom_of(pool: &Pool, tree: Option<NodeId>) -> Atom
    requires { ChildBelow (length pool.now.trees) tree }
    ensures atom { atom_seen pool.now.trees result ≡ query.atom_of (tree_at pool.now.trees tree) }
    ensures live { IsAtomBelow (length pool.now.trees) result }
{
    let Some(n) = tree else {
        return Atom::Term(tree);
    };
    let node = read_node(pool, n);
    match node.head {
        Head::Occurs(event) => Atom::Event {
            inj: false,
            event,
            arguments: node.first,
        },
        Head::OccursOnce(event) => Atom::Event {
            inj: true,
            event,
            arguments: node.first,
        },
        _ => Atom::Term(tree),
    }
}

/// A route by a cell, with its cell and what stands behind it.
#[tactic(auto, using(crate::proofs::Said::sayings))]
fn cell_route(pool: &Pool, cell: Option<NodeId>, rest: Option<NodeId>) -> Route
    requires cell { ChildBelow (length pool.now.trees) cell }
    requires rest { ChildBelow (length pool.now.trees) rest }
    ensures way { way_seen pool.now.trees result
        ≡ cell_way (tree_at pool.now.trees cell) (tree_at pool.now.trees rest) }
    ensures live { IsRouteBelow (length pool.now.trees) result }
{
    let Some(n) = rest else {
        return Route::Other;
    };
    let node = read_node(pool, n);
    Route::Cell {
        cell,
        place: place_in(pool, node.first),
        by: node.second,
    }
}

/// The route that a tree is.
#[tactic(auto, using(crate::proofs::Said::sayings))]
pub fn route_of(pool: &Pool, tree: Option<NodeId>) -> Route
    requires { ChildBelow (length pool.now.trees) tree }
    ensures way { way_seen pool.now.trees result ≡ way_of (tree_at pool.now.trees tree) }
    ensures live { IsRouteBelow (length pool.now.trees) result }
{
    let Some(n) = tree else {
        return Route::Other;
    };
    let node = read_node(pool, n);
    match node.head {
        Head::AboveRoute => Route::Above {
            place: place_in(pool, node.first),
            by: node.second,
        },
        Head::CellRoute => cell_route(pool, node.first, node.second),
        Head::HoldsRoute => Route::Holds(node.first),
        _ => Route::Other,
    }
}

/// What is said of a place.
#[tactic(auto, using(crate::proofs::Said::sayings))]
fn said_of(pool: &Pool, place: Option<NodeId>, rest: Option<NodeId>) -> Entry
    requires place { ChildBelow (length pool.now.trees) place }
    requires rest { ChildBelow (length pool.now.trees) rest }
    ensures saying { saying_seen pool.now.trees result
        ≡ saying_at (tree_at pool.now.trees place) (tree_at pool.now.trees rest) }
    ensures live { IsEntryBelow (length pool.now.trees) result }
{
    let Some(n) = rest else {
        return Entry::Other;
    };
    let node = read_node(pool, n);
    match node.head {
        Head::NeverEntry => Entry::Never {
            place,
            by: node.first,
        },
        Head::WithEntry => Entry::With {
            place,
            witnesses: node.first,
            choice: node.second,
        },
        _ => Entry::Other,
    }
}

/// The entry that a tree is.
#[tactic(auto, using(crate::proofs::Said::sayings))]
pub fn entry_of(pool: &Pool, tree: Option<NodeId>) -> Entry
    requires { ChildBelow (length pool.now.trees) tree }
    ensures saying { saying_seen pool.now.trees result ≡ saying_of (tree_at pool.now.trees tree) }
    ensures live { IsEntryBelow (length pool.now.trees) result }
{
    let Some(n) = tree else {
        return Entry::Other;
    };
    let node = read_node(pool, n);
    match node.head {
        Head::AtEntry => said_of(pool, node.first, node.second),
        _ => Entry::Other,
    }
}
