use crate::lines::Line;
use cv_syntax::{NameId, NodeId};

/// Why a right event or a right term of a correspondence holds.
#[derive(Drop)]
pub enum Route {
    /// The event stands at a place above.
    Above {
        place: u64,
        by: Vec<Line>,
    },
    /// The event stands at a place above the only definition of a cell's variable.
    Cell {
        cell: NodeId,
        place: u64,
        by: Vec<Line>,
    },
    /// The term is true.
    Holds {
        by: Vec<Line>,
    },
}

/// What is said of a left event's node.
#[derive(Drop)]
pub enum Entry {
    /// No run comes to its place.
    Never {
        place: u64,
        by: Vec<Line>,
    },
    /// There are terms for the variables on the right alone, and a route for each right event and term, in order; of the alternative
    /// of a number, from 1, where there is more than one.
    With {
        place: u64,
        terms: Vec<NodeId>,
        alternative: Option<u64>,
        routes: Vec<Route>,
    },
}

/// A pair of places of left events with one right event, by its number from 1.
#[derive(Drop)]
pub struct Pair {
    pub first: u64,
    pub second: u64,
    pub event: u64,
    pub by: Vec<Line>,
}

/// A pair of definitions of a secret, by their places.
#[derive(Drop)]
pub struct SecretPair {
    pub first: u64,
    pub second: u64,
    pub by: Vec<Line>,
}

/// Why a query holds in a game.
#[derive(Drop)]
pub enum Certificate {
    /// Of a correspondence. Where no variable is named `distinct` its text has no such part.
    Events {
        entries: Vec<Entry>,
        distinct: Vec<NameId>,
        pairs: Vec<Pair>,
    },
    /// Of secrecy.
    Secret {
        pairs: Vec<SecretPair>,
    },
}
