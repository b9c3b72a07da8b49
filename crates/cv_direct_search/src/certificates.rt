use cv_closure::{TermId, Terms};
use cv_closure_lines::Derivation;

/// Why a right event or a right term of a correspondence holds.
#[derive(Drop)]
pub enum Route {
    /// The event stands at a place above; the derivation ends with the equations of its arguments.
    Above {
        place: u32,
        by: Derivation,
    },
    /// The event stands at a place above the only definition of a cell's variable. The cell is a term of the derivation, which
    /// ends with the line that it is defined, and then the equations.
    Cell {
        cell: TermId,
        place: u32,
        by: Derivation,
    },
    /// The term is true; the derivation ends with it.
    Holds {
        by: Derivation,
    },
}

/// What is said of a left event's node.
#[derive(Drop)]
pub enum Entry {
    /// No run comes to its place; the derivation ends with `false`.
    Never {
        place: u32,
        by: Derivation,
    },
    /// There are terms for the variables on the right alone, over a table of their own, and a route for each right event and
    /// term, in order; of the alternative of a number, from 1, where there is more than one.
    With {
        place: u32,
        table: Terms,
        terms: Vec<TermId>,
        alternative: Option<u64>,
        routes: Vec<Route>,
    },
}

/// Two places of the left event whose routes to one right event, by its number, may end alike: the derivation at both ends with that
/// their copies are one, or that there are no such copies.
#[derive(Drop)]
pub struct Pair {
    pub first: u32,
    pub second: u32,
    pub event: u64,
    pub by: Derivation,
}

/// Two definitions of a secret that copy values of one variable, by their places: the derivation at both ends with that the copies are
/// one, or that there are no such copies.
#[derive(Drop)]
pub struct SecretPair {
    pub first: u32,
    pub second: u32,
    pub by: Derivation,
}

/// What closes a query.
#[derive(Drop)]
pub enum Certificate {
    /// Of a correspondence: an entry for each place of its left event, the arrays whose values are taken to differ, and the pairs
    /// that it needs, each in order.
    Events {
        entries: Vec<Entry>,
        distinct: Vec<u32>,
        pairs: Vec<Pair>,
    },
    /// Of secrecy: the pairs that it needs, in order.
    Secret {
        pairs: Vec<SecretPair>,
    },
}
