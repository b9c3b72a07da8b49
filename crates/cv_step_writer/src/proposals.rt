use crate::certificates::Certificate;
use crate::lines::Line;
use cv_syntax::{NameId, NodeId};

/// A body that a `prune` names: a side of a test, or a branch of a `find`, from 1.
#[derive(Clone, Copy, Debug, PartialEq, Eq)]
pub enum Body {
    Then,
    Else,
    Branch(u64),
}

/// A step that is proposed: its items, in the order of its text. Terms and cells stand in the pool.
#[derive(Drop)]
pub enum Proposal {
    Rename {
        x: NameId,
        to: NameId,
    },
    Rewrite {
        place: u64,
        term: NodeId,
        by: Vec<Line>,
    },
    Prune {
        place: u64,
        body: Body,
        by: Vec<Line>,
    },
    /// With one derivation at the branch's body, and one at the `find`.
    Pick {
        place: u64,
        terms: Vec<NodeId>,
        at_body: Vec<Line>,
        at_find: Vec<Line>,
    },
    Merge {
        place: u64,
    },
    Split {
        place: u64,
        condition: NodeId,
    },
    Let {
        place: u64,
        x: NameId,
        ty: NameId,
        term: NodeId,
    },
    Unlet {
        x: NameId,
    },
    New {
        place: u64,
        x: NameId,
        ty: NameId,
    },
    Unnew {
        x: NameId,
    },
    Move {
        place: u64,
    },
    /// The step `SArename`.
    ArrayRename {
        x: NameId,
        to: Vec<NameId>,
    },
    /// To add cell `to` where cell `from` is asked for, or to drop it. The variable of `to` is adjacent to that of `from`, or
    /// stands above it.
    Codef {
        place: u64,
        add: bool,
        to: NodeId,
        from: NodeId,
        above: bool,
    },
    Birthday {
        x: NameId,
        at: Vec<u64>,
    },
    Guess {
        x: NameId,
        at: Vec<u64>,
    },
    Fresh {
        place: u64,
    },
    Crypto {
        equivalence: NameId,
        x: NameId,
    },
    /// The query by its number, from 1.
    Success {
        query: u64,
        certificate: Certificate,
    },
    Simplify,
}
