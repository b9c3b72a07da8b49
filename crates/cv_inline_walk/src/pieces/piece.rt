use cv_inline::terms::Entry;
use cv_syntax::{Head, NodeId};

/// A term of a right body, with what its names stand for.
#[derive(Drop)]
pub struct Phrase {
    pub scope: Vec<Entry>,
    pub term: Option<NodeId>,
}

/// What stands before the body in a branch for the calls of another site: the place of that site among all, the place of
/// the find, the number of the branch, and its list and its condition. The scope has the branch's index.
#[derive(Drop)]
pub struct Front {
    pub scope: Vec<Entry>,
    pub other: usize,
    pub place: u32,
    pub branch: u32,
    pub cells: Option<NodeId>,
    pub condition: Option<NodeId>,
}

/// A part of what stands in the next game for a call: the tree without nodes, a node over the two newest trees, a tree as
/// it stands in the pool, a term of the body, the front of a branch, or a result, at which the statement goes on.
#[derive(Drop)]
pub enum Piece {
    Nothing,
    Put(Head),
    Copy(Option<NodeId>),
    Term(Phrase),
    Front(Front),
    Result(Phrase),
}
