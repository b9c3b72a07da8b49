use cv_derive_reasons::sizes::Sizes;
use cv_syntax::{Game, NodeId, Work};
use cv_syntax_trees::sites::Sort;
use cv_typing::Arrays;
use std::collections::HashMap;

/// A second place of a game, of which another copy is reached.
#[derive(Clone, Copy)]
pub struct Second<'a> {
    pub place: u32,
    /// The replications above the place, under their names in the game.
    pub replications: &'a [(u32, u32)],
    /// What is added to the names of their indices in the second copy, as in `raised`: the contract alone reads it.
    pub raise: u32,
    /// The list of these indices under their names in the second copy.
    pub raised: Option<NodeId>,
    /// The list of equations that are given.
    pub given: Option<NodeId>,
    /// The arrays whose values are taken to differ.
    pub distinct: &'a [u32],
}

/// A place of a game, with what is there to read, perhaps beside a second one, and the lines of a derivation there. The
/// replications are those above the place.
#[derive(Clone, Copy)]
pub(crate) struct Sight<'a, 's> {
    pub(crate) work: &'a Work,
    pub(crate) game: Game,
    pub(crate) arrays: &'a Arrays,
    pub(crate) above: &'a HashMap<u32, Sort>,
    pub(crate) replications: &'a [(u32, u32)],
    pub(crate) sizes: &'a Sizes,
    pub(crate) place: u32,
    pub(crate) second: Option<Second<'s>>,
    pub(crate) lines: Option<NodeId>,
}

/// What is assumed in a block: nothing outside of all, and in a block of cases that the condition holds, or that it doesn't.
#[derive(Clone, Copy)]
pub(crate) enum Assumed {
    Nothing,
    Holds(Option<NodeId>),
    Fails(Option<NodeId>),
}
