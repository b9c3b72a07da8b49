use crate::heads::Heads;
use cv_syntax::NodeId;
use cv_syntax_trees::sites::Sort;
use cv_typing::Arrays;
use std::collections::HashMap;

/// What is looked for in a game: the functions of the left side of an equivalence, where a variable stands for their key.
#[derive(Drop)]
pub struct Search<'a> {
    pub game: NodeId,
    /// The left side, if the name is one of an equivalence.
    pub side: Option<NodeId>,
    /// The variable that stands for the key.
    pub key: u32,
    /// The variables of the game.
    pub arrays: &'a Arrays,
    /// What the bodies of the functions begin with.
    pub heads: Heads,
    /// Nothing: a term is typed at no place.
    pub above: HashMap<u32, Sort>,
}
