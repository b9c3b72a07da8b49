use cv_syntax_trees::Head;

/// A part of a tree that is made from the bottom: nothing, or a node over the two trees before it.
#[derive(Clone, Copy)]
pub enum Make {
    Nothing,
    Over(Head),
}
