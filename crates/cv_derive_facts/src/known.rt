use cv_syntax::NodeId;

/// What is known at a place: the equation of a `let`, by its node, or that a condition holds, or doesn't.
#[derive(Clone, Copy, Debug, PartialEq, Eq)]
pub enum Fact {
    /// The variable of the `let`, at the outermost so many of the indices that are current at the place, is equal to its term.
    Defines { definition: NodeId, above: u32 },
    /// The condition holds.
    Holds(NodeId),
    /// The condition doesn't hold.
    Fails(NodeId),
}
