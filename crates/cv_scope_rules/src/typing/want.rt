use crate::typing::form::Form;
use cv_syntax::NodeId;
use cv_syntax_trees::sites::Sort;

/// What a position asks of the tree that stands there.
#[derive(Clone, Copy, Debug)]
pub enum Want {
    /// A process or a body.
    Run(Form),
    /// The branches of a `find`.
    Branches(Form),
    /// The cells, the condition and the body of a branch.
    Guarded(Form),
    /// The condition and the body of a branch.
    Tested(Form),
    /// The channel's indices and the terms of an output.
    Sent,
    /// A correspondence.
    Correspondence,
    /// The events and terms of a correspondence.
    Atoms,
    /// Nothing that is typed.
    NoTerms,
    /// A term.
    AnyTerm,
    /// An index.
    AnyIndex,
    /// A value.
    AnyValue,
    /// A term of this sort.
    Of(Sort),
    /// A value that goes out.
    AnyMessage,
    /// A value of this type that is an argument or is assigned.
    Message(u32),
    /// Terms.
    EachTerm,
    /// Indices.
    EachIndex,
    /// Values that go out.
    AllMessages,
    /// Values of the types of this list of names, one by one.
    Messages(Option<NodeId>),
    /// Indices of a variable's parameters, one by one, from one of them on.
    Indices(u32, usize),
}
