/// What a name is declared as, or asked to be declared as.
#[derive(Clone, Copy, PartialEq, Eq)]
pub enum Asked {
    /// A parameter, which bounds a replication.
    AParam,
    /// A channel.
    AChannel,
    /// A function or a constant.
    AFunction,
    /// An event.
    AnEvent,
    /// A probability.
    AProbability,
    /// An equivalence.
    AnEquivalence,
    /// A type.
    AType,
}

/// A part of a file that has names of its own.
#[derive(Clone, Copy)]
pub enum Region {
    /// An equation.
    InEquation,
    /// A query.
    InQuery,
    /// An equivalence.
    InEquivalence,
    /// The process.
    InProcess,
}

/// What a name is used for, or what is told about names without one.
#[derive(Clone, Copy)]
pub enum Role {
    /// The name of a declaration.
    Declares(Asked),
    /// A name that is to be declared before.
    Asks(Asked),
    /// A name of an equation, a query or an equivalence.
    BindsLocal,
    /// A bound of an equivalence.
    BindsBound,
    /// The bound of a `find` in an equivalence.
    AsksBound,
    /// A variable of the process.
    BindsVariable,
    /// An index of the process.
    BindsIndex,
    /// A name that is to be an index.
    AsksIndex,
    /// A name in a term. What follows says how the term goes on.
    Mentions,
    /// Arguments follow.
    AsCall,
    /// Indices follow.
    AsArray,
    /// Nothing follows.
    AsBare,
    /// The variable of a `defined` cell.
    MentionsCell,
    /// The name in a query of secrecy.
    Unchecked,
    /// A part with names of its own begins.
    Enters(Region),
    /// That part ends.
    Leaves,
    /// Nothing about names.
    Nothing,
}

/// What a type may be declared as. `Bounded` has no effect.
#[derive(Clone, Copy)]
pub enum TypeOption {
    /// `new` may choose of the type.
    Fixed,
    /// A collision in the type is rare.
    Large,
    /// Read without effect.
    Bounded,
}
