/// What a name of a file is.
#[derive(Clone, Copy, Debug, PartialEq, Eq)]
pub enum Class {
    /// A parameter.
    Param,
    /// A type: `new` may choose of it, and a collision in it is rare.
    TypeName { fixed: bool, large: bool },
    /// A channel.
    Channel,
    /// A function, or a constant. With `[data]` it is injective.
    Fun { data_like: bool },
    /// An event.
    Event,
    /// A probability.
    Proba,
    /// An equivalence.
    Equiv,
    /// No name of a declaration.
    Free,
}
