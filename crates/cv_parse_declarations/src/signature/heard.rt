use cv_syntax::Class;

/// What is known of a declaration as it is read, apart from its tree.
#[derive(Clone, Copy)]
pub enum Heard {
    /// A name, with its class and the type of its result.
    Named(u32, Class, Option<u32>),
    Equation,
    /// An equivalence, with its name.
    Equiv(u32),
    Query,
}
