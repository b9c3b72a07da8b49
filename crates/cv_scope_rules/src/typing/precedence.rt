/// Which of two bindings of a name counts.
#[derive(Clone, Copy, Debug, PartialEq, Eq)]
pub enum Precedence {
    /// The first.
    First,
    /// The newest.
    Newest,
}
