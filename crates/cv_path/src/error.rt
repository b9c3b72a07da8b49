use cv_syntax::BuildError;

/// Why no subtree is replaced.
#[derive(Clone, Copy, Debug, PartialEq, Eq)]
pub enum PathError {
    /// The tree has no such place.
    NoSuchPlace,
    /// The pool has no room for the nodes above the place, or there is no memory.
    Build(BuildError),
}
