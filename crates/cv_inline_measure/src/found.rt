use crate::added::Added;

/// Branches of a find beside its other body: whether there are any, and what all of them add.
#[derive(Clone, Copy)]
pub(crate) struct Found {
    pub(crate) any: bool,
    pub(crate) all: Added,
}
