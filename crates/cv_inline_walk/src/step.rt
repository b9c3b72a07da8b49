use cv_inline::terms::{Calling, Drawing};
use cv_syntax::{NodeId, Pool};

/// What a cryptographic step has: the pool, the drawn names, the sites, the variable of the key in the context, and the
/// name and the type of the right key.
#[derive(Clone, Copy)]
pub(crate) struct Step<'a> {
    pub(crate) pool: &'a Pool,
    pub(crate) drawn: &'a Drawing,
    pub(crate) callings: &'a [Calling],
    pub(crate) key: u32,
    pub(crate) right_key: (u32, u32),
}

/// A call of a statement: the variable that takes its answer, the place of its site among all, and what stands behind the
/// call.
#[derive(Clone, Copy)]
pub(crate) struct Call {
    pub(crate) answer: u32,
    pub(crate) site: usize,
    pub(crate) rest: Option<NodeId>,
}
