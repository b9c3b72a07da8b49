use cv_grounds::open;
use cv_syntax::{Head, NodeId, Pool};
use std::alloc::{AllocError, Global};

/// A name that is bound, with its type.
#[derive(Clone, Copy)]
pub(crate) struct Binder {
    pub(crate) name: u32,
    pub(crate) sort: u32,
}

/// The names of a list of binders, with their types.
pub(crate) fn typed_binders(
    alloc: Global,
    pool: &Pool,
    list: Option<NodeId>,
) -> Result<Vec<Binder>, AllocError> {
    let mut binders = Vec::new(alloc);
    let mut at = list;
    for _ in 0..pool.live() {
        let Some(cell) = at.and_then(|n| open(pool, n)) else {
            return Ok(binders);
        };
        if let Head::Binder(name, sort) = cell.head {
            binders.push(Binder { name, sort })?;
        }
        at = cell.second;
    }
    Ok(binders)
}
