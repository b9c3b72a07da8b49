use cv_syntax::PoolError;
use std::alloc::{AllocError, AllocFailed};

/// Want of memory, or of room in the pool.
#[derive(Clone, Copy)]
pub(crate) struct Shortage(pub(crate) PoolError);

impl From<AllocError> for Shortage {
    fn from(_e: AllocError) -> Shortage {
        Shortage(PoolError::OutOfMemory)
    }
}

impl<T: Drop> From<AllocFailed<T>> for Shortage {
    fn from(_e: AllocFailed<T>) -> Shortage {
        Shortage(PoolError::OutOfMemory)
    }
}

impl From<PoolError> for Shortage {
    fn from(e: PoolError) -> Shortage {
        Shortage(e)
    }
}
