use cv_syntax::PoolError;
use std::alloc::{AllocError, AllocFailed};

/// Why nothing is told: what the pool or an allocation answered.
#[derive(Clone, Copy)]
pub struct Stop(pub PoolError);

impl From<AllocError> for Stop {
    fn from(_e: AllocError) -> Stop {
        Stop(PoolError::OutOfMemory)
    }
}

impl<T: Drop> From<AllocFailed<T>> for Stop {
    fn from(_e: AllocFailed<T>) -> Stop {
        Stop(PoolError::OutOfMemory)
    }
}

impl From<PoolError> for Stop {
    fn from(e: PoolError) -> Stop {
        Stop(e)
    }
}
