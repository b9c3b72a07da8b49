use std::alloc::AllocError;

/// Why the queries of a file may not all be asked.
#[derive(Clone, Copy, Debug, PartialEq, Eq)]
pub enum QueryFault {
    /// The query of this number, from 1, is the first that may not be asked.
    Query(u32),
    /// There was no memory to decide.
    OutOfMemory,
}

impl From<AllocError> for QueryFault {
    ghost use Rattle.std.specs.Prelude.{◌≡◌};
    ghost use Rattle.cv_query_form.specs.declared.fault.QueryFault.TheVariants.{OutOfMemory};

    ghost from_gives = { λ _ e. e ≡ OutOfMemory };

    fn from(_: AllocError) -> QueryFault {
        QueryFault::OutOfMemory
    }
}
