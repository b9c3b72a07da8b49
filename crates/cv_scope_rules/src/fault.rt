ghost use Rattle.std.specs.Prelude.{◌≡◌};
ghost use Rattle.cv_scope_rules.specs.Refusals.{refusal};

use std::alloc::AllocError;

/// A kind of rules of array scope that a node breaks.
#[derive(Clone, Copy, Debug, PartialEq, Eq)]
pub enum Fault {
    /// A read stands neither below a definition of its cell nor in the reach of a `defined` list that has it.
    Unscoped,
    /// A variable or a label has another site that is not in a different branch, or is under other replications.
    TwoSites,
    /// A channel has other indices than the current ones, or another input that is not in a different branch or not alike.
    Channel,
    /// There are more than eight replications or indices, or an index name is bound twice or is a variable's.
    Replications,
}

/// Why a game isn't scoped: the first node in preorder that breaks a rule.
#[derive(Clone, Copy, Debug, PartialEq, Eq)]
pub enum ScopeFault {
    /// A read stands neither below a definition of its cell nor in the reach of a `defined` list that has it.
    Unscoped(u32),
    /// A variable or a label has another site that is not in a different branch, or is under other replications.
    TwoSites(u32),
    /// A channel has other indices than the current ones, or another input that is not in a different branch or not alike.
    Channel(u32),
    /// There are more than eight replications or indices, or an index name is bound twice or is a variable's.
    Replications(u32),
    /// There was no memory to decide.
    OutOfMemory,
}

impl From<AllocError> for ScopeFault {
    ghost use Rattle.std.specs.Prelude.{◌≡◌};
    ghost use Rattle.cv_scope_rules.specs.declared.fault.ScopeFault.TheVariants.{OutOfMemory};

    ghost from_gives = { λ _ e. e ≡ OutOfMemory };

    fn from(_: AllocError) -> ScopeFault {
        ScopeFault::OutOfMemory
    }
}

impl Fault {
    /// The refusal for this fault of a node at a place.
    pub fn at(self, place: u32) -> ScopeFault
        ensures { result ≡ refusal place self }
    {
        match self {
            Fault::Unscoped => ScopeFault::Unscoped(place),
            Fault::TwoSites => ScopeFault::TwoSites(place),
            Fault::Channel => ScopeFault::Channel(place),
            Fault::Replications => ScopeFault::Replications(place),
        }
    }
}
