use std::alloc::AllocError;

/// Why an equivalence is not accepted: the first rule that it breaks.
#[derive(Clone, Copy, Debug, PartialEq, Eq)]
pub enum GroupFault {
    /// A body on the left isn't a term.
    LeftNotTerm,
    /// A branch of a `find` on the right has no index, or more than one.
    TwoIndices,
    /// The sides differ in functions, bounds or arguments, or two functions of a side share a bound.
    ShapeDiffers,
    /// A body names what isn't bound there.
    FreeName,
    /// A body on the left doesn't read its key, a coin or an argument.
    Unread,
    /// There was no memory to decide.
    OutOfMemory,
}

impl From<AllocError> for GroupFault {
    ghost use Rattle.std.specs.Prelude.{◌≡◌};
    ghost use Rattle.cv_group.specs.declared.fault.GroupFault.TheVariants.{OutOfMemory};

    ghost from_gives = { λ _ e. e ≡ OutOfMemory };

    fn from(_: AllocError) -> GroupFault {
        GroupFault::OutOfMemory
    }
}

/// Why the equivalences of a file are not all accepted: the number of one, from 1, with its fault. Where there was no memory to
/// decide, the number says nothing.
#[derive(Clone, Copy, Debug, PartialEq, Eq)]
pub struct EquivFault {
    pub equiv: u32,
    pub fault: GroupFault,
}

impl From<AllocError> for EquivFault {
    ghost use Rattle.std.specs.Prelude.{◌≡◌};
    ghost use Rattle.cv_group.specs.declared.fault.GroupFault.TheVariants.{OutOfMemory};

    ghost from_gives = { λ _ e. e ≡ record { equiv = 0; fault = OutOfMemory } };

    fn from(_: AllocError) -> EquivFault {
        EquivFault {
            equiv: 0,
            fault: GroupFault::OutOfMemory,
        }
    }
}
