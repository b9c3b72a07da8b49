use std::alloc::AllocError;

/// Why a game has no sites of an equivalence that serve, the first reason that there is; places are those of the game's nodes.
#[derive(Clone, Copy, Debug, PartialEq, Eq)]
pub enum MatchFault {
    /// The key hasn't one definition, a `new` of its type, or a query asks for it.
    NotOneSite,
    /// The key is read outside instances and conditions.
    Use(u32),
    /// The key is read in a condition of a `find`.
    InCondition(u32),
    /// A coin of the instance at the place is used elsewhere.
    CoinUse(u32),
    /// The key is read in what stands for an argument.
    KeyInArgument(u32),
    OutOfMemory,
}

impl From<AllocError> for MatchFault {
    ghost use Rattle.std.specs.Prelude.{◌≡◌};
    ghost use Rattle.cv_match.specs.declared.fault.MatchFault.TheVariants.{OutOfMemory};

    ghost from_gives = { λ _ e. e ≡ OutOfMemory };

    fn from(_: AllocError) -> MatchFault {
        MatchFault::OutOfMemory
    }
}
