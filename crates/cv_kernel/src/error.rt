use cv_edit_places::Failure;
use cv_kernel_crypto::CryptoFault;
use cv_syntax::BuildError;
use std::alloc::AllocError;

/// Why a step leads to no game.
#[derive(Clone, Copy, Debug, PartialEq, Eq)]
pub enum RuleError {
    /// The first of its conditions that fails.
    Refused(Failure),
    /// The next game passes a limit, or the pool has no room for it.
    Build(BuildError),
}

/// The condition of a step that fails, and the place where it does; 0, where it names none. A certificate may name any
/// place.
#[derive(Clone, Copy, Debug, PartialEq, Eq)]
pub struct Refusal {
    pub condition: u32,
    pub place: u64,
}

/// Why a step isn't taken.
#[derive(Clone, Copy, Debug, PartialEq, Eq)]
pub enum PushError {
    /// The first of its conditions that fails.
    Refused(Refusal),
    /// As many steps were taken as a proof may have.
    Steps,
    /// The next game passes a limit, or the pool has no room for it.
    Build(BuildError),
}

impl From<AllocError> for RuleError {
    ghost use Rattle.std.specs.Prelude.{◌≡◌};
    ghost use Rattle.cv_syntax.specs.declared.work.BuildError.TheVariants.{OutOfMemory};
    ghost use Rattle.cv_kernel.specs.declared.error.RuleError.TheVariants.{Build};

    ghost from_gives = { λ _ e. e ≡ Build OutOfMemory };

    fn from(_: AllocError) -> RuleError {
        RuleError::Build(BuildError::OutOfMemory)
    }
}

impl From<BuildError> for RuleError {
    ghost use Rattle.std.specs.Prelude.{◌≡◌};
    ghost use Rattle.cv_kernel.specs.declared.error.RuleError.TheVariants.{Build};

    ghost from_gives = { λ fault e. e ≡ Build fault };

    fn from(fault: BuildError) -> RuleError {
        RuleError::Build(fault)
    }
}

impl From<AllocError> for PushError {
    ghost use Rattle.std.specs.Prelude.{◌≡◌};
    ghost use Rattle.cv_syntax.specs.declared.work.BuildError.TheVariants.{OutOfMemory};
    ghost use Rattle.cv_kernel.specs.declared.error.PushError.TheVariants.{Build};

    ghost from_gives = { λ _ e. e ≡ Build OutOfMemory };

    fn from(_: AllocError) -> PushError {
        PushError::Build(BuildError::OutOfMemory)
    }
}

impl From<RuleError> for PushError {
    ghost use Rattle.std.specs.Prelude.{◌≡◌};
    ghost use Rattle.cv_kernel.specs.Sequences.{push_fault};

    ghost from_gives = { λ fault e. e ≡ push_fault fault };

    fn from(fault: RuleError) -> PushError {
        match fault {
            RuleError::Refused(failure) => PushError::Refused(Refusal {
                condition: failure.condition,
                place: failure.place as u64,
            }),
            RuleError::Build(fault) => PushError::Build(fault),
        }
    }
}

impl From<CryptoFault> for PushError {
    ghost use Rattle.std.specs.Prelude.{◌≡◌};
    ghost use Rattle.cv_kernel.specs.Sequences.{reduce_fault};

    ghost from_gives = { λ fault e. e ≡ reduce_fault fault };

    fn from(fault: CryptoFault) -> PushError {
        match fault {
            CryptoFault::Refused(failure) => PushError::Refused(Refusal {
                condition: failure.condition,
                place: failure.place as u64,
            }),
            CryptoFault::Build(fault) => PushError::Build(fault),
        }
    }
}
