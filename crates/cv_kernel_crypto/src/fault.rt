ghost use Rattle.std.specs.Prelude.{◌≡◌};

use cv_match::MatchFault;
use cv_syntax::{BuildError, PoolError};
use std::alloc::AllocError;

/// The condition of a cryptographic step that fails, and the place where it does; 0, where it names none.
#[derive(Clone, Copy, Debug, PartialEq, Eq)]
pub struct Failure {
    pub condition: u32,
    pub place: u32,
}

/// Why a cryptographic step leads to no game.
#[derive(Clone, Copy, Debug, PartialEq, Eq)]
pub enum CryptoFault {
    /// The first of its conditions that fails.
    Refused(Failure),
    /// The next game passes a limit, or the pool has no room for it.
    Build(BuildError),
}

impl From<AllocError> for CryptoFault {
    ghost use Rattle.std.specs.Prelude.{◌≡◌};
    ghost use Rattle.cv_syntax.specs.declared.work.BuildError.TheVariants.{OutOfMemory};
    ghost use Rattle.cv_kernel_crypto.specs.declared.fault.CryptoFault.TheVariants.{Build};

    ghost from_gives = { λ _ e. e ≡ Build OutOfMemory };

    fn from(_: AllocError) -> CryptoFault {
        CryptoFault::Build(BuildError::OutOfMemory)
    }
}

impl From<BuildError> for CryptoFault {
    ghost use Rattle.std.specs.Prelude.{◌≡◌};
    ghost use Rattle.cv_kernel_crypto.specs.declared.fault.CryptoFault.TheVariants.{Build};

    ghost from_gives = { λ fault e. e ≡ Build fault };

    fn from(fault: BuildError) -> CryptoFault {
        CryptoFault::Build(fault)
    }
}

impl From<PoolError> for CryptoFault {
    ghost use Rattle.std.specs.Prelude.{◌≡◌};
    ghost use Rattle.cv_kernel_crypto.specs.Faults.{of_pool};

    ghost from_gives = { λ fault e. e ≡ of_pool fault };

    fn from(fault: PoolError) -> CryptoFault {
        match fault {
            PoolError::Full { need } => CryptoFault::Build(BuildError::Full { need }),
            PoolError::OutOfMemory => CryptoFault::Build(BuildError::OutOfMemory),
        }
    }
}

impl From<MatchFault> for CryptoFault {
    ghost use Rattle.std.specs.Prelude.{◌≡◌};
    ghost use Rattle.cv_kernel_crypto.specs.Faults.{fault_of};

    ghost from_gives = { λ fault e. e ≡ fault_of fault };

    fn from(fault: MatchFault) -> CryptoFault {
        match fault {
            MatchFault::NotOneSite => refused(1, 0),
            MatchFault::Use(place) => refused(2, place),
            MatchFault::InCondition(place) => refused(3, place),
            MatchFault::CoinUse(place) => refused(4, place),
            MatchFault::KeyInArgument(place) => refused(5, place),
            MatchFault::OutOfMemory => CryptoFault::Build(BuildError::OutOfMemory),
        }
    }
}

/// A condition that fails at a place.
pub(crate) fn refused(condition: u32, place: u32) -> CryptoFault
    ensures { result ≡ CryptoFault.Refused (record { condition = condition; place = place }) }
{
    CryptoFault::Refused(Failure { condition, place })
}
