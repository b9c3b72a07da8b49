use cv_syntax::{BuildError, PoolError};
use std::alloc::AllocError;

/// Why tokens are no script. A fault carries the number of its token, counted from 0.
#[derive(Clone, Copy, Debug, PartialEq, Eq)]
pub enum ScriptError {
    /// No script begins with the tokens through this one, or brackets and syntax nodes stand too deep here.
    Script(u32),
    /// The trees are too large, or memory ran out.
    Build(BuildError),
}

impl From<AllocError> for ScriptError {
    ghost use Rattle.std.specs.Prelude.{◌≡◌};
    ghost use Rattle.cv_syntax.specs.declared.work.BuildError.TheVariants.{OutOfMemory};
    ghost use Rattle.cv_script.specs.declared.reader.error.ScriptError.TheVariants.{Build};

    ghost from_gives = { λ _ e. e ≡ Build OutOfMemory };

    fn from(_: AllocError) -> ScriptError {
        ScriptError::Build(BuildError::OutOfMemory)
    }
}

impl From<PoolError> for ScriptError {
    ghost use Rattle.cv_script.specs.reader.Stages.{of_pool};
    ghost use Rattle.std.specs.Prelude.{◌≡◌};

    ghost from_gives = { λ fault e. e ≡ of_pool fault };

    fn from(fault: PoolError) -> ScriptError {
        match fault {
            PoolError::Full { need } => ScriptError::Build(BuildError::Full { need }),
            PoolError::OutOfMemory => ScriptError::Build(BuildError::OutOfMemory),
        }
    }
}
