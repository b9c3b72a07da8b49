use cv_parse_terms::ReadError;
use cv_syntax::{BuildError, PoolError};
use std::alloc::AllocError;

/// Why tokens are no file. A fault carries the number of its token, counted from 0.
#[derive(Clone, Copy, Debug, PartialEq, Eq)]
pub enum ParseError {
    /// No file begins with the tokens through this one.
    Syntax(u32),
    /// Brackets and syntax nodes stand too deep here.
    Nesting(u32),
    /// A name is declared that is known already.
    NameTwice(u32),
    /// A name that isn't known is asked for.
    NameUnknown(u32),
    /// The game or the trees are too large, or memory ran out.
    Build(BuildError),
}

impl From<AllocError> for ParseError {
    ghost use Rattle.std.specs.Prelude.{◌≡◌};
    ghost use Rattle.cv_syntax.specs.declared.work.BuildError.TheVariants.{OutOfMemory};
    ghost use Rattle.cv_parse.specs.declared.error.ParseError.TheVariants.{Build};

    ghost from_gives = { λ _ e. e ≡ Build OutOfMemory };

    fn from(_: AllocError) -> ParseError {
        ParseError::Build(BuildError::OutOfMemory)
    }
}

impl From<BuildError> for ParseError {
    ghost use Rattle.std.specs.Prelude.{◌≡◌};
    ghost use Rattle.cv_parse.specs.declared.error.ParseError.TheVariants.{Build};

    ghost from_gives = { λ fault e. e ≡ Build fault };

    fn from(fault: BuildError) -> ParseError {
        ParseError::Build(fault)
    }
}

impl From<ReadError> for ParseError {
    ghost use Rattle.cv_parse.specs.Faults.{of_read};
    ghost use Rattle.std.specs.Prelude.{◌≡◌};

    ghost from_gives = { λ fault e. e ≡ of_read fault };

    fn from(fault: ReadError) -> ParseError {
        match fault {
            ReadError::Syntax(token) => ParseError::Syntax(token),
            ReadError::Nesting(token) => ParseError::Nesting(token),
            ReadError::OutOfMemory => ParseError::Build(BuildError::OutOfMemory),
        }
    }
}

impl From<PoolError> for ParseError {
    ghost use Rattle.cv_parse.specs.Faults.{of_pool};
    ghost use Rattle.std.specs.Prelude.{◌≡◌};

    ghost from_gives = { λ fault e. e ≡ of_pool fault };

    fn from(fault: PoolError) -> ParseError {
        match fault {
            PoolError::Full { need } => ParseError::Build(BuildError::Full { need }),
            PoolError::OutOfMemory => ParseError::Build(BuildError::OutOfMemory),
        }
    }
}
