use cv_lex::LexError;
use std::alloc::AllocError;

/// Why tokens are no library. A fault carries the number of its token.
#[derive(Clone, Copy, Debug, PartialEq, Eq)]
pub enum LibraryError {
    /// No library begins with the tokens through this one.
    Syntax(u32),
    /// This name was defined before, or this parameter repeats in its list.
    Twice(u32),
    /// A use stands in a body.
    Inner(u32),
    /// Says nothing of the tokens.
    OutOfMemory,
}

/// Why a file isn't expanded.
#[derive(Clone, Copy, Debug, PartialEq, Eq)]
pub enum ExpandError {
    /// The name at this token has no definition.
    Unknown(u32),
    /// The definition of the name at this token has another number of parameters.
    Count(u32),
    /// So many tokens are too many, the end token left out.
    Tokens { count: u64 },
    /// Says nothing of the file.
    OutOfMemory,
}

/// Why what is given has no tokens.
#[derive(Clone, Copy, Debug, PartialEq, Eq)]
pub enum GivenError {
    /// The file has no tokens.
    Lex(LexError),
    /// The library has no tokens.
    LibraryLex(LexError),
    Library(LibraryError),
    Expand(ExpandError),
    /// The expanded file has so many tokens, the end token left out.
    Tokens { count: u64 },
    /// Says nothing of what is given.
    OutOfMemory,
}

impl From<AllocError> for LibraryError {
    ghost use Rattle.std.specs.Prelude.{◌≡◌};
    ghost use Rattle.cv_library.specs.declared.error.LibraryError.TheVariants.{OutOfMemory};

    ghost from_gives = { λ _ e. e ≡ OutOfMemory };

    fn from(_error: AllocError) -> LibraryError {
        LibraryError::OutOfMemory
    }
}

impl From<AllocError> for ExpandError {
    ghost use Rattle.std.specs.Prelude.{◌≡◌};
    ghost use Rattle.cv_library.specs.declared.error.ExpandError.TheVariants.{OutOfMemory};

    ghost from_gives = { λ _ e. e ≡ OutOfMemory };

    fn from(_error: AllocError) -> ExpandError {
        ExpandError::OutOfMemory
    }
}

impl From<LexError> for GivenError {
    ghost use Rattle.std.specs.Prelude.{◌≡◌};
    ghost use Rattle.cv_library.specs.Givens.{of_lex};

    ghost from_gives = { λ fault e. e ≡ of_lex fault };

    fn from(fault: LexError) -> GivenError {
        match fault {
            LexError::OutOfMemory => GivenError::OutOfMemory,
            other => GivenError::Lex(other),
        }
    }
}

impl From<LibraryError> for GivenError {
    ghost use Rattle.std.specs.Prelude.{◌≡◌};
    ghost use Rattle.cv_library.specs.Givens.{of_library_error};

    ghost from_gives = { λ fault e. e ≡ of_library_error fault };

    fn from(fault: LibraryError) -> GivenError {
        match fault {
            LibraryError::OutOfMemory => GivenError::OutOfMemory,
            other => GivenError::Library(other),
        }
    }
}

impl From<ExpandError> for GivenError {
    ghost use Rattle.std.specs.Prelude.{◌≡◌};
    ghost use Rattle.cv_library.specs.Givens.{of_expand_error};

    ghost from_gives = { λ fault e. e ≡ of_expand_error fault };

    fn from(fault: ExpandError) -> GivenError {
        match fault {
            ExpandError::OutOfMemory => GivenError::OutOfMemory,
            ExpandError::Tokens { count } => GivenError::Tokens { count },
            other => GivenError::Expand(other),
        }
    }
}
