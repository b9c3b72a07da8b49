use cv_group::{EquivFault, GroupFault};
use cv_lex::LexError;
use cv_library::{ExpandError, GivenError, LibraryError};
use cv_parse::ParseError;
use cv_query_form::QueryFault;
use cv_scope_rules::ScopeFault;
use cv_scope_rules::typing::TypeFault;
use cv_script::reader::ScriptError;
use cv_syntax::BuildError;
use std::alloc::AllocError;

/// Why what is given isn't taken as a file.
#[derive(Clone, Copy, Debug, PartialEq, Eq)]
pub enum FileError {
    /// The file has no tokens.
    Lex(LexError),
    /// The library has no tokens.
    LibraryLex(LexError),
    /// The tokens of the library are none.
    Library(LibraryError),
    /// A use in the file can't be expanded.
    Expand(ExpandError),
    /// The expanded file has so many tokens, the end token left out, and these are too many.
    Tokens { count: u64 },
    /// The tokens are no file.
    Parse(ParseError),
    /// They are a file whose proof block is no script: none goes through this token.
    Script(u32),
    /// They are a file whose terms aren't typed.
    Types(TypeFault),
    /// They are a file whose game breaks a rule of array scope.
    Scope(ScopeFault),
    /// They are a file whose equivalence of this number, counted from 1, is not accepted.
    Group { equiv: u32, fault: GroupFault },
    /// They are a file whose query of this number, counted from 1, may not be asked.
    Query(u32),
    /// The pool has no room for so many nodes more, those of the steps of the file's proof block.
    Room { need: u32 },
    OutOfMemory,
}

impl From<AllocError> for FileError {
    ghost use Rattle.std.specs.Prelude.{◌≡◌};
    ghost use Rattle.cv_accept.specs.declared.error.FileError.TheVariants.{OutOfMemory};

    ghost from_gives = { λ _ e. e ≡ OutOfMemory };

    fn from(_: AllocError) -> FileError {
        FileError::OutOfMemory
    }
}

impl From<GivenError> for FileError {
    ghost use Rattle.cv_accept.specs.Accepted.{of_given};
    ghost use Rattle.std.specs.Prelude.{◌≡◌};

    ghost from_gives = { λ fault e. e ≡ of_given fault };

    fn from(fault: GivenError) -> FileError {
        match fault {
            GivenError::Lex(fault) => FileError::Lex(fault),
            GivenError::LibraryLex(fault) => FileError::LibraryLex(fault),
            GivenError::Library(fault) => FileError::Library(fault),
            GivenError::Expand(fault) => FileError::Expand(fault),
            GivenError::Tokens { count } => FileError::Tokens { count },
            GivenError::OutOfMemory => FileError::OutOfMemory,
        }
    }
}

impl From<ParseError> for FileError {
    ghost use Rattle.cv_accept.specs.Faults.{of_parse};
    ghost use Rattle.std.specs.Prelude.{◌≡◌};

    ghost from_gives = { λ fault e. e ≡ of_parse fault };

    fn from(fault: ParseError) -> FileError {
        match fault {
            ParseError::Build(BuildError::OutOfMemory) => FileError::OutOfMemory,
            other => FileError::Parse(other),
        }
    }
}

impl From<ScriptError> for FileError {
    ghost use Rattle.cv_accept.specs.Faults.{of_script};
    ghost use Rattle.std.specs.Prelude.{◌≡◌};

    ghost from_gives = { λ fault e. e ≡ of_script fault };

    fn from(fault: ScriptError) -> FileError {
        match fault {
            ScriptError::Script(token) => FileError::Script(token),
            ScriptError::Build(BuildError::Full { need }) => FileError::Room { need },
            ScriptError::Build(_) => FileError::OutOfMemory,
        }
    }
}

impl From<TypeFault> for FileError {
    ghost use Rattle.cv_accept.specs.Faults.{of_type};
    ghost use Rattle.std.specs.Prelude.{◌≡◌};

    ghost from_gives = { λ fault e. e ≡ of_type fault };

    fn from(fault: TypeFault) -> FileError {
        match fault {
            TypeFault::OutOfMemory => FileError::OutOfMemory,
            other => FileError::Types(other),
        }
    }
}

impl From<ScopeFault> for FileError {
    ghost use Rattle.cv_accept.specs.Faults.{of_scope};
    ghost use Rattle.std.specs.Prelude.{◌≡◌};

    ghost from_gives = { λ fault e. e ≡ of_scope fault };

    fn from(fault: ScopeFault) -> FileError {
        match fault {
            ScopeFault::OutOfMemory => FileError::OutOfMemory,
            other => FileError::Scope(other),
        }
    }
}

impl From<EquivFault> for FileError {
    ghost use Rattle.cv_accept.specs.Faults.{of_group};
    ghost use Rattle.std.specs.Prelude.{◌≡◌};

    ghost from_gives = { λ refused e. e ≡ of_group refused.equiv refused.fault };

    fn from(refused: EquivFault) -> FileError {
        match refused.fault {
            GroupFault::OutOfMemory => FileError::OutOfMemory,
            fault => FileError::Group {
                equiv: refused.equiv,
                fault,
            },
        }
    }
}

impl From<QueryFault> for FileError {
    ghost use Rattle.cv_accept.specs.Faults.{of_query};
    ghost use Rattle.std.specs.Prelude.{◌≡◌};

    ghost from_gives = { λ fault e. e ≡ of_query fault };

    fn from(fault: QueryFault) -> FileError {
        match fault {
            QueryFault::Query(k) => FileError::Query(k),
            QueryFault::OutOfMemory => FileError::OutOfMemory,
        }
    }
}
