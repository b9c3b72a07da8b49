ghost use Rattle.std.specs.Prelude.{◌≡◌};
ghost use Rattle.cv.specs.Faults.{parse_ended, status_of as ended_by};

use cv_accept::FileError;
use cv_parse::ParseError;
use cv_report::{FileFault, Status, Which};
use cv_syntax::BuildError;

/// How tokens that are no file end a run.
fn parse_ended(fault: ParseError) -> Status
    ensures { result ≡ parse_ended fault }
{
    match fault {
        ParseError::Build(BuildError::Nodes { count }) => Status::Limit(Which::Nodes { count }),
        ParseError::Build(BuildError::Depth { depth }) => Status::Limit(Which::Depth { depth }),
        ParseError::Build(BuildError::Full { need }) => Status::Limit(Which::Pool { need }),
        ParseError::Build(BuildError::OutOfMemory) => Status::Memory,
        other => Status::FileRefused(FileFault::Parse(other)),
    }
}

/// How a refusal of what is read ends a run.
pub fn status_of(fault: FileError) -> Status
    ensures { result ≡ ended_by fault }
{
    match fault {
        FileError::Lex(fault) => Status::FileRefused(FileFault::Lex(fault)),
        FileError::LibraryLex(fault) => Status::FileRefused(FileFault::LibraryLex(fault)),
        FileError::Library(fault) => Status::FileRefused(FileFault::Library(fault)),
        FileError::Expand(fault) => Status::FileRefused(FileFault::Expand(fault)),
        FileError::Tokens { count } => Status::Limit(Which::Tokens { count }),
        FileError::Parse(fault) => parse_ended(fault),
        FileError::Script(token) => Status::FileRefused(FileFault::Script(token)),
        FileError::Types(fault) => Status::FileRefused(FileFault::Types(fault)),
        FileError::Scope(fault) => Status::FileRefused(FileFault::Scope(fault)),
        FileError::Group { equiv, fault } => {
            Status::FileRefused(FileFault::Group { equiv, fault })
        }
        FileError::Query(k) => Status::FileRefused(FileFault::Query(k)),
        FileError::Room { need } => Status::Limit(Which::Pool { need }),
        FileError::OutOfMemory => Status::Memory,
    }
}
