ghost use Rattle.std.specs.Prelude.{◌≡◌};
ghost use Rattle.cv_report.specs.Codes.{code_of};

use cv_bound::{Cost, Sum};
use cv_context::products::Shape;
use cv_group::GroupFault;
use cv_lex::LexError;
use cv_library::{ExpandError, LibraryError};
use cv_parse::ParseError;
use cv_scope_rules::ScopeFault;
use cv_scope_rules::typing::TypeFault;
use cv_script::Step;
use cv_syntax::{File, Game, Work};

/// What the words ask for.
#[derive(Clone, Copy, Debug, PartialEq, Eq)]
pub enum Command {
    /// A proof of the file's queries, or of the one with this number alone, in at most so many moves, with or without further ones.
    Prove {
        moves: u32,
        more: bool,
        query: Option<u32>,
    },
    /// The games of the file's proof block, without verdicts.
    Games,
    /// The text of the sample with this number, or a proof of its queries.
    Sample {
        number: u32,
        prove: bool,
    },
    /// The words ask for nothing.
    Nothing,
}

/// An accepted step, with its cost and the game that it leads to; a step that closes a query leads to none. A cryptographic
/// step has the shape of its context.
#[derive(Drop)]
pub struct Entry {
    pub step: Step,
    pub cost: Cost,
    pub context: Option<Shape>,
    pub next: Option<Game>,
}

/// What is said of a query.
#[derive(Drop)]
pub enum Verdict {
    /// The advantage against it is at most this sum.
    Proved(Sum),
    NotProved,
}

/// Why a query is left open.
#[derive(Clone, Copy, Debug, PartialEq, Eq)]
pub enum Cause {
    /// The strategy proposes nothing more.
    Stuck,
    /// As many moves were made as the command allows.
    Moves,
    /// A step of the script, counted from 1, fails this condition at this place.
    StepRefused {
        step: u32,
        condition: u32,
        place: u64,
    },
    /// Every step of the script was accepted, and this query, counted from 1, is closed by none.
    NoClose(u32),
}

/// Why bytes are no file.
#[derive(Clone, Copy, Debug, PartialEq, Eq)]
pub enum FileFault {
    /// They have no tokens.
    Lex(LexError),
    /// Those of the library have none.
    LibraryLex(LexError),
    /// The tokens of the library are not those of one.
    Library(LibraryError),
    /// The uses in the file aren't those of the library's definitions.
    Expand(ExpandError),
    /// Their tokens are not those of a file, by the grammar or the rules of names.
    Parse(ParseError),
    /// No step begins with this token, which is the first of the file's proof block.
    Script(u32),
    /// The terms of the file aren't typed.
    Types(TypeFault),
    /// The game of the file breaks a rule of array scope.
    Scope(ScopeFault),
    /// The equivalence of this number, counted from 1, breaks this rule first. A collision is an equivalence.
    Group { equiv: u32, fault: GroupFault },
    /// The query of this number, counted from 1, may not be asked.
    Query(u32),
}

/// What passed its number.
#[derive(Clone, Copy, Debug, PartialEq, Eq)]
pub enum Which {
    /// The bytes of the file, or of the library.
    File,
    /// The tokens of the expanded file, which are so many.
    Tokens { count: u64 },
    /// The syntax nodes of the game, which are so many.
    Nodes { count: u32 },
    /// The syntax nodes on a path of the game.
    Depth { depth: u32 },
    /// The steps of a proof.
    Steps,
    /// The nodes of the pool, of which so many were asked for.
    Pool { need: u32 },
}

/// How a run ended.
#[derive(Clone, Copy, Debug, PartialEq, Eq)]
pub enum Status {
    Proved,
    /// No verdicts were asked for: each step of the proof block was accepted, or the text is that of a sample.
    Done,
    Open(Cause),
    /// The bytes are no file.
    FileRefused(FileFault),
    Words,
    Read,
    Write,
    Memory,
    Limit(Which),
}

impl Status {
    /// The exit code of the program.
    pub fn code(&self) -> u8
        ensures { result ≡ code_of self.now }
    {
        match self {
            Status::Proved => 0,
            Status::Done => 0,
            Status::Open(_) => 1,
            Status::FileRefused(_) => 2,
            Status::Words => 3,
            Status::Read => 4,
            Status::Write => 5,
            Status::Memory => 6,
            Status::Limit(_) => 7,
        }
    }
}

/// What was done. The steps that were taken aren't kept: what is told of them is put as they are found.
#[derive(Drop)]
pub struct Report {
    /// The names, the declarations and the trees of the file.
    pub work: Work,
    /// The file, where it was accepted.
    pub file: Option<File>,
    pub command: Command,
    /// The steps of the file's proof block, where it has one.
    pub script: Option<Vec<Step>>,
    /// What is said of each query of an accepted file, in order.
    pub verdicts: Vec<Verdict>,
    /// How the run ended, leaving faults of writing aside.
    pub status: Status,
}
