// How runs end, and the end lines of their reports.
use cv_accept::FileError;
use cv_explain_source::Page;
use cv_parse::ParseError;
use cv_report::outcome::refused;
use cv_report::{Command, FileFault, Status, Which, rest_text};
use cv_syntax::{BuildError, Work};

/// How tokens that are no file end a run.
fn parse_ended(fault: ParseError) -> Status {
    match fault {
        ParseError::Build(BuildError::Nodes { count }) => Status::Limit(Which::Nodes { count }),
        ParseError::Build(BuildError::Depth { depth }) => Status::Limit(Which::Depth { depth }),
        ParseError::Build(BuildError::Full { need }) => Status::Limit(Which::Pool { need }),
        ParseError::Build(BuildError::OutOfMemory) => Status::Memory,
        other => Status::FileRefused(FileFault::Parse(other)),
    }
}

/// How a refusal of bytes ends a run.
pub fn status_of(fault: FileError) -> Status {
    match fault {
        FileError::Lex(fault) => Status::FileRefused(FileFault::Lex(fault)),
        FileError::LibraryLex(fault) => Status::FileRefused(FileFault::LibraryLex(fault)),
        FileError::Library(fault) => Status::FileRefused(FileFault::Library(fault)),
        FileError::Expand(fault) => Status::FileRefused(FileFault::Expand(fault)),
        FileError::Tokens { count } => Status::Limit(Which::Tokens { count }),
        FileError::Parse(fault) => parse_ended(fault),
        FileError::Script(token) => Status::FileRefused(FileFault::Script(token)),
        FileError::Types(fault) => Status::FileRefused(FileFault::Types(fault)),
        FileError::Scope(fault) => Status::FileRefused(FileFault::Scope(fault)),
        FileError::Group { equiv, fault } => Status::FileRefused(FileFault::Group { equiv, fault }),
        FileError::Query(k) => Status::FileRefused(FileFault::Query(k)),
        FileError::Room { need } => Status::Limit(Which::Pool { need }),
        FileError::OutOfMemory => Status::Memory,
    }
}

/// What a limit is, and how much there would be.
fn limit_words(which: Which) -> (&'static str, Option<u64>) {
    match which {
        Which::File => ("the file or its library has more than 1048576 bytes", None),
        Which::Tokens { count } => (
            "with the bodies of its library a file has at most 1048576 tokens, and this one would have ",
            Some(count),
        ),
        Which::Nodes { count } => (
            "a game has at most 50000 syntax nodes, and this one would have ",
            Some(u64::from(count)),
        ),
        Which::Depth { depth } => (
            "a path of a game has at most 200 syntax nodes, and one would have ",
            Some(u64::from(depth)),
        ),
        Which::Steps => ("2000 steps were taken, and there is another", None),
        Which::Pool { need } => (
            "four times the weight of all trees, with those of the steps, is at most 16000000, and asked for were ",
            Some(u64::from(need)),
        ),
    }
}

/// Says how a run ended that a limit, a fault or want of memory ended, and nothing of other runs.
pub fn say_ending(page: &mut Page, status: Status) {
    match status {
        Status::Limit(which) => {
            let (words, count) = limit_words(which);
            page.say("limit: ");
            match count {
                Some(count) => page.number(words, count),
                None => page.say(words),
            }
            page.say("\n");
        }
        Status::Read => page.say("the file can't be read: it isn't there, or it may not be read\n"),
        Status::Memory => page.say("memory ran out\n"),
        Status::Words => page.say("the words are no command; bin/cv explain --help has them\n"),
        _ => {}
    }
}

/// Says the end line of a report.
pub fn say_report(page: &mut Page, status: Status) {
    let alloc = page.alloc();
    let report = refused(alloc, Work::new(alloc, 0), Command::Nothing, status);
    page.say("report: ");
    let shown = rest_text(alloc, &report);
    let line = page.took(shown);
    page.add(&line);
}
