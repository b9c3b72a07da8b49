// Files that are refused.
use crate::following::is_short;
use crate::statuses::{say_ending, status_of};
use cv_accept::FileError;
use cv_explain_refusals::{
    Known, file_of, say_grammar, say_group, say_lexis, say_query, say_scope, say_script, say_types,
};
use cv_explain_source::{Page, Source, Text, positions_of};
use cv_library::{ExpandError, LibraryError, tokens_given};
use cv_parse::file;
use cv_syntax::{File, Work};

/// The most nodes of the pool.
const MOST_NODES: u32 = 16_000_000;

/// The most bytes of a file, and of a library.
const MOST_BYTES: usize = 1_048_576;

/// The tokens of a file with its library, where there are some.
fn text_of(page: &mut Page, bytes: &[u8], library: Option<&[u8]>) -> Option<Text> {
    if bytes.len() > MOST_BYTES || !is_short(library) {
        return None;
    }
    match tokens_given(page.alloc(), bytes, library) {
        Ok(found) => {
            let text = Text::of(page.alloc(), found);
            page.got(text)
        }
        Err(_) => None,
    }
}

/// The tokens of the file for which these stand, with their places in these.
fn text_in(page: &mut Page, given: &Text) -> Option<Text> {
    let text = file_of(page.alloc(), given);
    page.got(text)
}

/// The tokens of the file for which a file with its library stands, where there are some, with their places in the file.
pub fn file_text_of(page: &mut Page, bytes: &[u8], library: Option<&[u8]>) -> Option<Text> {
    match text_of(page, bytes, library) {
        Some(given) => text_in(page, &given),
        None => None,
    }
}

/// Says what is wrong with a file that was read.
fn say_read(
    page: &mut Page,
    source: Source,
    text: &Text,
    work: &Work,
    read: File,
    fault: FileError,
) {
    let found = positions_of(page.alloc(), work, read, text);
    if let Some(positions) = page.got(found) {
        let known = Known {
            source,
            text,
            work,
            file: read,
            positions: &positions,
        };
        match fault {
            FileError::Types(fault) => say_types(page, known, fault),
            FileError::Scope(fault) => say_scope(page, known, fault),
            FileError::Group { equiv, fault } => say_group(page, known, equiv, fault),
            FileError::Query(k) => say_query(page, known, k),
            _ => {}
        }
    }
}

/// Says what is wrong with a file that can be read as one.
fn say_checked(page: &mut Page, source: Source, text: &Text, fault: FileError) {
    let mut work = Work::new(page.alloc(), MOST_NODES);
    let found = text.tokens();
    if found.len() < 200_000_000 {
        if let Ok(read) = file(page.alloc(), &mut work, found) {
            say_read(page, source, text, &work, read, fault);
        }
    }
}

/// Says what is wrong with a token of a file that has tokens.
fn say_token(page: &mut Page, source: Source, token: u32, words: &str) {
    if let Some(text) = text_of(page, source.bytes, None) {
        let mut said = Page::new(page.alloc());
        said.quoted(text.word(token));
        said.say(words);
        source.point(page, text.offset(token), &said);
    }
}

/// The token of a fault of a library, with what is wrong there.
fn library_words(fault: LibraryError) -> Option<(u32, &'static str)> {
    match fault {
        LibraryError::Syntax(token) => Some((
            token,
            " can't stand here: a library has definitions alone, `define NAME(..) { .. }`",
        )),
        LibraryError::Twice(token) => Some((
            token,
            " stands twice: as the name of a definition, or among its parameters",
        )),
        LibraryError::Inner(token) => Some((token, ": a body uses no other definition")),
        LibraryError::OutOfMemory => None,
    }
}

/// The token of a fault of a use, with what is wrong there.
fn use_words(fault: ExpandError) -> Option<(u32, &'static str)> {
    match fault {
        ExpandError::Unknown(token) => Some((
            token,
            ": the library has no definition of this name",
        )),
        ExpandError::Count(token) => Some((
            token,
            ": this definition has another number of parameters",
        )),
        ExpandError::Tokens { .. } | ExpandError::OutOfMemory => None,
    }
}

/// Says what is wrong with a file of these tokens.
fn say_tokens(page: &mut Page, source: Source, text: &Text, fault: FileError) {
    match fault {
        FileError::Parse(fault) => say_grammar(page, source, text, fault),
        FileError::Script(token) => say_script(page, source, text, token),
        _ => {
            if let Some(file) = text_in(page, text) {
                say_checked(page, source, &file, fault);
            }
        }
    }
}

/// Says what is wrong with the tokens that a file has, with those of the bodies that stand for its uses.
fn say_given(page: &mut Page, source: Source, library: Option<Source>, fault: FileError) {
    let more = library.map(|library| library.bytes);
    if let Some(text) = text_of(page, source.bytes, more) {
        say_tokens(page, source, &text, fault);
    }
}

/// Says what is wrong with a file that is refused. What stands in a body of its library is shown at the use.
pub fn say_fault(page: &mut Page, source: Source, library: Option<Source>, fault: FileError) {
    say_ending(page, status_of(fault));
    let other = library.unwrap_or(source);
    let (place, found) = match fault {
        FileError::Lex(fault) => return say_lexis(page, source, fault),
        FileError::LibraryLex(fault) => return say_lexis(page, other, fault),
        FileError::Library(fault) => (other, library_words(fault)),
        FileError::Expand(fault) => (source, use_words(fault)),
        fault => return say_given(page, source, library, fault),
    };
    if let Some((token, words)) = found {
        say_token(page, place, token, words);
    }
}
