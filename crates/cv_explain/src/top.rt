// From words to text.
use crate::accepted::say_followed;
use crate::following::{Stopped, follow};
use crate::refused::{file_text_of, say_fault};
use crate::statuses::{say_ending, say_report, status_of};
use crate::words::{Asked, HELP, Request, VERSION, asked_by};
use cv_explain_source::{Page, Source};
use cv_outside::{Shelf, Sink};
use cv_report::outcome::fetch_status;
use cv_report::{Status, Which};
use std::alloc::{AllocError, Global};

/// The most bytes of a file.
const MOST_BYTES: usize = 1_048_576;

/// The most columns of a line.
const WIDTH: usize = 100;

/// Explains the bytes of a file with those of its library, as far as memory allows.
fn explain(
    page: &mut Page,
    source: Source,
    library: Option<Source>,
    asked: Asked,
) -> Result<Status, AllocError> {
    let more = library.map(|library| library.bytes);
    match follow(page.alloc(), source.bytes, more) {
        Ok(followed) => {
            if let Some(text) = file_text_of(page, source.bytes, more) {
                say_followed(page, source, &text, &followed, asked);
            }
            Ok(followed.walk.status)
        }
        Err(Stopped::Refused(fault)) => {
            say_fault(page, source, library, fault);
            Ok(status_of(fault))
        }
        Err(Stopped::Long) => {
            say_ending(page, Status::Limit(Which::File));
            Ok(Status::Limit(Which::File))
        }
        Err(Stopped::OutOfMemory) => Err(AllocError),
    }
}

/// Explains a file that was fetched, with its library, where one is named.
fn explain_with<F: Shelf>(
    page: &mut Page,
    source: Source,
    asked: Asked,
    shelf: &mut F,
) -> Result<Status, AllocError> {
    let Some(name) = asked.library else {
        return explain(page, source, None, asked);
    };
    match shelf.fetch(page.alloc(), name, MOST_BYTES) {
        Ok(bytes) => {
            let library = Source {
                name,
                bytes: &bytes,
            };
            explain(page, source, Some(library), asked)
        }
        Err(fault) => Ok(not_fetched(page, name, fetch_status(fault))),
    }
}

/// Says that a file wasn't fetched; how the run ends.
fn not_fetched(page: &mut Page, name: &str, status: Status) -> Status {
    page.say(name);
    page.say(": ");
    say_ending(page, status);
    status
}

/// Explains a file, with the end line of its report.
fn say_file<F: Shelf>(page: &mut Page, asked: Asked, shelf: &mut F) -> Result<Status, AllocError> {
    let status = match shelf.fetch(page.alloc(), asked.file, MOST_BYTES) {
        Ok(bytes) => {
            let source = Source {
                name: asked.file,
                bytes: &bytes,
            };
            explain_with(page, source, asked, shelf)?
        }
        Err(fault) => not_fetched(page, asked.file, fetch_status(fault)),
    };
    say_report(page, status);
    Ok(status)
}

/// What is said to words; how the run ends.
fn answer<F: Shelf>(
    page: &mut Page,
    words: &[String],
    shelf: &mut F,
) -> Result<Status, AllocError> {
    match asked_by(words) {
        Request::File(asked) => say_file(page, asked, shelf),
        Request::Help => {
            page.say(HELP);
            Ok(Status::Done)
        }
        Request::Version => {
            page.say(VERSION);
            Ok(Status::Done)
        }
        Request::Nothing => {
            say_ending(page, Status::Words);
            say_report(page, Status::Words);
            Ok(Status::Words)
        }
    }
}

/// Puts all of a text, and tells whether it was taken.
fn put<K: Sink>(sink: &mut K, text: &[u8]) -> bool {
    let mut done = 0;
    for _ in 0..text.len() {
        let rest = text.get(done..).unwrap_or(&[]);
        match sink.put(rest) {
            Ok(count) => done = done.saturating_add(count),
            Err(_) => return false,
        }
    }
    sink.flush().is_ok()
}

/// All that the program does; the exit code.
pub fn run<F: Shelf, K: Sink>(alloc: Global, words: &[String], shelf: &mut F, sink: &mut K) -> u8 {
    let mut page = Page::new(alloc);
    let Ok(status) = answer(&mut page, words, shelf) else {
        return Status::Memory.code();
    };
    let Ok(text) = page.folded(alloc, WIDTH) else {
        return Status::Memory.code();
    };
    if put(sink, &text) {
        status.code()
    } else {
        Status::Write.code()
    }
}
