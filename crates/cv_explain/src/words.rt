// The words of the command line.

/// A file to be explained, with its library, and of which game, the last one where none is given, and of which query, all open ones where
/// none is given.
#[derive(Clone, Copy)]
pub struct Asked<'a> {
    pub file: &'a str,
    pub library: Option<&'a str>,
    pub game: Option<u32>,
    pub query: Option<u32>,
}

/// What words ask for.
#[derive(Clone, Copy)]
pub enum Request<'a> {
    File(Asked<'a>),
    Help,
    Version,
    Nothing,
}

/// The screen of `--help`.
pub const HELP: &str = "cv_explain says in words what a report of cv names by numbers.

  bin/cv explain FILE               explains what cv says of FILE
  bin/cv explain FILE --lib LIB     the same of a file with uses of a library
  bin/cv explain FILE --game N      shows game N, and what is known there, in place of the last one
  bin/cv explain FILE --query K     says of query K alone what is known where its left event stands
  bin/cv explain --help             this screen
  bin/cv explain --version          what this is

FILE and LIB aren't empty and don't begin with `-`; N and K are numbers from 1.

Of a file that is refused it shows the line with a mark below the place, and says the rule.
Of a step that is refused it says the condition that isn't met, and shows the place as its line.
Of other files it shows the last game with the places of its constructs at the left, for each
query that is open what is known at each place of its left event, and which right events were
looked for, and for each equivalence and each key the instances, or why it can't be applied.
Remarks behind these change no verdict.

The last line has the end line of the report. The exit code is that of cv for the file:
  0 proved, or done        3 no command in the words      6 memory ran out
  1 a query is open        4 FILE can't be read           7 a limit is passed
  2 FILE is refused        5 the text can't be written
docs/TUTORIAL.md begins with a protocol in prose; docs/FORMATS.md has files and reports.
";

/// The screen of `--version`.
pub const VERSION: &str =
    "cv_explain, of the workspace of cv: files and reports are those of its docs/FORMATS.md.
What it says changes no verdict and no report; the verdicts are those of cv.
";

/// A number from 1.
fn number(text: &str) -> Option<u32> {
    match text.parse::<u32>() {
        Ok(0) => None,
        Ok(number) => Some(number),
        Err(_) => None,
    }
}

/// What a word is for.
#[derive(Clone, Copy)]
enum Place {
    File,
    Library,
    Game,
    Query,
}

/// What the word behind an option is for.
fn place_behind(option: &str) -> Option<Place> {
    match option {
        "--lib" => Some(Place::Library),
        "--game" => Some(Place::Game),
        "--query" => Some(Place::Query),
        _ => None,
    }
}

/// What is asked with another word, where it can stand in its place.
fn with_word<'a>(asked: Asked<'a>, place: Place, word: &'a str) -> Option<Asked<'a>> {
    let mut asked = asked;
    match place {
        Place::Game => asked.game = Some(number(word)?),
        Place::Query => asked.query = Some(number(word)?),
        Place::Library if !word.is_empty() && !word.starts_with("-") => asked.library = Some(word),
        Place::File if asked.file.is_empty() && !word.starts_with("-") => asked.file = word,
        _ => return None,
    }
    Some(asked)
}

/// The words but the first one, which names the program.
pub fn asked_by(words: &[String]) -> Request<'_> {
    let mut asked = Asked {
        file: "",
        library: None,
        game: None,
        query: None,
    };
    let mut place = Place::File;
    for word in words.iter().skip(1) {
        let word = word.as_str();
        if let Place::File = place {
            match word {
                "--help" => return Request::Help,
                "--version" => return Request::Version,
                _ => {}
            }
            if let Some(next) = place_behind(word) {
                place = next;
                continue;
            }
        }
        match with_word(asked, place, word) {
            Some(more) => asked = more,
            None => return Request::Nothing,
        }
        place = Place::File;
    }
    match place {
        Place::File if !asked.file.is_empty() => Request::File(asked),
        _ => Request::Nothing,
    }
}
