// What is written for a token of a process, and what is awaited behind it.

ghost use Rattle.std.specs.Prelude.{◌≡◌};
ghost use Rattle.cv_oracles.specs.Steps.{binding_step as binding_of, head_step as head_of, input_step as input_of, kept as kept_as, line_step as line_of, loop_step as loop_of, output_step as output_of, payload_step as payload_of, returned as returned_by, rest_step as rest_of, step as step_of, test_only};

use crate::form::{Form, Mode};
use crate::region::{Region, is_barred, is_name};
use cv_lex::TokenKind;

// More parentheses than this aren't counted: so deep nothing stands in a file.
const MOST_OPEN: u32 = 1000;

// A token as it is, where it may stand in a process.
fn kept(text: &str) -> Form
    ensures { result ≡ kept_as text.now }
{
    if is_barred(Region::Process, text) {
        Form::Refused
    } else {
        Form::Itself
    }
}

// Where one text alone may stand.
fn only(text: &str, wanted: &str, form: Form, mode: Mode) -> (Form, Mode)
    ensures { result ≡ test_only text.now wanted.now form mode }
{
    if text == wanted {
        (form, mode)
    } else {
        (Form::Refused, Mode::Behind)
    }
}

fn input_step(kind: TokenKind, text: &str) -> (Form, Mode)
    ensures { result ≡ input_of kind text.now }
{
    if text == "(" {
        (Form::Itself, Mode::Input)
    } else if text == "foreach" {
        (Form::Bang, Mode::Index)
    } else if is_name(kind, text) {
        (Form::Receives, Mode::Head)
    } else if matches!(kind, TokenKind::Number(_)) {
        (Form::Itself, Mode::Behind)
    } else {
        (Form::Refused, Mode::Behind)
    }
}

// Behind `foreach`.
fn loop_step(mode: Mode, text: &str) -> (Form, Mode)
    ensures { result ≡ loop_of mode text.now }
{
    match mode {
        Mode::Index => (kept(text), Mode::Below),
        Mode::Below => (kept(text), Mode::Bound),
        Mode::Bound => (kept(text), Mode::Do),
        _ => only(text, "do", Form::Nothing, Mode::Input),
    }
}

// Behind the name of an oracle.
fn head_step(mode: Mode, text: &str) -> (Form, Mode)
    ensures { result ≡ head_of mode text.now }
{
    match mode {
        Mode::Head => only(text, "(", Form::Itself, Mode::Variables),
        Mode::Variables => {
            if text == ")" {
                (Form::Itself, Mode::Defines)
            } else {
                (kept(text), Mode::Variables)
            }
        }
        _ => only(text, ":=", Form::Begins, Mode::Output),
    }
}

// The word `return`, before another text.
fn returned(next: &str) -> (Form, Mode)
    ensures { result ≡ returned_by next.now }
{
    if next == "(" {
        (Form::Sends, Mode::Payload(0))
    } else {
        (Form::SendsNothing, Mode::Behind)
    }
}

fn output_step(kind: TokenKind, text: &str, next: &str) -> (Form, Mode)
    ensures { result ≡ output_of kind text.now next.now }
{
    if text == "(" {
        (Form::Itself, Mode::Output)
    } else if text == "end" {
        (Form::Yields, Mode::Behind)
    } else if text == "return" {
        returned(next)
    } else if text == "event" {
        (Form::Itself, Mode::Line)
    } else if text == "if" || text == "find" {
        (Form::Itself, Mode::Test)
    } else if !is_name(kind, text) {
        (Form::Refused, Mode::Behind)
    } else if next == "<-" {
        (Form::Draws, Mode::Arrow)
    } else {
        (Form::Binds, Mode::Colon)
    }
}

// Up to the end of a line or of a test.
fn line_step(mode: Mode, text: &str) -> (Form, Mode)
    ensures { result ≡ line_of mode text.now }
{
    match mode {
        Mode::Arrow => (Form::Nothing, Mode::Random),
        Mode::Random => only(text, "R", Form::Nothing, Mode::Line),
        Mode::Line => {
            if text == ";" {
                (Form::Itself, Mode::Output)
            } else {
                (kept(text), Mode::Line)
            }
        }
        _ => {
            if text == "then" {
                (Form::Itself, Mode::Output)
            } else {
                (kept(text), Mode::Test)
            }
        }
    }
}

// Behind a variable that is bound.
fn binding_step(mode: Mode, text: &str) -> (Form, Mode)
    ensures { result ≡ binding_of mode text.now }
{
    match mode {
        Mode::Colon => (kept(text), Mode::OfType),
        Mode::OfType => (kept(text), Mode::Gets),
        Mode::Gets => only(text, "<-", Form::Equals, Mode::Term),
        _ => {
            if text == ";" {
                (Form::Into, Mode::Output)
            } else {
                (kept(text), Mode::Term)
            }
        }
    }
}

// In what is returned.
fn payload_step(count: u32, text: &str) -> (Form, Mode)
    ensures { result ≡ payload_of count text.now }
{
    if text == "(" {
        let more = if count < MOST_OPEN { count + 1 } else { count };
        (Form::Itself, Mode::Payload(more))
    } else if text == ")" {
        if count <= 1 {
            (Form::Ends, Mode::Behind)
        } else {
            (Form::Itself, Mode::Payload(count - 1))
        }
    } else {
        (kept(text), Mode::Payload(count))
    }
}

// Behind a process.
fn rest_step(text: &str) -> (Form, Mode)
    ensures { result ≡ rest_of text.now }
{
    if text == ";" || text == "|" {
        (Form::Itself, Mode::Input)
    } else if text == "else" {
        (Form::Itself, Mode::Output)
    } else if text == "orfind" {
        (Form::Itself, Mode::Test)
    } else {
        (kept(text), Mode::Behind)
    }
}

/// What is written for a token before another text, and what is awaited behind it.
pub fn step(mode: Mode, kind: TokenKind, text: &str, next: &str) -> (Form, Mode)
    ensures { result ≡ step_of mode kind text.now next.now }
{
    match mode {
        Mode::Input => input_step(kind, text),
        Mode::Index | Mode::Below | Mode::Bound | Mode::Do => loop_step(mode, text),
        Mode::Head | Mode::Variables | Mode::Defines => head_step(mode, text),
        Mode::Output => output_step(kind, text, next),
        Mode::Arrow | Mode::Random | Mode::Line | Mode::Test => line_step(mode, text),
        Mode::Colon | Mode::OfType | Mode::Gets | Mode::Term => binding_step(mode, text),
        Mode::Payload(count) => payload_step(count, text),
        Mode::Behind => rest_step(text),
    }
}
