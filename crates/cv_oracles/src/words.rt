// The words and symbols that are written for tokens, and the rows of what is written.

ghost use Rattle.std.specs.Prelude.{◌≡◌};
ghost use Rattle.cv_oracles.specs.Pieces.{kind_of as kind_by, pieces as pieces_of, text_of as text_by};

use crate::form::Form;
use cv_lex::TokenKind;

/// A word or a symbol that is written.
#[derive(Clone, Copy)]
pub enum Word {
    In,
    Out,
    New,
    Let,
    Yield,
    Channel,
    Open,
    Close,
    Comma,
    Semicolon,
    Colon,
    Dot,
    Equal,
    Bang,
    /// What no file has.
    Never,
}

/// What one token is written for.
#[derive(Clone, Copy)]
pub enum Piece {
    /// The token itself.
    Own,
    /// The name of the oracle that is defined.
    Oracle,
    The(Word),
}

// The text of a word.
pub fn text_of(word: Word) -> &'static str
    ensures { result.now ≡ text_by word }
{
    match word {
        Word::In => "in",
        Word::Out => "out",
        Word::New => "new",
        Word::Let => "let",
        Word::Yield => "yield",
        Word::Channel => "channel",
        Word::Open => "(",
        Word::Close => ")",
        Word::Comma => ",",
        Word::Semicolon => ";",
        Word::Colon => ":",
        Word::Dot => ".",
        Word::Equal => "=",
        Word::Bang => "!",
        Word::Never => ":=",
    }
}

// The kind of a word.
pub fn kind_of(word: Word) -> TokenKind
    ensures { result ≡ kind_by word }
{
    match word {
        Word::In | Word::Out | Word::New | Word::Let | Word::Yield | Word::Channel => {
            TokenKind::Ident
        }
        _ => TokenKind::Symbol,
    }
}

// What is written, piece by piece.
pub fn pieces(form: Form) -> &'static [Piece]
    ensures { result.now ≡ pieces_of form }
{
    use Piece::{Oracle, Own, The};
    use Word::{
        Bang, Close, Colon, Comma, Equal, In, Let, Never, New, Open, Out, Semicolon, Yield,
    };
    match form {
        Form::Itself => &[Own],
        Form::Refused => &[The(Never)],
        Form::Nothing => &[],
        Form::Bang => &[The(Bang)],
        Form::Receives => &[The(In), The(Open), Own, The(Comma)],
        Form::Begins => &[The(Close), The(Semicolon)],
        Form::Yields => &[The(Yield)],
        Form::Sends => &[The(Out), The(Open), Oracle, The(Comma)],
        Form::SendsNothing => &[
            The(Out),
            The(Open),
            Oracle,
            The(Comma),
            The(Open),
            The(Close),
            The(Close),
        ],
        Form::Draws => &[The(New), Own, The(Colon)],
        Form::Binds => &[The(Let), Own],
        Form::Equals => &[The(Equal)],
        Form::Into => &[The(In)],
        Form::Ends => &[The(Close), The(Close)],
    }
}
