// The lexis: the tokens of a text, or its first fault.
#![tactic(auto)]

ghost use Rattle.std.specs.Prelude.{◌≡◌, ℕ, ◌<◌, List, Result, Ok, length, IfOk, IfErr};
ghost use Rattle.cv_lex.specs.Lexis.{Token, Lexed, tokens_of, Fails};

mod scan;
mod token_list;

use scan::{Piece, ascii_text, piece_of};
use std::alloc::{AllocError, Global};
pub use token_list::Tokens;

/// Why a text has no tokens: the first fault in it, with its offset in bytes, or that memory ran out.
#[derive(Clone, Copy, Debug, PartialEq, Eq)]
pub enum LexError {
    /// The byte there begins no token.
    Char(u32),
    /// The comment that begins there has no end; of nested ones it is the outermost.
    CommentOpen(u32),
    /// The number there is above 18446744073709551615; leading zeros don't matter.
    NumberWide(u32),
    /// Says nothing of the text.
    OutOfMemory,
}

/// What a token is. A number carries its value; the end token stands behind all others.
#[derive(Clone, Copy, Debug, PartialEq, Eq)]
pub enum TokenKind {
    Ident,
    Number(u64),
    Symbol,
    End,
}

impl From<AllocError> for LexError {
    ghost use Rattle.std.specs.Prelude.{◌≡◌};
    ghost use Rattle.cv_lex.specs.declared.LexError.TheVariants.{OutOfMemory};

    ghost from_gives = { λ _ e. e ≡ OutOfMemory };

    fn from(_error: AllocError) -> LexError {
        LexError::OutOfMemory
    }
}

/// The tokens of a text and the end token behind them, or the first fault. Takes time and memory linear in the text.
pub fn tokens(alloc: Global, bytes: &[u8]) -> Result<Tokens, LexError>
    requires { length bytes.now < 4294967295 }
    ensures ok { IfOk result (λ ts. tokens_of bytes.now ≡ Ok ts) }
    ensures err { IfErr result (λ e. Fails e (tokens_of bytes.now)) }
{
    let mut found = Tokens::new(alloc, bytes.len() as u32);
    let mut at = 0;
    'pieces: loop {
        let rest = &bytes[at..];
        match piece_of(rest) {
            Piece::Nothing => return Ok(found),
            Piece::Between(len) => at += len,
            Piece::Lexeme(kind, len) => {
                found.push(kind, ascii_text(&rest[..len]), at as u32)?;
                at += len;
            }
            Piece::OpenComment => return Err(LexError::CommentOpen(at as u32)),
            Piece::WideNumber => return Err(LexError::NumberWide(at as u32)),
            Piece::ForeignByte => return Err(LexError::Char(at as u32)),
        }
    }
}

/// The tokens that are computed are those of the lexis, and no others are.
pub fn lexis_is_computed()
    ensures is { (bs : List ℕ) → Lexed 0 bs (tokens_of bs) }
    ensures only { (bs : List ℕ) (r : Result (List Token) LexError) → Lexed 0 bs r
        → tokens_of bs ≡ r }
{}
