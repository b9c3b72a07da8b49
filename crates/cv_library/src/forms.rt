// The form of libraries: where their definitions stand.

ghost use Rattle.std.specs.Prelude.{◌≡◌, ◌+◌, ◌<◌, ◌≤◌, ◌^◌, All, Ok, length, IfErr, IfOk, IfSome};
ghost use Rattle.cv_library.specs.Libraries.{body_at, depth_behind as depth_after, place_at as place_of, places_of};
ghost use Rattle.cv_library.specs.Places.{IsInside, MissesForm};

use crate::error::LibraryError;
use crate::heads::head_end;
use crate::read::{is_end_at, text_at};
use cv_lex::Tokens;
use std::alloc::Global;

/// Where a definition stands: the numbers of its first word, of the brace before its body, and of the brace behind it.
#[derive(Clone, Copy)]
pub struct Place {
    pub word: u32,
    pub brace: u32,
    pub end: u32,
}

// How many braces more are open behind a text, or none where it closes the body.
fn depth_behind(depth: u32, text: &str) -> Option<u32>
    requires { depth + 1 < 2 ^ 32 }
    ensures value { result ≡ depth_after depth text.now }
    ensures few { IfSome result (λ d. d ≤ depth + 1) }
{
    if text == "{" {
        Some(depth + 1)
    } else if text == "}" {
        if depth == 0 { None } else { Some(depth - 1) }
    } else {
        Some(depth)
    }
}

// The number of the brace that closes the body which begins at a token, or of the end token.
fn body_end(tokens: &Tokens, from: u32) -> Result<u32, u32>
    ensures value { result ≡ body_at tokens.now from }
    ensures within { IfOk result (λ k. (from ≤ k) × (k < length tokens.now)) }
{
    let _tokens = tokens.len();
    let mut depth = 0;
    let mut k = from;
    'body: while !is_end_at(tokens, k) {
        match depth_behind(depth, text_at(tokens, k)) {
            None => return Ok(k),
            Some(more) => {
                depth = more;
                k += 1;
            }
        }
    }
    Err(k)
}

// Where the definition stands that begins at a token, or the first token that doesn't fit.
fn place_at(tokens: &Tokens, word: u32) -> Result<Place, u32>
    requires { word < length tokens.now }
    ensures value { result ≡ place_of tokens.now word }
    ensures inside { IfOk result (λ p. (p.word ≡ word) × IsInside tokens.now p) }
{
    if tokens.text(word) == "define" {
        let brace = head_end(tokens, word)?;
        if text_at(tokens, brace) == "{" {
            let _tokens = tokens.len();
            let end = body_end(tokens, brace + 1)?;
            return Ok(Place { word, brace, end });
        }
        return Err(brace);
    }
    Err(word)
}

// Where the definitions of a library stand.
pub fn places(alloc: Global, tokens: &Tokens) -> Result<Vec<Place>, LibraryError>
    ensures ok { IfOk result (λ ps. places_of tokens.now ≡ Ok ps.items) }
    ensures err { IfErr result (λ e. MissesForm e tokens.now) }
    ensures inside { IfOk result (λ ps. All (IsInside tokens.now) ps.items) }
    ensures few { IfOk result (λ ps. length ps.items ≤ length tokens.now) }
{
    let _tokens = tokens.len();
    let mut found = Vec::new(alloc);
    let mut at = 0;
    'definitions: while !is_end_at(tokens, at) {
        match place_at(tokens, at) {
            Err(k) => return Err(LibraryError::Syntax(k)),
            Ok(place) => {
                let Ok(()) = found.push(place) else {
                    return Err(LibraryError::OutOfMemory);
                };
                at = place.end + 1;
            }
        }
    }
    Ok(found)
}
