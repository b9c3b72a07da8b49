// The writing of tokens behind others.

ghost use Rattle.std.specs.Prelude.{◌≡◌, ◌+◌, ◌-◌, ◌<◌, ◌≤◌, ◌∷◌, [], List, None, Some, length, map, option_map, slice_range, string_bytes, IfOk, IfSome, OnOk};
ghost use Rattle.cv_lex.specs.Lexis.{IsToken, Token};
ghost use Rattle.cv_lex.specs.View.{token_at};
ghost use Rattle.cv_library.specs.Expansions.{argument, body_for, put_for, renamed};
ghost use Rattle.cv_library.specs.Libraries.{definition_at, parameters_at, repeat_at, tokens_at};
ghost use Rattle.cv_library.specs.Places.{IsInside, IsUseInside};
ghost use Rattle.cv_library.specs.Heads.{listed};
ghost use Rattle.cv_library.specs.Written.{Adds};

use crate::error::LibraryError;
use crate::forms::Place;
use crate::heads::is_id;
use crate::names::parameters;
use crate::uses::Use;
use cv_lex::{TokenKind, Tokens};
use cv_syntax::Names;
use std::alloc::{AllocError, Global};

// Writes the tokens from one on, before another.
pub fn put_range(out: &mut Tokens, tokens: &Tokens, from: u32, to: u32) -> Result<(), AllocError>
    requires order { from ≤ to }
    requires within { to < length tokens.now }
    requires room { length out.old + (to - from) < 4294967295 }
    ensures adds { OnOk result (Adds out.old (slice_range tokens.now from to) out.new) }
    ensures len { OnOk result (length out.new ≡ length out.old + (to - from)) }
{
    let _tokens = tokens.len();
    'range: for k in from..to {
        out.push(tokens.kind(k), tokens.text(k), tokens.offset(k))?;
    }
    Ok(())
}

// The name that stands for another one in the use with this number.
fn own_name(alloc: Global, name: &str, number: u32) -> Result<String, AllocError>
    ensures { IfOk result (λ own. string_bytes own ≡ renamed number name.now) }
{
    let own = format!(in alloc; "{name}_e{number}")?;
    Ok(own)
}

// Writes a name for another one in the use with this number.
fn put_renamed(
    alloc: Global,
    out: &mut Tokens,
    name: &str,
    number: u32,
    offset: u32,
) -> Result<(), AllocError>
    requires name { IsToken TokenKind.Ident name.now }
    requires room { length out.old < 4294967295 }
    ensures adds { OnOk result (Adds out.old (record {
      kind = TokenKind.Ident;
      text = renamed number name.now;
      offset = offset;
    } ∷ []) out.new) }
    ensures len { OnOk result (length out.new ≡ length out.old + 1) }
{
    let own = own_name(alloc, name, number)?;
    out.push(TokenKind::Ident, own.as_str(), offset)
}

// The number of the name that stands for a parameter in a use.
fn argument_of(parameters: &Names, text: &str, it: Use) -> Option<u32>
    requires { it.word + 3 < it.dot }
    ensures value { (ts : List Token) → option_map (token_at ts) result
        ≡ argument parameters.now (listed ts it.word it.dot) text.now }
    ensures within { IfSome result (λ k. k < it.dot) }
{
    let count = (it.dot - (it.word + 3)) / 2;
    match parameters.find(text) {
        None => None,
        Some(id) => {
            if id.0 < count {
                Some(it.word + 3 + 2 * id.0)
            } else {
                None
            }
        }
    }
}

// Writes what stands for a token of a body in a use.
fn put_replaced(
    alloc: Global,
    out: &mut Tokens,
    body: &Tokens,
    k: u32,
    parameters: &Names,
    tokens: &Tokens,
    site: (Use, u32),
) -> Result<(), AllocError>
    requires within { k + 1 < length body.now }
    requires inside { IsUseInside tokens.now 0 site.0 }
    requires room { length out.old < 4294967295 }
    ensures adds { OnOk result (Adds out.old
        (put_for tokens.now site.1 site.0 parameters.now (token_at body.now k) ∷ []) out.new) }
    ensures len { OnOk result (length out.new ≡ length out.old + 1) }
{
    let _body = body.len();
    let _tokens = tokens.len();
    let (it, number) = site;
    let offset = tokens.offset(it.word);
    let kind = body.kind(k);
    let text = body.text(k);
    if !is_id(kind, text) {
        return out.push(kind, text, offset);
    }
    match argument_of(parameters, text, it) {
        Some(name) => out.push(tokens.kind(name), tokens.text(name), offset),
        None => put_renamed(alloc, out, text, number, offset),
    }
}

// The parameters of a definition, none of which repeats.
fn parameters_of(alloc: Global, body: &Tokens, place: Place) -> Result<Names, AllocError>
    requires place { IsInside body.now place }
    requires apart { repeat_at body.now place ≡ None }
    ensures { IfOk result (λ names. names ≡ parameters_at body.now place) }
{
    match parameters(alloc, body, place) {
        Ok(names) => Ok(names),
        Err(LibraryError::OutOfMemory) => Err(AllocError),
        Err(_) => unreachable!(),
    }
}

// Writes the tokens of a body for the use with this number.
fn put_tokens(
    alloc: Global,
    out: &mut Tokens,
    body: &Tokens,
    place: Place,
    parameters: &Names,
    tokens: &Tokens,
    site: (Use, u32),
) -> Result<(), AllocError>
    requires place { IsInside body.now place }
    requires inside { IsUseInside tokens.now 0 site.0 }
    requires room { length out.old + (place.end - (place.brace + 1)) < 4294967295 }
    ensures adds { OnOk result (Adds out.old (map (put_for tokens.now site.1 site.0 parameters.now)
        (tokens_at body.now place)) out.new) }
    ensures len { OnOk result (length out.new
        ≡ length out.old + (place.end - (place.brace + 1))) }
{
    'body: for k in place.brace + 1..place.end {
        put_replaced(alloc, out, body, k, parameters, tokens, site)?;
    }
    Ok(())
}

// Writes the body of a definition for the use with this number.
pub fn put_body(
    alloc: Global,
    out: &mut Tokens,
    body: &Tokens,
    place: Place,
    tokens: &Tokens,
    site: (Use, u32),
) -> Result<(), AllocError>
    requires place { IsInside body.now place }
    requires apart { repeat_at body.now place ≡ None }
    requires inside { IsUseInside tokens.now 0 site.0 }
    requires room { length out.old + (place.end - (place.brace + 1)) < 4294967295 }
    ensures adds { OnOk result (Adds out.old (body_for tokens.now site.1 site.0
        (Some (definition_at body.now place))) out.new) }
    ensures len { OnOk result (length out.new
        ≡ length out.old + (place.end - (place.brace + 1))) }
{
    let parameters = parameters_of(alloc, body, place)?;
    put_tokens(alloc, out, body, place, &parameters, tokens, site)
}
