// Oracle files: the file for which one stands, whose tokens have their places in the oracle file.
ghost use Rattle.std.specs.Prelude.{◌≡◌, ◌+◌, ◌<◌, ◌≤◌, OnOk, length};
ghost use Rattle.cv_lex.specs.View.{token_at, with_token};

use cv_explain_source::Text;
use cv_lex::Tokens;
use cv_oracles::{Source, read_source};
use std::alloc::{AllocError, Global};

/// The byte with which a token begins; 0 where there is no such token.
fn offset_of(tokens: &Tokens, k: u32) -> u32
    ensures there { k < length tokens.now → result ≡ (token_at tokens.now k).offset }
    ensures none { length tokens.now ≤ k → result ≡ 0 }
{
    if k < tokens.len() {
        tokens.offset(k)
    } else {
        0
    }
}

/// Writes a token with an offset behind others, but for the end token.
fn add_token(out: &mut Tokens, from: &Tokens, k: u32, offset: u32) -> Result<(), AllocError>
    requires room { length out.old < 4294967295 }
    ensures inner { OnOk result (k + 1 < length from.now → out.new ≡ with_token out.old (record {
      kind = (token_at from.now k).kind;
      text = (token_at from.now k).text;
      offset = offset;
    })) }
    ensures end { OnOk result (length from.now ≤ k + 1 → out.new ≡ out.old) }
{
    let len = from.len();
    if k < len && k + 1 < len {
        out.push(from.kind(k), from.text(k), offset)?;
    }
    Ok(())
}

/// Writes a token with an offset behind others, where there is room.
pub fn put_token(out: &mut Tokens, from: &Tokens, k: u32, offset: u32) -> Result<(), AllocError> {
    if out.len() < 4_000_000_000 {
        add_token(out, from, k, offset)?;
    }
    Ok(())
}

/// The first tokens of a list, and the end token.
pub fn first_tokens(alloc: Global, tokens: &Tokens, count: u32) -> Result<Tokens, AllocError> {
    let mut out = Tokens::new(alloc, offset_of(tokens, count));
    for k in 0..count {
        put_token(&mut out, tokens, k, offset_of(tokens, k))?;
    }
    Ok(out)
}

/// The tokens of a file with the offsets of those of the source from which they come.
fn placed(alloc: Global, file: &Source, given: &Tokens) -> Result<Tokens, AllocError> {
    let last = file.tokens.len() - 1;
    let mut out = Tokens::new(alloc, offset_of(given, file.number(last)));
    for k in 0..last {
        put_token(&mut out, &file.tokens, k, offset_of(given, file.number(k)))?;
    }
    Ok(out)
}

/// The file for which a source stands: an oracle file for the one that its translation is, and every other one for itself.
pub fn file_of(alloc: Global, given: &Text) -> Result<Text, AllocError> {
    let tokens = given.tokens();
    let copy = first_tokens(alloc, tokens, tokens.len() - 1)?;
    let file = read_source(alloc, copy)?;
    Text::of(alloc, placed(alloc, &file, tokens)?)
}
