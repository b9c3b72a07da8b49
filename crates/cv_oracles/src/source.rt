// The tokens of the file that a source stands for.

ghost use Rattle.std.specs.Prelude.{◌≡◌, IfOk};
ghost use Rattle.cv_lex.specs.View.{token_at};
ghost use Rattle.cv_oracles.specs.Translations.{file_for, is_oracle_file as is_oracles, read_as};

use crate::begins::{declarations_end, process_begin};
use crate::oracles::oracles;
use crate::read::text_at;
use crate::region::Region;
use crate::write::{put_declaration, put_kept, put_process};
use cv_lex::Tokens;
use std::alloc::{AllocError, Global};

/// The tokens of the file that a source stands for.
#[derive(Drop)]
pub struct Source {
    /// The tokens of the file.
    pub tokens: Tokens,
    // Whether each of them has in place of its offset the number of a token of the source.
    numbered: bool,
}

impl Source {
    ghost use Rattle.cv_oracles.specs.Translations.{number_by};

    /// The number, in the source, of a token of the file.
    pub fn number(&self, k: u32) -> u32
        ensures { result ≡ number_by self.now.numbered self.now.tokens k }
    {
        if self.numbered {
            offset_at(&self.tokens, k)
        } else {
            k
        }
    }
}

fn offset_at(tokens: &Tokens, k: u32) -> u32
    ensures { result ≡ (token_at tokens.now k).offset }
{
    if k < tokens.len() {
        tokens.offset(k)
    } else {
        0
    }
}

// The tokens of the file for which an oracle file stands.
fn translate(alloc: Global, tokens: &Tokens) -> Result<Tokens, AllocError>
    ensures { IfOk result (λ ts. ts ≡ file_for tokens.now) }
{
    let last = tokens.len() - 1;
    let end = declarations_end(tokens);
    let begin = process_begin(tokens, end);
    let found = oracles(alloc, tokens, begin, last)?;
    let mut out = Tokens::new(alloc, last);
    put_kept(&mut out, tokens, Region::Declarations, end.min(1), end)?;
    put_declaration(&mut out, tokens, found.as_slice(), end)?;
    put_kept(&mut out, tokens, Region::Block, end, begin)?;
    put_process(alloc, &mut out, tokens, begin, last)?;
    Ok(out)
}

// Whether the tokens are those of an oracle file.
fn begins_oracles(tokens: &Tokens) -> bool
    ensures { result ≡ is_oracles tokens.now }
{
    text_at(tokens, 0) == "oracles"
}

// The tokens of the file for which these stand.
fn file_of(alloc: Global, tokens: Tokens) -> Result<Tokens, AllocError>
    ensures { IfOk result (λ ts. ts ≡ read_as tokens) }
{
    if begins_oracles(&tokens) {
        translate(alloc, &tokens)
    } else {
        Ok(tokens)
    }
}

/// What the tokens of a source stand for: an oracle file for the file that its translation is, and every other one for itself.
pub fn read_source(alloc: Global, tokens: Tokens) -> Result<Source, AllocError>
    ensures file { IfOk result (λ s. s.tokens ≡ read_as tokens) }
    ensures numbers { IfOk result (λ s. s.numbered ≡ is_oracles tokens) }
{
    let numbered = begins_oracles(&tokens);
    let tokens = file_of(alloc, tokens)?;
    Ok(Source { tokens, numbered })
}
