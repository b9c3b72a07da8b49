// The writing of the parts of a file.

ghost use Rattle.std.specs.Prelude.{◌-◌, ◌≤◌, ◌∷◌, [], OnOk};
ghost use Rattle.cv_library.specs.Written.{Adds};
ghost use Rattle.cv_oracles.specs.Readings.{at_start};
ghost use Rattle.cv_oracles.specs.Translations.{channels, declaration, kept_at, kept_from, written_from};
ghost use Rattle.cv_oracles.specs.declared.words.Word.TheVariants.{Channel};

use crate::put::{put_copy, put_form, put_word};
use crate::read::{kind_at, text_at};
use crate::reading::Reading;
use crate::region::{Region, is_barred};
use crate::words::Word;
use cv_lex::Tokens;
use std::alloc::{AllocError, Global};

// Writes a token as it is, where it may stand there.
fn put_one(out: &mut Tokens, tokens: &Tokens, region: Region, k: u32) -> Result<(), AllocError>
    ensures { OnOk result (Adds out.old (kept_at region tokens.now k ∷ []) out.new) }
{
    if is_barred(region, text_at(tokens, k)) {
        put_word(out, Word::Never, k)
    } else {
        put_copy(out, tokens, k, k)
    }
}

// Writes the tokens from one on, before another, as they are, where they may stand there.
pub fn put_kept(
    out: &mut Tokens,
    tokens: &Tokens,
    region: Region,
    from: u32,
    to: u32,
) -> Result<(), AllocError>
    requires { from ≤ to }
    ensures { OnOk result (Adds out.old (kept_from region tokens.now from (to - from)) out.new) }
{
    'tokens: for k in from..to {
        put_one(out, tokens, region, k)?;
    }
    Ok(())
}

// Writes the declaration of channels with the names that have these numbers, before the token with another.
fn put_names(
    out: &mut Tokens,
    tokens: &Tokens,
    oracles: &[u32],
    before: u32,
) -> Result<(), AllocError>
    ensures { OnOk result (Adds out.old (channels tokens.now before Channel oracles.now) out.new) }
{
    let mut word = Word::Channel;
    'oracles: for oracle in oracles {
        put_word(out, word, before)?;
        put_copy(out, tokens, *oracle, *oracle)?;
        word = Word::Comma;
    }
    put_word(out, Word::Dot, before)
}

// Writes the declaration of oracles as channels, where there are some.
pub fn put_declaration(
    out: &mut Tokens,
    tokens: &Tokens,
    oracles: &[u32],
    before: u32,
) -> Result<(), AllocError>
    ensures { OnOk result (Adds out.old (declaration tokens.now before oracles.now) out.new) }
{
    if oracles.is_empty() {
        return Ok(());
    }
    put_names(out, tokens, oracles, before)
}

// Writes the process behind the token with this number.
pub fn put_process(
    alloc: Global,
    out: &mut Tokens,
    tokens: &Tokens,
    from: u32,
    to: u32,
) -> Result<(), AllocError>
    requires { from ≤ to }
    ensures { OnOk result (Adds out.old
        (written_from tokens.now (at_start from) from (to - from)) out.new) }
{
    let mut reading = Reading::new(alloc, from);
    'tokens: for k in from..to {
        let oracle = reading.oracle;
        let next = text_at(tokens, k + 1);
        let form = reading.advance(kind_at(tokens, k), text_at(tokens, k), next, k)?;
        put_form(out, tokens, oracle, k, form)?;
    }
    Ok(())
}
