// The oracles of a file.

ghost use Rattle.std.specs.Prelude.{◌≡◌, ◌&&◌, ◌++◌, ◌∷◌, ◌+◌, ◌-◌, ◌≤◌, ◌<◌, ◌^◌, [], length, not, IfOk, OnOk, if◌then◌else◌};
ghost use Rattle.cv_library.specs.Libraries.{is_among};
ghost use Rattle.cv_oracles.specs.Readings.{at_start};
ghost use Rattle.cv_oracles.specs.Translations.{oracles_from};

use crate::read::{kind_at, text_at};
use crate::reading::Reading;
use cv_lex::Tokens;
use cv_syntax::{NameError, Names};
use std::alloc::{AllocError, Global};

// Adds a name that isn't there, and says whether it wasn't.
fn is_first(names: &mut Names, text: &str) -> Result<bool, AllocError>
    requires { length names.old + 1 < 2 ^ 32 }
    ensures first { IfOk result (λ first. first ≡ not (is_among names.old text.now)) }
    ensures names { OnOk result (names.new ≡ (if is_among names.old text.now
        then names.old else names.old ++ text.now ∷ [])) }
{
    match names.declare(text) {
        Ok(_) => Ok(true),
        Err(NameError::Twice(_)) => Ok(false),
        Err(NameError::OutOfMemory) => Err(AllocError),
    }
}

// Adds the number of a token at which an oracle is defined, where its name isn't there.
fn add(
    found: &mut Vec<u32>,
    names: &mut Names,
    defines: bool,
    text: &str,
    k: u32,
) -> Result<(), AllocError>
    requires { length names.old + 1 < 2 ^ 32 }
    ensures found { OnOk result (found.new.items ≡
        (if defines && not (is_among names.old text.now)
        then found.old.items ++ k ∷ [] else found.old.items)) }
    ensures names { OnOk result (names.new ≡ (if defines && not (is_among names.old text.now)
        then names.old ++ text.now ∷ [] else names.old)) }
{
    if !defines {
        return Ok(());
    }
    if is_first(names, text)? {
        found.push(k)?;
    }
    Ok(())
}

// The numbers of the tokens at which the oracles of a process appear first.
pub fn oracles(alloc: Global, tokens: &Tokens, from: u32, to: u32) -> Result<Vec<u32>, AllocError>
    requires { from ≤ to }
    ensures { IfOk result (λ at. at.items
        ≡ oracles_from tokens.now (at_start from) from (to - from) []) }
{
    let mut found = Vec::new(alloc);
    let mut names = Names::new(alloc);
    let mut reading = Reading::new(alloc, from);
    'tokens: for k in from..to {
        let kind = kind_at(tokens, k);
        let text = text_at(tokens, k);
        let defines = reading.defines(kind, text);
        add(&mut found, &mut names, defines, text, k)?;
        reading.advance(kind, text, text_at(tokens, k + 1), k)?;
    }
    Ok(found)
}
