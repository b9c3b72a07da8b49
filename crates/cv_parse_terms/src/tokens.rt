ghost use Rattle.std.specs.Prelude.{◌≡◌, ◌++◌, ◌+◌, ◌<◌, ◌≤◌, ◌^◌, length, drop, OnOk, IfOk};
ghost use Rattle.cv_parse_notation.specs.Spells.{used};
ghost use Rattle.cv_parse_notation.specs.Reads.{read_word, read_script_word, read_number, read_nought, read_find, read_unnamed};
ghost use Rattle.cv_parse_terms.specs.Gives.{Gives, uses_of, GivesPlain, IsRead, Passes, next_value, read_note, number_in as number_of};

use crate::lookahead::{ReadError, find_at, is_script_word_at, is_zero_at, unnamed_at, word_at};
use crate::trail::NameUse;
use cv_parse_grammar::Role;
use cv_parse_notation::{ScriptWord, Sign};
use std::alloc::AllocError;

/// Notes a use of a name at a place.
#[tactic(auto, using(crate::proofs::Places::tokens))]
fn note_use(
    signs: &[Sign],
    at: usize,
    uses: &mut Vec<NameUse>,
    role: Role,
    name: u32,
) -> Result<(), AllocError>
    requires at { at ≤ length signs.now }
    ensures noted { OnOk result (uses_of uses.new.items
        ≡ uses_of uses.old.items ++ used role name (drop at signs.now)) }
{
    let left = signs.len() - at;
    uses.push(NameUse { role, name, left })?;
    Ok(())
}

/// A name, which is used so.
#[tactic(auto, using(crate::proofs::Places::tokens))]
pub fn word(
    signs: &[Sign],
    at: usize,
    uses: &mut Vec<NameUse>,
    role: Role,
) -> Result<(u32, usize), ReadError>
    requires at { at ≤ length signs.now }
    requires few { length signs.now < 2 ^ 32 }
    ensures gives { Gives signs.now uses.old.items uses.new.items result
        (read_word role (drop at signs.now)) }
{
    let Some(name) = word_at(signs, at) else {
        return Err(ReadError::Syntax(at as u32));
    };
    note_use(signs, at, uses, role, name)?;
    Ok((name, at + 1))
}

/// The place behind this word of a script.
#[tactic(auto, using(crate::proofs::Places::tokens))]
pub fn script_word(signs: &[Sign], at: usize, word: ScriptWord) -> Result<usize, ReadError>
    requires at { at ≤ length signs.now }
    requires few { length signs.now < 2 ^ 32 }
    ensures passes { Passes signs.now result (read_script_word word (drop at signs.now)) }
{
    if is_script_word_at(signs, at, word) {
        return Ok(at + 1);
    }
    Err(ReadError::Syntax(at as u32))
}

/// The word `collision` before `new`, whose name is used so.
#[tactic(auto, using(crate::proofs::Places::tokens))]
pub fn unnamed(
    signs: &[Sign],
    at: usize,
    uses: &mut Vec<NameUse>,
    role: Role,
) -> Result<(u32, usize), ReadError>
    requires at { at ≤ length signs.now }
    requires few { length signs.now < 2 ^ 32 }
    ensures gives { Gives signs.now uses.old.items uses.new.items result
        (read_unnamed role (drop at signs.now)) }
{
    let Some(name) = unnamed_at(signs, at) else {
        return Err(ReadError::Syntax(at as u32));
    };
    note_use(signs, at, uses, role, name)?;
    Ok((name, at + 1))
}

/// Notes at a place what is told about names there, and gives how many tokens are left.
#[tactic(auto, using(crate::proofs::Places::tokens))]
pub fn note(
    signs: &[Sign],
    at: usize,
    uses: &mut Vec<NameUse>,
    role: Role,
) -> Result<usize, AllocError>
    requires at { at ≤ length signs.now }
    ensures gives { IfOk result (λ left. IsRead signs.now uses.old.items uses.new.items
        (read_note role (drop at signs.now)) left at) }
{
    note_use(signs, at, uses, role, 0)?;
    Ok(signs.len() - at)
}

/// The number that a token is.
fn number_in(sign: Sign) -> Option<u64>
    ensures { result ≡ number_of sign }
{
    match sign {
        Sign::Number(value) => Some(value),
        Sign::Word(_, _) | Sign::Find(_) | Sign::Unnamed(_) | Sign::Mark(_) => None,
    }
}

/// The number that stands at a place.
#[tactic(auto, using(crate::proofs::Places::tokens))]
fn number_at(signs: &[Sign], at: usize) -> Option<u64>
    ensures { result ≡ next_value number_of (drop at signs.now) }
{
    if at < signs.len() {
        return number_in(signs[at]);
    }
    None
}

/// A number.
#[tactic(auto, using(crate::proofs::Places::tokens))]
pub fn number(signs: &[Sign], at: usize) -> Result<(u64, usize), ReadError>
    requires at { at ≤ length signs.now }
    requires few { length signs.now < 2 ^ 32 }
    ensures gives { GivesPlain signs.now result (read_number (drop at signs.now)) }
{
    let Some(value) = number_at(signs, at) else {
        return Err(ReadError::Syntax(at as u32));
    };
    Ok((value, at + 1))
}

/// The word `find`, with its number among these words.
#[tactic(auto, using(crate::proofs::Places::tokens))]
pub fn find_word(signs: &[Sign], at: usize) -> Result<(u64, usize), ReadError>
    requires at { at ≤ length signs.now }
    requires few { length signs.now < 2 ^ 32 }
    ensures gives { GivesPlain signs.now result (read_find (drop at signs.now)) }
{
    let Some(count) = find_at(signs, at) else {
        return Err(ReadError::Syntax(at as u32));
    };
    Ok((count, at + 1))
}

/// The place behind the number 0.
#[tactic(auto, using(crate::proofs::Places::tokens))]
pub fn zero(signs: &[Sign], at: usize) -> Result<usize, ReadError>
    requires at { at ≤ length signs.now }
    requires few { length signs.now < 2 ^ 32 }
    ensures passes { Passes signs.now result (read_nought (drop at signs.now)) }
{
    if is_zero_at(signs, at) {
        return Ok(at + 1);
    }
    Err(ReadError::Syntax(at as u32))
}
