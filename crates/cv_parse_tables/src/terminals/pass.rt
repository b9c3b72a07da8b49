// One pass over the tokens, which makes their signs and collects the names.

ghost use Rattle.std.specs.Prelude.{◌≡◌, ◌≢◌, ◌+◌, ◌<◌, ◌^◌, false, [], ◌∷◌, List, All, Some, length, take, drop, slice_get, codes, IfOk, OnErr};
ghost use Rattle.cv_lex.specs.Lexis.{Token};
ghost use Rattle.cv_lex.specs.View.{AreTokens};
ghost use Rattle.cv_pool.specs.names.Texts.{NoRepeat};
ghost use Rattle.cv_parse_tables.specs.terminals.Braces.{file_tokens, opens, outside};
ghost use Rattle.cv_parse_tables.specs.terminals.Signs.{place_of, with_name, step_before, token_step, text_step, unnamed_step, no_counts, signs_from, signs_in, signs_of, with_right_sides, TellInOrder, NumberBelow};
ghost use Rattle.cv_parse_tables.specs.spelling.Spelling.{mark_of_text};
ghost use Rattle.cv_parse_tables.specs.terminals.Worked.{small, small_names};

use crate::spelling::spelled;
use crate::terminals::braces::{open_behind, read_token};
use crate::terminals::openings::tell_openings;
use cv_lex::{TokenKind, Tokens};
use cv_parse_notation::{ScriptWord, Sign};
use cv_syntax::{NameError, Names};
use std::alloc::{AllocError, Global};

// How many words of two kinds were read: `find`, and `collision` before `new`.
#[derive(Clone, Copy)]
pub struct Counts {
    pub finds: u64,
    pub unnamed: u64,
}

// The number of a text among the names, to which it is added where it isn't there yet.
fn number_of(names: &mut Names, text: &str) -> Result<u32, AllocError>
    requires { length names.old + 1 < 2 ^ 32 }
    ensures number { IfOk result (λ n. n ≡ place_of names.old text.now) }
    ensures names { IfOk result (λ _. names.new ≡ with_name names.old text.now) }
    ensures err { OnErr result (names.new ≡ names.old) }
{
    match names.declare(text) {
        Ok(id) => Ok(id.0),
        Err(NameError::Twice(id)) => Ok(id.0),
        Err(NameError::OutOfMemory) => Err(AllocError),
    }
}

// The sign of an identifier or a symbol.
fn text_sign(names: &mut Names, counts: &mut Counts, text: &str) -> Result<Sign, AllocError>
    requires names { length names.old + 1 < 2 ^ 32 }
    requires finds { counts.old.finds + 1 < 2 ^ 64 }
    ensures step { IfOk result (λ s. text_step names.old counts.old text.now
        (mark_of_text text.now) ≡ record
        { signs = s ∷ []; names = names.new; counts = counts.new }) }
    ensures err { OnErr result (names.new ≡ names.old) }
{
    if let Some(mark) = spelled(text) {
        return Ok(Sign::Mark(mark));
    }
    if text == "find" {
        counts.finds += 1;
        return Ok(Sign::Find(counts.finds));
    }
    Ok(Sign::Word(number_of(names, text)?, ScriptWord::Plain))
}

// The sign of a token.
fn token_sign(
    names: &mut Names,
    counts: &mut Counts,
    kind: TokenKind,
    text: &str,
) -> Result<Sign, AllocError>
    requires names { length names.old + 1 < 2 ^ 32 }
    requires finds { counts.old.finds + 1 < 2 ^ 64 }
    requires inner { kind ≢ TokenKind.End }
    ensures step { IfOk result (λ s. token_step names.old counts.old kind text.now
        ≡ record { signs = s ∷ []; names = names.new; counts = counts.new }) }
    ensures err { OnErr result (names.new ≡ names.old) }
{
    match kind {
        TokenKind::Ident | TokenKind::Symbol => text_sign(names, counts, text),
        TokenKind::Number(value) => Ok(Sign::Number(value)),
        TokenKind::End => unreachable!(),
    }
}

// The sign of the next collision without a name.
fn unnamed_sign(alloc: Global, names: &mut Names, counts: &mut Counts) -> Result<Sign, AllocError>
    requires names { length names.old + 1 < 2 ^ 32 }
    requires unnamed { counts.old.unnamed + 1 < 2 ^ 64 }
    ensures step { IfOk result (λ s. unnamed_step names.old counts.old
        ≡ record { signs = s ∷ []; names = names.new; counts = counts.new }) }
    ensures err { OnErr result (names.new ≡ names.old) }
{
    counts.unnamed += 1;
    let number = counts.unnamed;
    let name = format!(in alloc; "collision_{number}")?;
    Ok(Sign::Unnamed(number_of(names, name.as_str())?))
}

// The sign of a token before the next one's text.
pub fn sign_before(
    alloc: Global,
    names: &mut Names,
    counts: &mut Counts,
    kind: TokenKind,
    text: &str,
    next: &str,
) -> Result<Sign, AllocError>
    requires names { length names.old + 1 < 2 ^ 32 }
    requires finds { counts.old.finds + 1 < 2 ^ 64 }
    requires unnamed { counts.old.unnamed + 1 < 2 ^ 64 }
    requires inner { kind ≢ TokenKind.End }
    ensures step { IfOk result (λ s. step_before names.old counts.old kind text.now next.now
        ≡ record { signs = s ∷ []; names = names.new; counts = counts.new }) }
    ensures err { OnErr result (names.new ≡ names.old) }
{
    if text == "collision" && next == "new" {
        unnamed_sign(alloc, names, counts)
    } else {
        token_sign(names, counts, kind, text)
    }
}

// The signs of the tokens from one on, all but the end token.
fn signs_in_order(
    alloc: Global,
    names: &mut Names,
    tokens: &Tokens,
    from: u32,
) -> Result<Vec<Sign>, AllocError>
    requires from { from < length tokens.now }
    requires few { length names.old + length tokens.now < 2 ^ 32 }
    ensures signs { IfOk result (λ v. (signs_from names.old no_counts (drop from tokens.now)).signs
        ≡ v.items) }
    ensures names { IfOk result (λ _. (signs_from names.old no_counts (drop from tokens.now)).names
        ≡ names.new) }
    ensures count { IfOk result (λ v. from + length v.items + 1 ≡ length tokens.now) }
    ensures kept { take (length names.old) names.new ≡ names.old }
{
    let count = tokens.len() - 1;
    let mut signs = Vec::with_capacity(alloc, (count - from) as usize)?;
    let mut counts = Counts {
        finds: 0,
        unnamed: 0,
    };
    for k in from..count {
        let text = tokens.text(k);
        let next = tokens.text(k + 1);
        let sign = sign_before(alloc, names, &mut counts, tokens.kind(k), text, next)?;
        signs.push(sign)?;
    }
    Ok(signs)
}

// The signs of the tokens of a file as they are read, all but the end token.
fn read_signs(alloc: Global, names: &mut Names, tokens: &Tokens) -> Result<Vec<Sign>, AllocError>
    requires few { length names.old + length tokens.now < 2 ^ 32 }
    ensures signs { IfOk result (λ v.
        (signs_from names.old no_counts (file_tokens tokens.now)).signs ≡ v.items) }
    ensures names { IfOk result (λ _.
        (signs_from names.old no_counts (file_tokens tokens.now)).names ≡ names.new) }
    ensures count { IfOk result (λ v. length v.items + 1 ≡ length tokens.now) }
{
    let count = tokens.len() - 1;
    let mut signs = Vec::with_capacity(alloc, count as usize)?;
    let mut counts = Counts {
        finds: 0,
        unnamed: 0,
    };
    let mut depth = 0;
    for k in 0..count {
        let (kind, text) = read_token(tokens, k, depth);
        depth = open_behind(depth, tokens.text(k));
        let (_, next) = read_token(tokens, k + 1, depth);
        let sign = sign_before(alloc, names, &mut counts, kind, text, next)?;
        signs.push(sign)?;
    }
    Ok(signs)
}

// The signs of a file's tokens, where the name `bool` is number 0.
fn file_signs(alloc: Global, names: &mut Names, tokens: &Tokens) -> Result<Vec<Sign>, AllocError>
    requires empty { names.old ≡ [] }
    requires few { length tokens.now < 200000000 }
    ensures signs { IfOk result (λ v. (signs_of tokens.now).signs ≡ v.items) }
    ensures names { IfOk result (λ _. (signs_of tokens.now).names ≡ names.new) }
    ensures count { IfOk result (λ v. length v.items + 1 ≡ length tokens.now) }
{
    let _tokens = tokens.len();
    number_of(names, "bool")?;
    let mut signs = read_signs(alloc, names, tokens)?;
    tell_openings(&mut signs);
    Ok(signs)
}

/// The signs of a file's tokens, one for each but the end token. Takes time linear in the text.
pub fn signs(alloc: Global, names: &mut Names, tokens: &Tokens) -> Result<Vec<Sign>, AllocError>
    requires empty { names.old ≡ [] }
    requires few { length tokens.now < 200000000 }
    ensures signs { IfOk result (λ v. (signs_of tokens.now).signs ≡ v.items) }
    ensures names { IfOk result (λ _. (signs_of tokens.now).names ≡ names.new) }
    ensures count { IfOk result (λ v. length v.items + 1 ≡ length tokens.now) }
    ensures err { OnErr result (names.new ≡ names.old) }
{
    let outcome = file_signs(alloc, names, tokens);
    if outcome.is_err() {
        names.keep(0);
    }
    outcome
}

/// The signs of the tokens from one on, by names that are numbered before. The new ones are added behind them.
pub fn more_signs(
    alloc: Global,
    names: &mut Names,
    tokens: &Tokens,
    from: u32,
) -> Result<Vec<Sign>, AllocError>
    requires from { from < length tokens.now }
    requires few { length names.old + length tokens.now < 2 ^ 32 }
    ensures signs { IfOk result (λ v. (signs_from names.old no_counts (drop from tokens.now)).signs
        ≡ v.items) }
    ensures names { IfOk result (λ _. (signs_from names.old no_counts (drop from tokens.now)).names
        ≡ names.new) }
    ensures count { IfOk result (λ v. from + length v.items + 1 ≡ length tokens.now) }
    ensures kept { take (length names.old) names.new ≡ names.old }
    ensures err { OnErr result (names.new ≡ names.old) }
{
    let before = names.len();
    let outcome = signs_in_order(alloc, names, tokens, from);
    if outcome.is_err() {
        names.keep(before);
    }
    outcome
}

/// Each sign says what its token says, as it is read, and each name has one number.
pub fn signs_tell_tokens()
    ensures tell { (ts : List Token) → AreTokens ts
        → TellInOrder (signs_of ts).names (file_tokens ts) (signs_of ts).signs }
    ensures count { (ts : List Token) → AreTokens ts → length (signs_of ts).signs + 1 ≡ length ts }
    ensures below { (ts : List Token) → AreTokens ts
        → All (NumberBelow (length (signs_of ts).names)) (signs_of ts).signs }
    ensures distinct { (ts : List Token) → NoRepeat (signs_of ts).names }
    ensures bool_first { (ts : List Token) → slice_get (signs_of ts).names 0 ≡ Some (codes "bool") }
{}

/// The names of a file are those of its tokens outside braces, in order: what stands between the braces of a
/// proof block adds none. Without a brace all tokens are read as they stand.
pub fn file_names_stand_outside_braces()
    ensures names { (ts : List Token) → AreTokens ts
        → (signs_of ts).names ≡ (signs_in (outside ts)).names }
    ensures plain { (ts : List Token) → All (λ t. opens t.text ≡ false) ts
        → signs_of ts ≡ with_right_sides (signs_in ts) }
    ensures small { (signs_of small).names ≡ small_names }
{}
