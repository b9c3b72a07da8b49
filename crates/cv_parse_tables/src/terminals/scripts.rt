// The signs of a script.

ghost use Rattle.std.specs.Prelude.{◌≡◌, ◌+◌, ◌<◌, ◌≤◌, ◌^◌, length, take, IfOk, OnErr};
ghost use Rattle.cv_lex.specs.View.{token_at};
ghost use Rattle.cv_parse_tables.specs.terminals.ScriptSigns.{between, script_signs as signs_of_script, with_word};
ghost use Rattle.cv_parse_tables.specs.terminals.Signs.{first_text};

use crate::spelling::word_of_text;
use crate::terminals::pass::{Counts, sign_before};
use cv_lex::Tokens;
use cv_parse_notation::Sign;
use cv_syntax::Names;
use std::alloc::{AllocError, Global};

// The sign of a token in a script: an identifier tells which word it is.
fn worded(sign: Sign, text: &str) -> Sign
    ensures { result ≡ with_word text.now sign }
{
    match sign {
        Sign::Word(number, _) => Sign::Word(number, word_of_text(text)),
        Sign::Number(_) | Sign::Find(_) | Sign::Unnamed(_) | Sign::Mark(_) => sign,
    }
}

// The text of the token at a place, where it stands before another.
#[tactic(auto, using(crate::proofs::terminals::ScriptWalk::first))]
fn text_before(tokens: &Tokens, k: u32, to: u32) -> &str
    requires { to < length tokens.now }
    ensures { result.now ≡ first_text (between k to tokens.now) }
{
    if k < to { tokens.text(k) } else { "" }
}

// The signs of the tokens from one on, before another.
fn signs_between(
    alloc: Global,
    names: &mut Names,
    tokens: &Tokens,
    from: u32,
    to: u32,
) -> Result<Vec<Sign>, AllocError>
    requires order { from ≤ to }
    requires to { to < length tokens.now }
    requires few { length names.old + length tokens.now < 2 ^ 32 }
    ensures signs { IfOk result (λ v. (signs_of_script names.old (between from to tokens.now)).signs
        ≡ v.items) }
    ensures names { IfOk result (λ _. (signs_of_script names.old (between from to tokens.now)).names
        ≡ names.new) }
    ensures count { IfOk result (λ v. from + length v.items ≡ to) }
    ensures kept { take (length names.old) names.new ≡ names.old }
{
    let _tokens = tokens.len();
    let mut signs = Vec::with_capacity(alloc, (to - from) as usize)?;
    let mut counts = Counts {
        finds: 0,
        unnamed: 0,
    };
    for k in from..to {
        let text = tokens.text(k);
        let next = text_before(tokens, k + 1, to);
        let kind = tokens.kind(k);
        let sign = sign_before(alloc, names, &mut counts, kind, text, next)?;
        signs.push(worded(sign, text))?;
    }
    Ok(signs)
}

/// The signs of a script's tokens, from one on, before another. An identifier's sign tells which word of a script it
/// is. New names are added behind the others.
pub fn script_signs(
    alloc: Global,
    names: &mut Names,
    tokens: &Tokens,
    from: u32,
    to: u32,
) -> Result<Vec<Sign>, AllocError>
    requires order { from ≤ to }
    requires to { to < length tokens.now }
    requires few { length names.old + length tokens.now < 2 ^ 32 }
    ensures signs { IfOk result (λ v. (signs_of_script names.old (between from to tokens.now)).signs
        ≡ v.items) }
    ensures names { IfOk result (λ _. (signs_of_script names.old (between from to tokens.now)).names
        ≡ names.new) }
    ensures count { IfOk result (λ v. from + length v.items ≡ to) }
    ensures kept { take (length names.old) names.new ≡ names.old }
    ensures err { OnErr result (names.new ≡ names.old) }
{
    let before = names.len();
    let outcome = signs_between(alloc, names, tokens, from, to);
    if outcome.is_err() {
        names.keep(before);
    }
    outcome
}
