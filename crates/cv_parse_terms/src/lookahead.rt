ghost use Rattle.std.specs.Prelude.{◌≡◌, ◌+◌, ◌<◌, ◌≤◌, ◌^◌, length, drop, IfOk, IfErr, false};
ghost use Rattle.cv_parse_notation.specs.Spells.{next_is, is_mark, is_script_word, is_word, is_zero, is_find, is_unnamed, kind_of};
ghost use Rattle.cv_parse_notation.specs.Reads.{read_sign};
ghost use Rattle.cv_parse_grammar.specs.Phrases.{Body, Input, Output, ProcessBranch, RightRest, Term};
ghost use Rattle.cv_parse_grammar.specs.Rules.{heads};
ghost use Rattle.cv_parse_terms.specs.Gives.{Fails, IsSign, Opens, Shallow, read_opening, next_value, word_in as word_of, find_in as find_of, unnamed_in as unnamed_of};
ghost use Rattle.cv_parse_terms.specs.declared.lookahead.ReadError.TheVariants.{OutOfMemory};

use cv_parse_notation::{Mark, ScriptWord, Sign};
use std::alloc::{AllocError, AllocFailed};

/// Why a phrase isn't read. A fault carries the number of its token.
#[derive(Clone, Copy)]
pub enum ReadError {
    Syntax(u32),
    Nesting(u32),
    OutOfMemory,
}

impl<T: Drop> From<AllocFailed<T>> for ReadError {
    ghost from_gives = { λ _ e. e ≡ OutOfMemory };

    fn from(_e: AllocFailed<T>) -> ReadError {
        ReadError::OutOfMemory
    }
}

impl From<AllocError> for ReadError {
    ghost from_gives = { λ _ e. e ≡ OutOfMemory };

    fn from(_e: AllocError) -> ReadError {
        ReadError::OutOfMemory
    }
}

/// Whether a word or symbol stands at a place.
#[tactic(auto, using(crate::proofs::Places::tokens, crate::proofs::Places::places))]
pub fn is_at(signs: &[Sign], at: usize, mark: Mark) -> bool
    ensures { result ≡ next_is (is_mark mark) (drop at signs.now) }
{
    if at < signs.len() {
        if let Sign::Mark(m) = signs[at] {
            return m.code() == mark.code();
        }
    }
    false
}

/// Whether this word of a script stands at a place.
#[tactic(auto, using(crate::proofs::Places::tokens, crate::proofs::Places::places))]
pub fn is_script_word_at(signs: &[Sign], at: usize, word: ScriptWord) -> bool
    ensures { result ≡ next_is (is_script_word word) (drop at signs.now) }
{
    if at < signs.len() {
        if let Sign::Word(_, w) = signs[at] {
            return w.code() == word.code();
        }
    }
    false
}

/// The place behind a word or symbol.
#[tactic(auto, using(crate::proofs::Places::tokens, crate::proofs::Places::places))]
pub fn expect(signs: &[Sign], at: usize, mark: Mark) -> Result<usize, ReadError>
    requires at { at ≤ length signs.now }
    requires few { length signs.now < 2 ^ 32 }
    ensures read { IfOk result (λ end. (end ≡ at + 1) × (end ≤ length signs.now)
        × IsSign signs.now mark at) }
    ensures fails { IfErr result (λ e. Fails signs.now e (read_sign mark (drop at signs.now))) }
{
    if is_at(signs, at, mark) {
        return Ok(at + 1);
    }
    Err(ReadError::Syntax(at as u32))
}

/// The name that a token is.
fn word_in(sign: Sign) -> Option<u32>
    ensures { result ≡ word_of sign }
{
    match sign {
        Sign::Word(name, _) => Some(name),
        Sign::Number(_) | Sign::Find(_) | Sign::Unnamed(_) | Sign::Mark(_) => None,
    }
}

/// The name that stands at a place.
#[tactic(auto, using(crate::proofs::Places::tokens, crate::proofs::Places::places))]
pub fn word_at(signs: &[Sign], at: usize) -> Option<u32>
    ensures { result ≡ next_value word_of (drop at signs.now) }
{
    if at < signs.len() {
        return word_in(signs[at]);
    }
    None
}

/// The number of a word `find`.
fn find_in(sign: Sign) -> Option<u64>
    ensures { result ≡ find_of sign }
{
    match sign {
        Sign::Find(count) => Some(count),
        Sign::Word(_, _) | Sign::Number(_) | Sign::Unnamed(_) | Sign::Mark(_) => None,
    }
}

/// The number of the word `find` at a place.
#[tactic(auto, using(crate::proofs::Places::tokens, crate::proofs::Places::places))]
pub fn find_at(signs: &[Sign], at: usize) -> Option<u64>
    ensures { result ≡ next_value find_of (drop at signs.now) }
{
    if at < signs.len() {
        return find_in(signs[at]);
    }
    None
}

/// The name of a `collision` before `new`.
fn unnamed_in(sign: Sign) -> Option<u32>
    ensures { result ≡ unnamed_of sign }
{
    match sign {
        Sign::Unnamed(name) => Some(name),
        Sign::Word(_, _) | Sign::Number(_) | Sign::Find(_) | Sign::Mark(_) => None,
    }
}

/// The name of the `collision` before `new` at a place.
#[tactic(auto, using(crate::proofs::Places::tokens, crate::proofs::Places::places))]
pub fn unnamed_at(signs: &[Sign], at: usize) -> Option<u32>
    ensures { result ≡ next_value unnamed_of (drop at signs.now) }
{
    if at < signs.len() {
        return unnamed_in(signs[at]);
    }
    None
}

/// Whether a name stands at a place.
#[tactic(auto, using(crate::proofs::Places::tokens, crate::proofs::Places::places))]
pub fn is_word_at(signs: &[Sign], at: usize) -> bool
    ensures { result ≡ next_is is_word (drop at signs.now) }
{
    word_at(signs, at).is_some()
}

/// Whether a word `find` stands at a place.
#[tactic(auto, using(crate::proofs::Places::tokens, crate::proofs::Places::places))]
pub fn is_find_at(signs: &[Sign], at: usize) -> bool
    ensures { result ≡ next_is is_find (drop at signs.now) }
{
    find_at(signs, at).is_some()
}

/// Whether a `collision` without a name stands at a place.
#[tactic(auto, using(crate::proofs::Places::tokens, crate::proofs::Places::places))]
pub fn is_unnamed_at(signs: &[Sign], at: usize) -> bool
    ensures { result ≡ next_is is_unnamed (drop at signs.now) }
{
    unnamed_at(signs, at).is_some()
}

/// Whether a token is the number 0.
fn is_nought(sign: Sign) -> bool
    ensures { result ≡ is_zero (kind_of sign) }
{
    match sign {
        Sign::Number(value) => value == 0,
        Sign::Word(_, _) | Sign::Find(_) | Sign::Unnamed(_) | Sign::Mark(_) => false,
    }
}

/// Whether the number 0 stands at a place.
#[tactic(auto, using(crate::proofs::Places::tokens, crate::proofs::Places::places))]
pub fn is_zero_at(signs: &[Sign], at: usize) -> bool
    ensures { result ≡ next_is is_zero (drop at signs.now) }
{
    at < signs.len() && is_nought(signs[at])
}

/// Whether a term begins at a place.
#[tactic(auto, using(crate::proofs::Begins::term_begins))]
pub fn begins_term(signs: &[Sign], at: usize) -> bool
    ensures { result ≡ next_is (heads Term) (drop at signs.now) }
{
    is_word_at(signs, at)
        || (is_at(signs, at, Mark::Not)
            || (is_at(signs, at, Mark::True)
                || (is_at(signs, at, Mark::False) || is_at(signs, at, Mark::Open))))
}

/// Whether an output process begins at a place.
#[tactic(auto, using(crate::proofs::Begins::output_begins))]
pub fn begins_output(signs: &[Sign], at: usize) -> bool
    ensures { result ≡ next_is (heads Output) (drop at signs.now) }
{
    is_at(signs, at, Mark::Yield)
        || (is_at(signs, at, Mark::Open)
            || (is_at(signs, at, Mark::Out)
                || (is_at(signs, at, Mark::New)
                    || (is_at(signs, at, Mark::Let)
                        || (is_at(signs, at, Mark::EventWord)
                            || (is_at(signs, at, Mark::If) || is_find_at(signs, at)))))))
}

/// Whether an input process begins at a place.
#[tactic(auto, using(crate::proofs::Begins::input_begins))]
pub fn begins_input(signs: &[Sign], at: usize) -> bool
    ensures { result ≡ next_is (heads Input) (drop at signs.now) }
{
    is_zero_at(signs, at)
        || (is_at(signs, at, Mark::Open)
            || (is_at(signs, at, Mark::Bang) || is_at(signs, at, Mark::In)))
}

/// Whether the body of a function begins at a place.
#[tactic(auto, using(crate::proofs::Begins::body_begins))]
pub fn begins_body(signs: &[Sign], at: usize) -> bool
    ensures { result ≡ next_is (heads Body) (drop at signs.now) }
{
    is_at(signs, at, Mark::New)
        || (is_at(signs, at, Mark::Let)
            || (is_at(signs, at, Mark::If) || (is_find_at(signs, at) || begins_term(signs, at))))
}

/// Whether a branch of `find` begins at a place.
#[tactic(auto, using(crate::proofs::Begins::branch_begins))]
pub fn begins_branch(signs: &[Sign], at: usize) -> bool
    ensures { result ≡ next_is (heads ProcessBranch) (drop at signs.now) }
{
    is_word_at(signs, at) || is_at(signs, at, Mark::Suchthat)
}

/// Whether the arguments of a function of the right side begin at a place, or a `new` before them.
#[tactic(auto, using(crate::proofs::Begins::rest_begins))]
pub fn begins_rest(signs: &[Sign], at: usize) -> bool
    ensures { result ≡ next_is (heads RightRest) (drop at signs.now) }
{
    is_at(signs, at, Mark::New) || is_at(signs, at, Mark::Open)
}

/// The place behind an opening bracket, which opens a level.
#[tactic(auto, using(crate::proofs::Places::places, crate::proofs::Levels::levels))]
pub fn open(signs: &[Sign], at: usize, depth: u32, mark: Mark) -> Result<usize, ReadError>
    requires at { at ≤ length signs.now }
    requires few { length signs.now < 2 ^ 32 }
    ensures opens { IfOk result (λ end. Opens signs.now mark depth at end) }
    ensures fails { IfErr result (λ e. Fails signs.now e
        (read_opening mark depth (drop at signs.now))) }
{
    if depth > 0 {
        return expect(signs, at, mark);
    }
    if is_at(signs, at, mark) {
        return Err(ReadError::Nesting(at as u32));
    }
    Err(ReadError::Syntax(at as u32))
}

/// The fault of a phrase for which no level is left, by whether it begins at the place.
#[tactic(auto, using(crate::proofs::Levels::levels))]
pub fn shallow(signs: &[Sign], at: usize, begins: bool) -> ReadError
    requires at { at ≤ length signs.now }
    requires few { length signs.now < 2 ^ 32 }
    ensures { Shallow signs.now result begins at }
{
    if begins {
        return ReadError::Nesting(at as u32);
    }
    ReadError::Syntax(at as u32)
}
