// The uses of definitions in a file.

ghost use Rattle.std.specs.Prelude.{◌≡◌, ◌+◌, ◌<◌, length, IfOk, IfSome};
ghost use Rattle.cv_library.specs.Places.{AreInOrder};
ghost use Rattle.cv_library.specs.Uses.{by_text as by_text_of, dot_of as dot_of_use, dot_where as dot_looked_for, looking_behind as looking_after, uses_of};

use crate::heads::head_end;
use crate::read::text_at;
use cv_lex::Tokens;
use std::alloc::{AllocError, Global};

/// Whether a use is looked for at a token.
#[derive(Clone, Copy)]
pub enum Looking {
    /// At the first token.
    AtStart,
    Here,
    Between,
    /// Behind the first `proof` or `process`.
    Over,
}

/// Where a use stands: the numbers of its word `expand` and of its dot.
#[derive(Clone, Copy)]
pub struct Use {
    pub word: u32,
    pub dot: u32,
}

// Whether uses are looked for behind a text.
fn by_text(otherwise: Looking, text: &str) -> Looking
    ensures { result ≡ by_text_of otherwise text.now }
{
    if text == "proof" || text == "process" {
        Looking::Over
    } else if text == "." {
        Looking::Here
    } else {
        otherwise
    }
}

// The same, by whether they were looked for before it.
fn looking_behind(looking: Looking, text: &str) -> Looking
    ensures { result ≡ looking_after looking text.now }
{
    match looking {
        Looking::AtStart if text == "oracles" => by_text(Looking::Here, text),
        Looking::Over => Looking::Over,
        _ => by_text(Looking::Between, text),
    }
}

// The number of the dot of the use that begins at a token.
fn dot_of(tokens: &Tokens, word: u32) -> Option<u32>
    requires { word < length tokens.now }
    ensures value { result ≡ dot_of_use tokens.now word }
    ensures within { IfSome result (λ dot. (word + 3 < dot) × (dot + 1 < length tokens.now)) }
{
    if tokens.text(word) != "expand" {
        return None;
    }
    match head_end(tokens, word) {
        Ok(dot) if text_at(tokens, dot) == "." => Some(dot),
        _ => None,
    }
}

// The same, where a use is looked for.
fn dot_where(looking: Looking, tokens: &Tokens, word: u32) -> Option<u32>
    requires { word < length tokens.now }
    ensures value { result ≡ dot_looked_for looking tokens.now word }
    ensures within { IfSome result (λ dot. (word + 3 < dot) × (dot + 1 < length tokens.now)) }
{
    match looking {
        Looking::AtStart | Looking::Here => dot_of(tokens, word),
        Looking::Between | Looking::Over => None,
    }
}

// The uses in a file, in order.
pub fn uses(alloc: Global, tokens: &Tokens) -> Result<Vec<Use>, AllocError>
    ensures uses { IfOk result (λ us. uses_of tokens.now ≡ us.items) }
    ensures order { IfOk result (λ us. AreInOrder tokens.now 0 us.items) }
{
    let mut found = Vec::new(alloc);
    let mut looking = Looking::AtStart;
    let mut at = 0;
    'tokens: while at < tokens.len() {
        match dot_where(looking, tokens, at) {
            Some(dot) => {
                found.push(Use { word: at, dot })?;
                looking = Looking::Here;
                at = dot + 1;
            }
            None => {
                looking = looking_behind(looking, tokens.text(at));
                at += 1;
            }
        }
    }
    Ok(found)
}
