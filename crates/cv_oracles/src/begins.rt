// Where the parts of a file begin.

ghost use Rattle.std.specs.Prelude.{◌≡◌, ◌+◌, ◌≤◌, ◌<◌, ◌^◌, length};
ghost use Rattle.cv_parse_tables.specs.terminals.Braces.{open_behind as open_behind_of};
ghost use Rattle.cv_oracles.specs.Translations.{declarations_end as end_of, ends_declarations as is_ending, is_process as is_word, process_at};

use crate::read::{is_end_at, text_at};
use cv_lex::Tokens;

// How many braces are open behind a text.
fn open_behind(depth: u32, text: &str) -> u32
    requires { depth + 1 < 2 ^ 32 }
    ensures value { result ≡ open_behind_of depth text.now }
    ensures few { result ≤ depth + 1 }
{
    if text == "{" {
        depth + 1
    } else if text == "}" {
        depth.saturating_sub(1)
    } else {
        depth
    }
}

// Whether a text ends the declarations.
fn ends_declarations(text: &str) -> bool
    ensures { result ≡ is_ending text.now }
{
    text == "proof" || text == "process"
}

// The number of the first word `proof` or `process`, or of the end token.
pub fn declarations_end(tokens: &Tokens) -> u32
    ensures value { result ≡ end_of tokens.now }
    ensures within { result < length tokens.now }
{
    let _tokens = tokens.len();
    let mut k = 0;
    'tokens: while !is_end_at(tokens, k) {
        if ends_declarations(text_at(tokens, k)) {
            return k;
        }
        k += 1;
    }
    k
}

// Whether a text is the word before the process, where so many braces are open.
fn is_process(depth: u32, text: &str) -> bool
    ensures { result ≡ is_word depth text.now }
{
    depth == 0 && text == "process"
}

// The number of the token behind the first word `process` outside braces from one on, or of the end token.
pub fn process_begin(tokens: &Tokens, from: u32) -> u32
    requires { from < length tokens.now }
    ensures value { result ≡ process_at tokens.now from }
    ensures within { (from ≤ result) × (result < length tokens.now) }
{
    let _tokens = tokens.len();
    let mut depth = 0;
    let mut k = from;
    'tokens: while !is_end_at(tokens, k) {
        let text = text_at(tokens, k);
        if is_process(depth, text) {
            return k + 1;
        }
        depth = open_behind(depth, text);
        k += 1;
    }
    k
}
