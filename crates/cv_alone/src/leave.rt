// The leaving out of all that isn't of one query.

ghost use Rattle.std.specs.Prelude.{◌≡◌, ◌<◌, [], Ok, length, OnErr, OnOk};
ghost use Rattle.cv_lex.specs.View.{token_at};
ghost use Rattle.cv_alone.specs.Alone.{alone, alone_by, has_query as has_one, is_of, with_spaces};
ghost use Rattle.cv_alone.specs.Parts.{tokens_left_out, put_if, queries_in};
ghost use Rattle.cv_alone.specs.Sizes.{AreWithin};

use crate::parts::Reading;
use crate::spaces::{erase, put_spaces};
use cv_lex::{LexError, Tokens, tokens};
use std::alloc::{AllocError, Global};

// How many queries tokens have.
fn queries(tokens: &Tokens) -> u32
    ensures { result ≡ queries_in tokens.now }
{
    let mut reading = Reading::start();
    'tokens: for k in 0..tokens.len() {
        let text = tokens.text(k);
        reading = reading.at(text).behind(text);
    }
    reading.queries
}

// Whether there is a query with a number.
fn has_query(tokens: &Tokens, number: u32) -> bool
    ensures { result ≡ has_one number tokens.now }
{
    0 < number && number <= queries(tokens)
}

// Puts spaces in the place of a token, where it is left out.
fn put_token(bytes: &mut [u8], tokens: &Tokens, k: u32, is_left_out: bool)
    requires token { k < length tokens.now }
    requires within { AreWithin (length bytes.old) tokens.now }
    ensures { bytes.new ≡ with_spaces
        (λ at _. is_of (put_if is_left_out (token_at tokens.now k) []) at) bytes.old }
{
    if is_left_out {
        put_spaces(bytes, tokens.offset(k) as usize, tokens.text(k).len());
    }
}

// Puts spaces in the place of all tokens that are left out for a query.
fn leave_out(bytes: &mut [u8], tokens: &Tokens, number: u32)
    requires { AreWithin (length bytes.old) tokens.now }
    ensures { bytes.new
        ≡ with_spaces (λ at _. is_of (tokens_left_out number tokens.now) at) bytes.old }
{
    let mut reading = Reading::start();
    'tokens: for k in 0..tokens.len() {
        let text = tokens.text(k);
        let here = reading.at(text);
        put_token(bytes, tokens, k, here.is_left_out(number));
        reading = here.behind(text);
    }
}

// The same, where there is such a query; else nothing stays.
fn leave_query(bytes: &mut [u8], tokens: &Tokens, number: u32)
    requires { AreWithin (length bytes.old) tokens.now }
    ensures { bytes.new ≡ alone_by number bytes.old (Ok tokens.now) }
{
    if has_query(tokens, number) {
        leave_out(bytes, tokens, number);
    } else {
        erase(bytes);
    }
}

/// Leaves a file's query with this number alone, counted from 1. Takes time linear in the bytes.
pub fn leave_alone(alloc: Global, bytes: &mut Vec<u8>, number: u32) -> Result<(), AllocError>
    requires { length bytes.old.items < 4294967295 }
    ensures ok { OnOk result (bytes.new.items ≡ alone number bytes.old.items) }
    ensures err { OnErr result (bytes.new.items ≡ bytes.old.items) }
    ensures len { length bytes.new.items ≡ length bytes.old.items }
{
    match tokens(alloc, bytes) {
        Ok(tokens) => {
            leave_query(bytes, &tokens, number);
            Ok(())
        }
        Err(LexError::OutOfMemory) => Err(AllocError),
        Err(_) => Ok(()),
    }
}
