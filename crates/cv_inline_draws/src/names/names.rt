ghost use Rattle.std.specs.Prelude.{◌≡◌, ◌+◌, ◌*◌, ◌<◌, ◌≤◌, ◌^◌, All, IfOk, OnErr, OnOk, length, take, string_bytes};
ghost use Rattle.cv_inline.specs.Draws.{drawn_texts, is_among, least_free, numbered_text, texts_from};
ghost use Rattle.cv_inline_draws.specs.names.Texts.{is_listed, text_at, texts_at, with_text, with_texts};

use crate::names::ends::greatest_end;
use cv_syntax::{NameError, NameId, Names};
use std::alloc::{AllocError, Global};

/// The text of a new name, with its number.
#[derive(Drop)]
struct NewName {
    number: u64,
    text: String,
}

/// A base with a number behind `_`.
fn numbered(alloc: Global, base: &str, number: u64) -> Result<NewName, AllocError>
    ensures number { IfOk result (λ n. n.number ≡ number) }
    ensures text { IfOk result (λ n. string_bytes n.text ≡ numbered_text base.now n.number) }
{
    let text = format!(in alloc; "{base}_{number}")?;
    Ok(NewName { number, text })
}

/// Whether a list has a number.
fn is_listed(xs: &[u32], x: u32) -> bool
    ensures { result ≡ is_listed xs.now x }
{
    xs.iter().any(|y| *y == x)
}

/// Whether a text is one of these names.
fn is_taken(names: &Names, taken: &[u32], text: &str) -> bool
    requires { All (λ x. x < length names.now) taken.now }
    ensures { result ≡ is_among (texts_at names.now taken.now) text.now }
{
    match names.find(text) {
        Some(id) => is_listed(taken, id.0),
        None => false,
    }
}

/// The text of a base with the least number, from one on, with which it is none of these names.
fn free_text(
    alloc: Global,
    names: &Names,
    taken: &[u32],
    base: u32,
    from: u64,
) -> Result<NewName, AllocError>
    requires taken { All (λ x. x < length names.now) taken.now }
    requires base { base < length names.now }
    requires few { from + length taken.now < 2 ^ 64 }
    ensures number { IfOk result (λ n. n.number ≡ least_free
        (λ k. is_among (texts_at names.now taken.now) (numbered_text (text_at names.now base) k))
        (length taken.now) from) }
    ensures text { IfOk result (λ n.
        string_bytes n.text ≡ numbered_text (text_at names.now base) n.number) }
    ensures few { IfOk result (λ n. n.number ≤ from + length taken.now) }
{
    let mut number = from;
    'tries: for _ in taken {
        let drawn = numbered(alloc, names.text(NameId(base)), number)?;
        if !is_taken(names, taken, drawn.text.as_str()) {
            return Ok(drawn);
        }
        number += 1;
    }
    numbered(alloc, names.text(NameId(base)), number)
}

/// The number of a text among the names, to which it is added where it isn't there yet.
fn number_of(names: &mut Names, text: &str) -> Result<u32, AllocError>
    requires { length names.old + 1 < 2 ^ 32 }
    ensures table { OnOk result (names.new ≡ with_text names.old text.now) }
    ensures text { IfOk result (λ n. text_at names.new n ≡ text.now) }
    ensures live { IfOk result (λ n. n < length names.new) }
    ensures kept { take (length names.old) names.new ≡ names.old }
    ensures few { length names.new ≤ length names.old + 1 }
    ensures more { length names.old ≤ length names.new }
{
    match names.declare(text) {
        Ok(id) => Ok(id.0),
        Err(NameError::Twice(id)) => Ok(id.0),
        Err(NameError::OutOfMemory) => Err(AllocError),
    }
}

/// Draws names into a table that has room for them.
fn draw(
    alloc: Global,
    names: &mut Names,
    taken: &[u32],
    bases: &[u32],
) -> Result<Vec<u32>, AllocError>
    requires taken { All (λ x. x < length names.old) taken.now }
    requires bases { All (λ x. x < length names.old) bases.now }
    requires room { length names.old + length bases.now < 2 ^ 32 }
    requires few { length taken.now + length bases.now < 2 ^ 32 }
    ensures texts { IfOk result (λ drawn. texts_at names.new drawn.items
        ≡ drawn_texts (texts_at names.old taken.now) (texts_at names.old bases.now)) }
    ensures table { OnOk result (names.new ≡ with_texts names.old
        (drawn_texts (texts_at names.old taken.now) (texts_at names.old bases.now))) }
    ensures live { IfOk result (λ drawn. All (λ x. x < length names.new) drawn.items) }
    ensures kept { take (length names.old) names.new ≡ names.old }
    ensures more { length names.old ≤ length names.new }
    ensures few { length names.new ≤ length names.old + length bases.now }
{
    let mut number = greatest_end(names, taken) + 1;
    let mut drawn = Vec::new(alloc);
    'bases: for base in bases {
        let free = free_text(alloc, names, taken, *base, number)?;
        drawn.push(number_of(names, free.text.as_str())?)?;
        number = free.number + 1;
    }
    Ok(drawn)
}

/// Draws a name from each of the bases, where these are the names of file and game. A text that the table has
/// already for another use is not added once more.
pub fn draw_names(
    alloc: Global,
    names: &mut Names,
    taken: &[u32],
    bases: &[u32],
) -> Result<Vec<u32>, AllocError>
    requires taken { All (λ x. x < length names.old) taken.now }
    requires bases { All (λ x. x < length names.old) bases.now }
    requires room { length names.old + length bases.now < 2 ^ 32 }
    requires few { length taken.now + length bases.now < 2 ^ 32 }
    ensures texts { IfOk result (λ drawn. texts_at names.new drawn.items
        ≡ drawn_texts (texts_at names.old taken.now) (texts_at names.old bases.now)) }
    ensures table { OnOk result (names.new ≡ with_texts names.old
        (drawn_texts (texts_at names.old taken.now) (texts_at names.old bases.now))) }
    ensures live { IfOk result (λ drawn. All (λ x. x < length names.new) drawn.items) }
    ensures kept { take (length names.old) names.new ≡ names.old }
    ensures few { length names.new ≤ length names.old + length bases.now }
    ensures err { OnErr result (names.new ≡ names.old) }
{
    let before = names.len();
    match draw(alloc, names, taken, bases) {
        Ok(drawn) => Ok(drawn),
        Err(AllocError) => {
            names.keep(before);
            Err(AllocError)
        }
    }
}
