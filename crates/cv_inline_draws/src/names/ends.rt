ghost use Rattle.std.specs.Prelude.{◌≡◌, ◌<◌, ◌≤◌, ◌^◌, All, length, max};
ghost use Rattle.cv_lex.specs.Lexis.{value_of};
ghost use Rattle.cv_inline.specs.Draws.{end_number, greatest_end, is_digit, number_written};
ghost use Rattle.cv_inline_draws.specs.names.Texts.{texts_at};

use cv_syntax::{NameId, Names};

/// How many digits a number behind `_` has at most.
const MOST_DIGITS: usize = 9;

fn is_digit(byte: u8) -> bool
    ensures { result ≡ is_digit byte }
{
    b'/' < byte && byte < b':'
}

/// The number that a row of digits writes.
fn value_of(digits: &[u8]) -> u64
    requires { length digits.now ≤ 9 }
    ensures value { result ≡ value_of digits.now }
    ensures few { result < 2 ^ 40 }
{
    let mut value = 0;
    for digit in digits {
        value = value * 10 + u64::from(digit.saturating_sub(b'0'));
    }
    value
}

/// The same, or 0 where there is a leading zero or no digit.
fn number_written(digits: &[u8]) -> u64
    requires { length digits.now ≤ 9 }
    ensures value { result ≡ number_written digits.now }
    ensures few { result < 2 ^ 40 }
{
    if digits.is_empty() || digits[0] == b'0' {
        return 0;
    }
    value_of(digits)
}

/// The number with which a text ends behind `_`, or 0.
fn end_number(text: &[u8]) -> u64
    ensures value { result ≡ end_number text.now }
    ensures few { result < 2 ^ 40 }
{
    let mut start = text.len();
    'digits: while start > 0 && is_digit(text[start - 1]) {
        start -= 1;
    }
    let digits = &text[start..];
    if start == 0 || text[start - 1] != b'_' || digits.len() > MOST_DIGITS {
        return 0;
    }
    number_written(digits)
}

fn larger(a: u64, b: u64) -> u64
    ensures { result ≡ max a b }
{
    if a < b { b } else { a }
}

/// The greatest number with which one of these names ends behind `_`, or 0.
pub fn greatest_end(names: &Names, taken: &[u32]) -> u64
    requires { All (λ x. x < length names.now) taken.now }
    ensures value { result ≡ greatest_end (texts_at names.now taken.now) }
    ensures few { result < 2 ^ 40 }
{
    let mut greatest = 0;
    for x in taken {
        let text = names.text(NameId(*x));
        greatest = larger(greatest, end_number(text.as_bytes()));
    }
    greatest
}
