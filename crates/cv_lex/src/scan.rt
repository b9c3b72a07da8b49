// What stands at the front of a text.

ghost use Rattle.std.specs.Prelude.{◌≡◌, ◌≤◌, ◌<◌, ◌^◌, length, take, drop, slice_index, IsAscii};
ghost use Rattle.std.specs.List.{prefix_len};
ghost use Rattle.std.specs.Option.{SomeIff};
ghost use Rattle.std.specs.Char.{is_ascii_alphabetic, is_ascii_digit};
ghost use Rattle.cv_lex.specs.Lexis.{is_blank, is_inner, value_of, comment_end, opens, closes, symbols, longest, a_symbol, a_number, a_comment, piece};
ghost use Rattle.cv_lex.specs.Symbols.{equals_len, is_single, less_len, symbol_len};

use crate::TokenKind;

/// What stands at the front of a text, with its length, or the fault that stands there.
#[derive(Clone, Copy)]
pub enum Piece {
    Nothing,
    /// A blank or a comment.
    Between(usize),
    Lexeme(TokenKind, usize),
    OpenComment,
    WideNumber,
    ForeignByte,
}

fn is_blank(byte: u8) -> bool
    ensures { result ≡ is_blank byte }
{
    byte == b' ' || byte == b'\t' || byte == b'\r' || byte == b'\n'
}

fn is_inner(byte: u8) -> bool
    ensures { result ≡ is_inner byte }
{
    byte.is_ascii_alphabetic() || byte.is_ascii_digit() || byte == b'_'
}

// The byte at a place, or 0 past the end.
fn byte_at(bytes: &[u8], at: usize) -> u8
    ensures { result ≡ slice_index bytes.now at }
{
    if at < bytes.len() { bytes[at] } else { 0 }
}

// How many bytes of an identifier stand at the front.
fn ident_len(bytes: &[u8]) -> usize
    ensures { result ≡ prefix_len is_inner bytes.now }
{
    let mut len = 0;
    while len < bytes.len() && is_inner(bytes[len]) {
        len += 1;
    }
    len
}

// How many digits stand at the front.
fn digits_len(bytes: &[u8]) -> usize
    ensures { result ≡ prefix_len is_ascii_digit bytes.now }
{
    let mut len = 0;
    while len < bytes.len() && bytes[len].is_ascii_digit() {
        len += 1;
    }
    len
}

// The number that the digits write, where it fits 64 bits.
fn number_value(digits: &[u8]) -> Option<u64>
    ensures { SomeIff result (value_of digits.now < 2 ^ 64) (value_of digits.now) }
{
    let mut value = 0u64;
    for digit in digits {
        let digit_value = u64::from(digit.saturating_sub(b'0'));
        value = value.checked_mul(10)?.checked_add(digit_value)?;
    }
    Some(value)
}

fn opens(first: u8, second: u8) -> bool
    ensures { result ≡ opens first second }
{
    first == b'(' && second == b'*'
}

fn closes(first: u8, second: u8) -> bool
    ensures { result ≡ closes first second }
{
    first == b'*' && second == b')'
}

// The length of the comment at the front, if it has an end.
fn comment_len(bytes: &[u8]) -> Option<usize>
    requires { 2 ≤ length bytes.now }
    ensures { result ≡ comment_end 0 2 (drop 2 bytes.now) }
{
    let mut depth = 0usize;
    let mut at = 2;
    while at < bytes.len() - 1 {
        if opens(bytes[at], bytes[at + 1]) {
            depth += 1;
            at += 2;
        } else if closes(bytes[at], bytes[at + 1]) {
            at += 2;
            if depth == 0 {
                return Some(at);
            }
            depth -= 1;
        } else {
            at += 1;
        }
    }
    None
}

// The length of the longest of `=`, `=>` and `==>`, by the bytes behind the first '='.
fn equals_len(second: u8, third: u8) -> usize
    ensures { result ≡ equals_len second third }
{
    if second == b'=' && third == b'>' {
        3
    } else if second == b'>' {
        2
    } else {
        1
    }
}

// The length of the longest of `<>`, `<=` and `<-`, or 0, by the byte behind the first '<'.
fn less_len(second: u8) -> usize
    ensures { result ≡ less_len second }
{
    if second == b'>' || second == b'=' || second == b'-' {
        2
    } else {
        0
    }
}

// A symbol of one byte that begins no longer one.
fn is_single(byte: u8) -> bool
    ensures { result ≡ is_single byte }
{
    byte == b'('
        || byte == b')'
        || byte == b'['
        || byte == b']'
        || byte == b'{'
        || byte == b'}'
        || byte == b','
        || byte == b';'
        || byte == b'.'
        || byte == b'!'
        || byte == b'@'
        || byte == b'\''
}

// The length of the longest symbol that these bytes begin with, or 0.
fn symbol_len(first: u8, second: u8, third: u8) -> usize
    ensures { result ≡ symbol_len first second third }
{
    if first == b'=' {
        equals_len(second, third)
    } else if first == b'|' {
        if second == b'|' { 2 } else { 1 }
    } else if first == b'<' {
        less_len(second)
    } else if first == b'-' {
        if second == b'>' { 2 } else { 0 }
    } else if first == b'&' {
        if second == b'&' { 2 } else { 0 }
    } else if first == b':' {
        if second == b'=' { 2 } else { 1 }
    } else if is_single(first) {
        1
    } else {
        0
    }
}

// The symbol at the front.
fn symbol(bytes: &[u8]) -> Piece
    ensures { result ≡ a_symbol (longest symbols bytes.now) }
{
    let len = symbol_len(byte_at(bytes, 0), byte_at(bytes, 1), byte_at(bytes, 2));
    if len == 0 {
        Piece::ForeignByte
    } else {
        Piece::Lexeme(TokenKind::Symbol, len)
    }
}

// The number at the front.
fn number(bytes: &[u8]) -> Piece
    ensures { let digits = prefix_len is_ascii_digit bytes.now in
        result ≡ a_number digits (value_of (take digits bytes.now)) }
{
    let len = digits_len(bytes);
    match number_value(&bytes[..len]) {
        Some(value) => Piece::Lexeme(TokenKind::Number(value), len),
        None => Piece::WideNumber,
    }
}

// The comment at the front.
fn comment(bytes: &[u8]) -> Piece
    requires { 2 ≤ length bytes.now }
    ensures { result ≡ a_comment (comment_end 0 2 (drop 2 bytes.now)) }
{
    match comment_len(bytes) {
        Some(len) => Piece::Between(len),
        None => Piece::OpenComment,
    }
}

/// What stands at the front.
pub fn piece_of(bytes: &[u8]) -> Piece
    ensures { result ≡ piece bytes.now }
{
    if bytes.is_empty() {
        return Piece::Nothing;
    }
    let first = bytes[0];
    if is_blank(first) {
        Piece::Between(1)
    } else if opens(first, byte_at(bytes, 1)) {
        comment(bytes)
    } else if first.is_ascii_alphabetic() {
        Piece::Lexeme(TokenKind::Ident, ident_len(bytes))
    } else if first.is_ascii_digit() {
        number(bytes)
    } else {
        symbol(bytes)
    }
}

/// The same bytes as text.
pub fn ascii_text(bytes: &[u8]) -> &str
    requires { IsAscii bytes.now }
    ensures { result.now ≡ bytes.now }
{
    match str::from_utf8(bytes) {
        Ok(text) => text,
        Err(_) => unreachable!(),
    }
}
