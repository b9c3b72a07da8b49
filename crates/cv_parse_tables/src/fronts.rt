ghost use Rattle.std.specs.Prelude.{◌≡◌, ◌≤◌, ◌^◌, length, drop};
ghost use Rattle.cv_parse_notation.specs.Spells.{kind_of, is_mark, is_script_word as is_word_of_script, is_word, is_number, may_vanish as vanishes, starts, next_is};
ghost use Rattle.cv_parse_grammar.specs.Phrases.{Term};
ghost use Rattle.cv_parse_grammar.specs.Rules.{heads};
ghost use Rattle.cv_parse_tables.specs.Table.{outer_form, one_of, rows_of, form, row_form, piece_form, fronts};

use crate::piece::{Outer, Piece};
use cv_parse_notation::{Mark, ScriptWord, Sign};

/// Whether a token is this word or symbol.
fn is_sign(sign: Sign, mark: Mark) -> bool
    ensures { result ≡ is_mark mark (kind_of sign) }
{
    match sign {
        Sign::Mark(m) => m.code() == mark.code(),
        Sign::Word(_, _) | Sign::Number(_) | Sign::Find(_) | Sign::Unnamed(_) => false,
    }
}

/// Whether a token is this word of a script.
fn is_script_word(sign: Sign, word: ScriptWord) -> bool
    ensures { result ≡ is_word_of_script word (kind_of sign) }
{
    match sign {
        Sign::Word(_, w) => w.code() == word.code(),
        Sign::Number(_) | Sign::Find(_) | Sign::Unnamed(_) | Sign::Mark(_) => false,
    }
}

/// Whether a token is a name.
fn is_name(sign: Sign) -> bool
    ensures { result ≡ is_word (kind_of sign) }
{
    match sign {
        Sign::Word(_, _) => true,
        Sign::Number(_) | Sign::Find(_) | Sign::Unnamed(_) | Sign::Mark(_) => false,
    }
}

/// Whether a token is a number.
fn is_numeral(sign: Sign) -> bool
    ensures { result ≡ is_number (kind_of sign) }
{
    match sign {
        Sign::Number(_) => true,
        Sign::Word(_, _) | Sign::Find(_) | Sign::Unnamed(_) | Sign::Mark(_) => false,
    }
}

/// Whether a term may begin with a token.
#[tactic(auto, using(crate::proofs::Carrying::carrying))]
fn begins_term(sign: Sign) -> bool
    ensures { result ≡ heads Term (kind_of sign) }
{
    is_name(sign)
        || is_sign(sign, Mark::Not)
        || is_sign(sign, Mark::True)
        || is_sign(sign, Mark::False)
        || is_sign(sign, Mark::Open)
}

/// Whether a phrase of files may begin with a token.
#[tactic(auto, using(crate::proofs::Carrying::carrying))]
fn begins_outer(phrase: Outer, sign: Sign) -> bool
    ensures { result ≡ starts heads (outer_form phrase) (kind_of sign) }
{
    match phrase {
        Outer::Term | Outer::Terms | Outer::InnerTerm => begins_term(sign),
        Outer::InnerSubscript => is_sign(sign, Mark::OpenSquare),
        Outer::Cell | Outer::InnerCell => is_name(sign),
    }
}

/// Whether a piece may have no token.
#[cycle(vanishing)]
#[tactic(auto, using(crate::proofs::Carrying::carrying))]
fn piece_vanishes(rows: &[&[Piece]], bound: usize, piece: Piece) -> bool
    requires { bound ≤ length rows.now }
    ensures { result ≡ vanishes (piece_form (form (rows_of rows.now) bound) piece) }
{
    match piece {
        Piece::Sign(_)
        | Piece::ScriptWord(_)
        | Piece::Word(_)
        | Piece::Number
        | Piece::Phrase(_)
        | Piece::Deeper(_) => false,
        Piece::Blank | Piece::Note(_) | Piece::May(_, _) | Piece::Many(_, _) => true,
        Piece::Either(r, s) => {
            may_vanish(rows, bound, r as usize) || may_vanish(rows, bound, s as usize)
        }
        Piece::OneOf(first, count) => any_vanishes(rows, bound, first, count),
        Piece::Chain(r) | Piece::Over(_, r) | Piece::Level(r) => {
            may_vanish(rows, bound, r as usize)
        }
    }
}

/// Whether one of so many rows may have no token.
#[cycle(vanishing)]
fn any_vanishes(rows: &[&[Piece]], bound: usize, first: u16, count: u16) -> bool
    requires { bound ≤ length rows.now }
    ensures { result ≡ vanishes (one_of (form (rows_of rows.now) bound) first count) }
{
    let end = first as usize + count as usize;
    'rows: for row in first as usize..end {
        if may_vanish(rows, bound, row) {
            return true;
        }
    }
    false
}

/// Whether pieces one behind another may have no token.
#[cycle(vanishing)]
fn pieces_vanish(rows: &[&[Piece]], bound: usize, pieces: &[Piece]) -> bool
    requires { bound ≤ length rows.now }
    ensures { result ≡ vanishes (row_form (form (rows_of rows.now) bound) pieces.now) }
{
    'pieces: for piece in pieces {
        if !piece_vanishes(rows, bound, *piece) {
            return false;
        }
    }
    true
}

/// Whether a phrase of the row may have no token.
#[cycle(vanishing)]
pub fn may_vanish(rows: &[&[Piece]], bound: usize, row: usize) -> bool
    requires { bound ≤ length rows.now }
    ensures { result ≡ vanishes (form (rows_of rows.now) bound row) }
{
    if row < bound {
        return pieces_vanish(rows, row, rows[row]);
    }
    false
}

/// Whether a piece may begin with a token, where so many phrases may stand at one another's front.
#[cycle(fronts)]
#[tactic(auto, using(crate::proofs::Carrying::carrying, crate::proofs::Rows::empty))]
fn piece_begins(rows: &[&[Piece]], bound: usize, piece: Piece, hops: u32, sign: Sign) -> bool
    requires bound { bound ≤ length rows.now }
    requires table { length rows.now ≤ 65536 }
    ensures { result ≡ starts (fronts (rows_of rows.now) hops)
        (piece_form (form (rows_of rows.now) bound) piece) (kind_of sign) }
{
    match piece {
        Piece::Sign(mark) => is_sign(sign, mark),
        Piece::ScriptWord(word) => is_script_word(sign, word),
        Piece::Word(_) => is_name(sign),
        Piece::Number => is_numeral(sign),
        Piece::Blank | Piece::Note(_) => false,
        Piece::Phrase(phrase) => begins_outer(phrase, sign),
        Piece::Deeper(r) => { hops > 0 && begins(rows, rows.len(), r as usize, hops - 1, sign) }
        Piece::May(_, r)
        | Piece::Many(_, r)
        | Piece::Chain(r)
        | Piece::Over(_, r)
        | Piece::Level(r) => { begins(rows, bound, r as usize, hops, sign) }
        Piece::OneOf(first, count) => any_begins(rows, bound, first, count, hops, sign),
        Piece::Either(r, s) => {
            begins(rows, bound, r as usize, hops, sign)
                || begins(rows, bound, s as usize, hops, sign)
        }
    }
}

/// Whether one of so many rows may begin with a token.
#[cycle(fronts)]
fn any_begins(
    rows: &[&[Piece]],
    bound: usize,
    first: u16,
    count: u16,
    hops: u32,
    sign: Sign,
) -> bool
    requires bound { bound ≤ length rows.now }
    requires table { length rows.now ≤ 65536 }
    ensures { result ≡ starts (fronts (rows_of rows.now) hops)
        (one_of (form (rows_of rows.now) bound) first count) (kind_of sign) }
{
    let end = first as usize + count as usize;
    'rows: for row in first as usize..end {
        if begins(rows, bound, row, hops, sign) {
            return true;
        }
    }
    false
}

/// Whether pieces one behind another may begin with a token.
#[cycle(fronts)]
fn pieces_begin(rows: &[&[Piece]], bound: usize, pieces: &[Piece], hops: u32, sign: Sign) -> bool
    requires bound { bound ≤ length rows.now }
    requires table { length rows.now ≤ 65536 }
    ensures { result ≡ starts (fronts (rows_of rows.now) hops)
        (row_form (form (rows_of rows.now) bound) pieces.now) (kind_of sign) }
{
    'pieces: for piece in pieces {
        if piece_begins(rows, bound, *piece, hops, sign) {
            return true;
        }
        if !piece_vanishes(rows, bound, *piece) {
            return false;
        }
    }
    false
}

/// Whether a phrase of the row may begin with a token.
#[cycle(fronts)]
pub fn begins(rows: &[&[Piece]], bound: usize, row: usize, hops: u32, sign: Sign) -> bool
    requires bound { bound ≤ length rows.now }
    requires table { length rows.now ≤ 65536 }
    ensures { result ≡ starts (fronts (rows_of rows.now) hops)
        (form (rows_of rows.now) bound row) (kind_of sign) }
{
    if row < bound {
        return pieces_begin(rows, row, rows[row], hops, sign);
    }
    false
}

/// Whether a phrase of the row may begin at a place.
#[tactic(auto, using(cv_parse_terms::proofs::Places::places, crate::proofs::Rows::placed))]
pub fn begins_at(
    rows: &[&[Piece]],
    bound: usize,
    row: usize,
    hops: u32,
    signs: &[Sign],
    at: usize,
) -> bool
    requires bound { bound ≤ length rows.now }
    requires table { length rows.now ≤ 65536 }
    ensures { result ≡ next_is (starts (fronts (rows_of rows.now) hops)
        (form (rows_of rows.now) bound row)) (drop at signs.now) }
{
    if at < signs.len() {
        return begins(rows, bound, row, hops, signs[at]);
    }
    false
}
