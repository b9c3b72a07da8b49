ghost use Rattle.std.specs.Prelude.{◌≡◌, ◌+◌, ◌<◌, ◌≤◌, ◌^◌, length, drop, IfOk, IfErr, IfSome, IfNone, false};
ghost use Rattle.cv_syntax.specs.Postorder.{postorder};
ghost use Rattle.cv_parse_notation.specs.Form.{many, level};
ghost use Rattle.cv_parse_notation.specs.Reads.{read_sort};
ghost use Rattle.cv_parse_terms.specs.Gives.{Makes, MakesRow, read_marked};
ghost use Rattle.cv_parse_terms.specs.declared.lookahead.ReadError.TheVariants.{OutOfMemory};
ghost use Rattle.cv_parse_tables.specs.Table.{outer_form, never, Chooses, rows_of, form, row_form, piece_form, table_heads, table_rule, Row, table_below, table_reads, read_name, read_numeral, read_told, maybe_form, many_form};

use crate::fronts::begins_at;
use crate::piece::{Outer, Piece};
use crate::trees::{close_all, close_over, leaf};
use cv_parse_grammar::Role;
use cv_parse_notation::Sign;
use cv_parse_terms::{
    ReadError, Trail, close_chain, enter_marked, expect, note, number, script_word, shallow, word,
};
use cv_syntax::Head;

/// How many phrases one level down may stand at one another's front.
const HOPS: u32 = 8;

/// Two numbers of trees together. They are in memory, so there is a number for them.
fn added(a: usize, b: usize) -> Result<usize, ReadError>
    ensures sum { IfOk result (λ n. n ≡ a + b) }
    ensures full { IfErr result (λ e. e ≡ OutOfMemory) }
{
    a.checked_add(b).ok_or(ReadError::OutOfMemory)
}

/// The first of so many rows that can begin at a place.
fn chosen(
    rows: &[&[Piece]],
    bound: usize,
    first: u16,
    count: u16,
    signs: &[Sign],
    at: usize,
) -> Option<usize>
    requires bound { bound ≤ length rows.now }
    requires table { length rows.now ≤ 65536 }
    ensures some { IfSome result (λ r.
        Chooses rows.now bound first count (drop at signs.now) (form (rows_of rows.now) bound r)) }
    ensures none { IfNone result (Chooses rows.now bound first count (drop at signs.now) never) }
{
    let end = first as usize + count as usize;
    'rows: for row in first as usize..end {
        if begins_at(rows, bound, row, HOPS, signs, at) {
            return Some(row);
        }
    }
    None
}

/// A name, which is used so.
#[tactic(auto, using(crate::proofs::Readers::readers))]
fn name(
    signs: &[Sign],
    at: usize,
    trail: &mut Trail,
    role: Role,
) -> Result<(usize, usize), ReadError>
    requires at { at ≤ length signs.now }
    requires few { length signs.now < 2 ^ 32 }
    ensures reads { MakesRow signs.now trail.old trail.new result
        (read_name role (drop at signs.now)) }
{
    let (x, place) = word(signs, at, &mut trail.uses, role)?;
    leaf(&mut trail.makes, Head::Name(x))?;
    Ok((1, place))
}

/// A number.
#[tactic(auto, using(crate::proofs::Readers::readers))]
fn numeral(signs: &[Sign], at: usize, trail: &mut Trail) -> Result<(usize, usize), ReadError>
    requires at { at ≤ length signs.now }
    requires few { length signs.now < 2 ^ 32 }
    ensures reads { MakesRow signs.now trail.old trail.new result
        (read_numeral (drop at signs.now)) }
{
    let (value, place) = number(signs, at)?;
    leaf(&mut trail.makes, Head::Number(value))?;
    Ok((1, place))
}

/// A note about names.
#[tactic(auto, using(crate::proofs::Readers::readers))]
fn told(
    signs: &[Sign],
    at: usize,
    trail: &mut Trail,
    role: Role,
) -> Result<(usize, usize), ReadError>
    requires at { at ≤ length signs.now }
    requires few { length signs.now < 2 ^ 32 }
    ensures reads { MakesRow signs.now trail.old trail.new result
        (read_told role (drop at signs.now)) }
{
    note(signs, at, &mut trail.uses, role)?;
    Ok((0, at))
}

/// A phrase of files, in which names may have marks, by its row.
#[tactic(auto, using(cv_parse_terms::proofs::Entries::entries))]
fn outer(
    signs: &[Sign],
    at: usize,
    trail: &mut Trail,
    depth: u32,
    phrase: Outer,
) -> Result<usize, ReadError>
    requires at { at ≤ length signs.now }
    requires few { length signs.now < 2 ^ 32 }
    ensures reads { Makes postorder signs.now trail.old trail.new result
        (read_marked depth (outer_form phrase) (drop at signs.now)) }
{
    match phrase {
        Outer::Term => enter_marked(37, signs, at, trail, depth),
        Outer::Terms => enter_marked(2, signs, at, trail, depth),
        Outer::InnerTerm => enter_marked(1, signs, at, trail, depth),
        Outer::InnerSubscript => enter_marked(52, signs, at, trail, depth),
        Outer::Cell => enter_marked(41, signs, at, trail, depth),
        Outer::InnerCell => enter_marked(42, signs, at, trail, depth),
    }
}

/// What a row reads, where it can begin.
#[cycle(table)]
fn maybe(
    rows: &[&[Piece]],
    bound: usize,
    row: usize,
    signs: &[Sign],
    at: usize,
    trail: &mut Trail,
    depth: u32,
) -> Result<(usize, usize), ReadError>
    requires bound { bound ≤ length rows.now }
    requires table { length rows.now ≤ 65536 }
    requires at { at ≤ length signs.now }
    requires few { length signs.now < 2 ^ 32 }
    ensures reads { MakesRow signs.now trail.old trail.new result
        (table_reads (rows_of rows.now) depth (maybe_form false (form (rows_of rows.now) bound row))
        (drop at signs.now)) }
{
    if begins_at(rows, bound, row, HOPS, signs, at) {
        return read_row(rows, bound, row, signs, at, trail, depth);
    }
    Ok((0, at))
}

/// What a row reads, as often as it can begin.
#[cycle(table)]
fn repeated(
    rows: &[&[Piece]],
    bound: usize,
    row: usize,
    signs: &[Sign],
    at: usize,
    trail: &mut Trail,
    depth: u32,
) -> Result<(usize, usize), ReadError>
    requires bound { bound ≤ length rows.now }
    requires table { length rows.now ≤ 65536 }
    requires at { at ≤ length signs.now }
    requires few { length signs.now < 2 ^ 32 }
    ensures reads { MakesRow signs.now trail.old trail.new result
        (table_reads (rows_of rows.now) depth (many_form false (form (rows_of rows.now) bound row))
        (drop at signs.now)) }
{
    let mut count = 0;
    let mut place = at;
    let mut turns = signs.len() - at;
    'turns: while turns > 0 {
        if !begins_at(rows, bound, row, HOPS, signs, place) {
            return Ok((count, place));
        }
        let (more, end) = read_row(rows, bound, row, signs, place, trail, depth)?;
        count = added(count, more)?;
        place = end;
        turns -= 1;
    }
    Ok((count, place))
}

/// What a row reads, which opens a level.
#[cycle(table)]
fn levelled(
    rows: &[&[Piece]],
    bound: usize,
    row: usize,
    signs: &[Sign],
    at: usize,
    trail: &mut Trail,
    depth: u32,
) -> Result<(usize, usize), ReadError>
    requires bound { bound ≤ length rows.now }
    requires table { length rows.now ≤ 65536 }
    requires at { at ≤ length signs.now }
    requires few { length signs.now < 2 ^ 32 }
    ensures reads { MakesRow signs.now trail.old trail.new result
        (table_reads (rows_of rows.now) depth (level (form (rows_of rows.now) bound row))
        (drop at signs.now)) }
{
    if depth > 0 {
        return read_row(rows, bound, row, signs, at, trail, depth);
    }
    Err(shallow(signs, at, begins_at(rows, bound, row, HOPS, signs, at)))
}

/// A phrase of the row, whose trees become one, with so many levels left.
#[cycle(table)]
pub fn phrase(
    rows: &[&[Piece]],
    row: usize,
    signs: &[Sign],
    at: usize,
    trail: &mut Trail,
    depth: u32,
) -> Result<usize, ReadError>
    requires table { length rows.now ≤ 65536 }
    requires at { at ≤ length signs.now }
    requires few { length signs.now < 2 ^ 32 }
    ensures reads { Makes postorder signs.now trail.old trail.new result
        (read_sort (table_heads (rows_of rows.now)) (table_rule (rows_of rows.now)) depth (Row row)
        (drop at signs.now)) }
{
    let (count, place) = read_row(rows, rows.len(), row, signs, at, trail, depth)?;
    close_all(&mut trail.makes, count)?;
    Ok(place)
}

/// A phrase of the row, one level down.
#[cycle(table)]
fn deeper(
    rows: &[&[Piece]],
    row: usize,
    signs: &[Sign],
    at: usize,
    trail: &mut Trail,
    depth: u32,
) -> Result<usize, ReadError>
    requires table { length rows.now ≤ 65536 }
    requires at { at ≤ length signs.now }
    requires few { length signs.now < 2 ^ 32 }
    ensures reads { Makes postorder signs.now trail.old trail.new result
        (table_below (rows_of rows.now) depth (Row row) (drop at signs.now)) }
{
    if depth > 0 {
        return phrase(rows, row, signs, at, trail, depth - 1);
    }
    let begins = begins_at(rows, rows.len(), row, HOPS - 1, signs, at);
    Err(shallow(signs, at, begins))
}

/// A piece.
#[cycle(table)]
fn read_piece(
    rows: &[&[Piece]],
    bound: usize,
    piece: Piece,
    signs: &[Sign],
    at: usize,
    trail: &mut Trail,
    depth: u32,
) -> Result<(usize, usize), ReadError>
    requires bound { bound ≤ length rows.now }
    requires table { length rows.now ≤ 65536 }
    requires at { at ≤ length signs.now }
    requires few { length signs.now < 2 ^ 32 }
    ensures reads { MakesRow signs.now trail.old trail.new result
        (table_reads (rows_of rows.now) depth (piece_form (form (rows_of rows.now) bound) piece)
        (drop at signs.now)) }
{
    match piece {
        Piece::Sign(mark) => {
            let place = expect(signs, at, mark)?;
            Ok((0, place))
        }
        Piece::ScriptWord(word) => {
            let place = script_word(signs, at, word)?;
            Ok((0, place))
        }
        Piece::Blank => Ok((0, at)),
        Piece::Word(role) => name(signs, at, trail, role),
        Piece::Number => numeral(signs, at, trail),
        Piece::Note(role) => told(signs, at, trail, role),
        Piece::Phrase(phrase) => {
            let place = outer(signs, at, trail, depth, phrase)?;
            Ok((1, place))
        }
        Piece::Deeper(r) => {
            let place = deeper(rows, r as usize, signs, at, trail, depth)?;
            Ok((1, place))
        }
        Piece::May(_, r) => maybe(rows, bound, r as usize, signs, at, trail, depth),
        Piece::Many(_, r) => repeated(rows, bound, r as usize, signs, at, trail, depth),
        Piece::Either(r, s) => {
            if begins_at(rows, bound, r as usize, HOPS, signs, at) {
                return read_row(rows, bound, r as usize, signs, at, trail, depth);
            }
            read_row(rows, bound, s as usize, signs, at, trail, depth)
        }
        Piece::OneOf(first, count) => {
            if let Some(row) = chosen(rows, bound, first, count, signs, at) {
                return read_row(rows, bound, row, signs, at, trail, depth);
            }
            Err(ReadError::Syntax(at as u32))
        }
        Piece::Chain(r) => {
            let (count, place) = read_row(rows, bound, r as usize, signs, at, trail, depth)?;
            close_chain(&mut trail.makes, count)?;
            Ok((1, place))
        }
        Piece::Over(head, r) => {
            let (count, place) = read_row(rows, bound, r as usize, signs, at, trail, depth)?;
            close_over(&mut trail.makes, head, count)?;
            Ok((1, place))
        }
        Piece::Level(r) => levelled(rows, bound, r as usize, signs, at, trail, depth),
    }
}

/// Pieces one behind another: how many trees they made, and the place behind them.
#[cycle(table)]
fn read_pieces(
    rows: &[&[Piece]],
    bound: usize,
    pieces: &[Piece],
    signs: &[Sign],
    at: usize,
    trail: &mut Trail,
    depth: u32,
) -> Result<(usize, usize), ReadError>
    requires bound { bound ≤ length rows.now }
    requires table { length rows.now ≤ 65536 }
    requires at { at ≤ length signs.now }
    requires few { length signs.now < 2 ^ 32 }
    ensures reads { MakesRow signs.now trail.old trail.new result
        (table_reads (rows_of rows.now) depth (row_form (form (rows_of rows.now) bound) pieces.now)
        (drop at signs.now)) }
{
    let mut count = 0;
    let mut place = at;
    'pieces: for piece in pieces {
        let (more, end) = read_piece(rows, bound, *piece, signs, place, trail, depth)?;
        count = added(count, more)?;
        place = end;
    }
    Ok((count, place))
}

/// A row, of those before the bound: how many trees it made, and the place behind it.
#[cycle(table)]
fn read_row(
    rows: &[&[Piece]],
    bound: usize,
    row: usize,
    signs: &[Sign],
    at: usize,
    trail: &mut Trail,
    depth: u32,
) -> Result<(usize, usize), ReadError>
    requires bound { bound ≤ length rows.now }
    requires table { length rows.now ≤ 65536 }
    requires at { at ≤ length signs.now }
    requires few { length signs.now < 2 ^ 32 }
    ensures reads { MakesRow signs.now trail.old trail.new result
        (table_reads (rows_of rows.now) depth (form (rows_of rows.now) bound row)
        (drop at signs.now)) }
{
    if row < bound {
        return read_pieces(rows, row, rows[row], signs, at, trail, depth);
    }
    Err(ReadError::Syntax(at as u32))
}
