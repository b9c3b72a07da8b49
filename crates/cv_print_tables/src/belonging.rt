// Which trees belong to a row, and how many a row takes.
ghost use Rattle.std.specs.Prelude.{◌≡◌, ◌<◌, ◌≤◌, ℕ, [], true, slice_index_or, length, IfSome, IfNone};
ghost use Rattle.cv_parse_tables.specs.Table.{rows_of};
ghost use Rattle.cv_print_tables.specs.Layout.{Layout, chooses, layout, never, one_of, piece_layout, row_layout};
ghost use Rattle.cv_print_tables.specs.Prints as prints;
ghost use Rattle.cv_print_tables.specs.Prints.{belongs, head_belongs, takes, Chooses};

use cv_parse_tables::{Outer, Piece};
use cv_syntax::Head;

/// The pieces of a row.
#[tactic(auto, using(crate::proofs::Rows::row_laws))]
pub(crate) fn pieces_of<'a>(rows: &[&'a [Piece]], row: usize) -> &'a [Piece]
    requires { row < length rows.now }
    ensures { result.now ≡ slice_index_or (rows_of rows.now) row [] }
{
    rows[row]
}

/// Whether a piece has a text of its own and takes no tree.
#[tactic(auto, using(crate::proofs::Rows::row_laws))]
fn is_text(piece: Piece) -> bool
    ensures { (row : ℕ → Layout) → result ≡ prints.is_text (piece_layout row piece) }
{
    match piece {
        Piece::Sign(_) | Piece::ScriptWord(_) | Piece::Blank | Piece::Note(_) => true,
        Piece::Word(_)
        | Piece::Number
        | Piece::Phrase(_)
        | Piece::Deeper(_)
        | Piece::May(_, _)
        | Piece::Many(_, _)
        | Piece::Either(_, _)
        | Piece::OneOf(_, _)
        | Piece::Chain(_)
        | Piece::Over(_, _)
        | Piece::Level(_) => false,
    }
}

/// How many trees a piece takes.
#[tactic(auto, using(crate::proofs::Rows::row_laws))]
fn taken_by(piece: Piece) -> usize
    ensures takes { (row : ℕ → Layout) → result ≡ takes (piece_layout row piece) }
    ensures few { result ≤ 1 }
{
    if is_text(piece) { 0 } else { 1 }
}

/// How many trees a row takes, of those before the bound.
#[tactic(auto, using(crate::proofs::Rows::row_laws))]
pub(crate) fn taken(rows: &[&[Piece]], bound: usize, row: usize) -> usize
    requires { bound ≤ length rows.now }
    ensures { result ≡ takes (layout (rows_of rows.now) bound row) }
{
    if row >= bound {
        return 1;
    }
    let pieces = pieces_of(rows, row);
    let mut count = 0;
    'pieces: for piece in pieces {
        count += taken_by(*piece);
    }
    count
}

/// Whether a head is one of a term.
fn is_term(head: Head) -> bool
    ensures { result ≡ prints.is_term head }
{
    match head {
        Head::Leaf(_)
        | Head::Primed(_)
        | Head::Read(_)
        | Head::Apply(_)
        | Head::Eq
        | Head::And
        | Head::Or
        | Head::Not
        | Head::Yes
        | Head::No => true,
        _ => false,
    }
}

/// Whether a head is one of a phrase of files.
fn is_outer(phrase: Outer, head: Head) -> bool
    ensures { result ≡ prints.is_outer phrase head }
{
    match phrase {
        Outer::Terms | Outer::InnerSubscript => true,
        Outer::Term | Outer::InnerTerm | Outer::Cell | Outer::InnerCell => is_term(head),
    }
}

/// Whether a head is a name.
fn is_name(head: Head) -> bool
    ensures { result ≡ prints.is_name head }
{
    match head {
        Head::Name(_) => true,
        _ => false,
    }
}

/// Whether a head is a number.
fn is_number(head: Head) -> bool
    ensures { result ≡ prints.is_number head }
{
    match head {
        Head::Number(_) => true,
        _ => false,
    }
}

/// Whether a tree with a head belongs to a piece.
#[cycle(belonging)]
#[tactic(auto, using(crate::proofs::Rows::row_laws))]
fn piece_belongs(rows: &[&[Piece]], bound: usize, piece: Piece, head: Head) -> bool
    requires { bound ≤ length rows.now }
    ensures { result ≡ belongs (piece_layout (layout (rows_of rows.now) bound) piece) head }
{
    match piece {
        Piece::Sign(_) | Piece::ScriptWord(_) | Piece::Blank | Piece::Note(_) => false,
        Piece::Word(_) => is_name(head),
        Piece::Number => is_number(head),
        Piece::Phrase(phrase) => is_outer(phrase, head),
        Piece::Deeper(_) | Piece::Chain(_) => true,
        Piece::Over(over, _) => over.code() == head.code(),
        Piece::May(_, r) | Piece::Many(_, r) | Piece::Level(r) => {
            row_belongs(rows, bound, r as usize, head)
        }
        Piece::Either(r, s) => {
            row_belongs(rows, bound, r as usize, head) || row_belongs(rows, bound, s as usize, head)
        }
        Piece::OneOf(first, count) => any_belongs(rows, bound, first, count, head),
    }
}

/// Whether a tree with a head belongs to one of so many rows.
#[cycle(belonging)]
#[tactic(auto, using(crate::proofs::Rows::row_laws))]
fn any_belongs(rows: &[&[Piece]], bound: usize, first: u16, count: u16, head: Head) -> bool
    requires { bound ≤ length rows.now }
    ensures { result ≡ belongs (one_of (layout (rows_of rows.now) bound) first count) head }
{
    let end = first as usize + count as usize;
    'rows: for row in first as usize..end {
        if row_belongs(rows, bound, row, head) {
            return true;
        }
    }
    false
}

/// Whether a tree with a head belongs to pieces one behind another.
#[cycle(belonging)]
#[tactic(auto, using(crate::proofs::Rows::row_laws))]
fn pieces_belong(rows: &[&[Piece]], bound: usize, pieces: &[Piece], head: Head) -> bool
    requires { bound ≤ length rows.now }
    ensures { result ≡ belongs (row_layout (layout (rows_of rows.now) bound) pieces.now) head }
{
    'pieces: for piece in pieces {
        if !is_text(*piece) {
            return piece_belongs(rows, bound, *piece, head);
        }
    }
    false
}

/// Whether a tree with a head belongs to a row, of those before the bound.
#[cycle(belonging)]
#[tactic(auto, using(crate::proofs::Rows::row_laws))]
fn row_belongs(rows: &[&[Piece]], bound: usize, row: usize, head: Head) -> bool
    requires { bound ≤ length rows.now }
    ensures { result ≡ belongs (layout (rows_of rows.now) bound row) head }
{
    if row < bound {
        return pieces_belong(rows, row, pieces_of(rows, row), head);
    }
    false
}

/// Whether the next tree belongs to a row, by its head where it has one.
#[tactic(auto, using(crate::proofs::Rows::row_laws))]
pub(crate) fn fits(rows: &[&[Piece]], bound: usize, row: usize, head: Option<Head>) -> bool
    requires { bound ≤ length rows.now }
    ensures { result ≡ head_belongs (layout (rows_of rows.now) bound row) head }
{
    match head {
        Some(head) => row_belongs(rows, bound, row, head),
        None => false,
    }
}

/// The first of so many rows to which the next tree belongs.
#[tactic(auto, using(crate::proofs::Rows::row_laws))]
fn chosen(
    rows: &[&[Piece]],
    bound: usize,
    first: u16,
    count: u16,
    head: Option<Head>,
) -> Option<usize>
    requires { bound ≤ length rows.now }
    ensures some { IfSome result (λ r. Chooses (one_of (layout (rows_of rows.now) bound) first count)
        head (layout (rows_of rows.now) bound r)) }
    ensures none { IfNone result (Chooses (one_of (layout (rows_of rows.now) bound) first count)
        head never) }
{
    let end = first as usize + count as usize;
    'rows: for row in first as usize..end {
        if fits(rows, bound, row, head) {
            return Some(row);
        }
    }
    None
}

/// The row that a choice or a part that may be missing prints, where the next tree has this head.
#[tactic(auto, using(crate::proofs::Rows::row_laws))]
pub(crate) fn alternative(
    rows: &[&[Piece]],
    bound: usize,
    piece: Piece,
    head: Option<Head>,
) -> Option<usize>
    requires bound { bound ≤ length rows.now }
    requires choice { chooses piece ≡ true }
    ensures some { IfSome result (λ r.
        Chooses (piece_layout (layout (rows_of rows.now) bound) piece) head
        (layout (rows_of rows.now) bound r)) }
    ensures none { IfNone result (
        Chooses (piece_layout (layout (rows_of rows.now) bound) piece) head never) }
{
    match piece {
        Piece::May(_, r) if fits(rows, bound, r as usize, head) => Some(r as usize),
        Piece::Either(r, _) if fits(rows, bound, r as usize, head) => Some(r as usize),
        Piece::Either(_, s) => Some(s as usize),
        Piece::OneOf(first, count) => chosen(rows, bound, first, count, head),
        _ => None,
    }
}
