// The rows of scripts, where the mark of the second copy of a pair may stand behind a bare name.
ghost use Rattle.std.specs.Prelude.{◌≡◌, ◌<◌, ◌≤◌, ◌^◌, length, true};
ghost use Rattle.cv_parse_terms.specs.Tables.{rows_of};
ghost use Rattle.cv_parse_terms.specs.TermRows.{EntersAlone, rows_of_terms};

use crate::interpreter::read_table;
use crate::lookahead::ReadError;
use crate::phrases::{ROWS, table};
use crate::piece::{Naming, Piece};
use crate::trail::Trail;
use cv_parse_grammar::Role;
use cv_parse_notation::{Mark, Sign};
use cv_syntax::Make::Nothing;

/// The row of nothing behind a name.
const BARE_NAME: usize = 11;

/// Nothing behind a name, or the mark.
const BARE_OR_MARKED: [Piece; 4] = [
    Piece::Note(Role::AsBare),
    Piece::Part(Nothing),
    Piece::Part(Nothing),
    Piece::Marked(Mark::Prime, Naming::Primed, Naming::Leaf),
];

/// The rows of files, with the mark.
fn marked_table() -> [&'static [Piece]; ROWS]
    ensures { rows_of result ≡ rows_of_terms true }
{
    let mut rows = table();
    rows[BARE_NAME] = &BARE_OR_MARKED;
    rows
}

/// What a row of the table reads in scripts.
pub fn enter_marked(
    row: u16,
    signs: &[Sign],
    at: usize,
    trail: &mut Trail,
    depth: u32,
) -> Result<usize, ReadError>
    requires at { at ≤ length signs.now }
    requires few { length signs.now < 2 ^ 32 }
    ensures { EntersAlone true row depth signs.now at trail.old result trail.new }
{
    let mut names = Vec::new(*trail.makes.allocator());
    let rows = marked_table();
    read_table(&rows, row as usize, signs, at, trail, &mut names, depth)
}
