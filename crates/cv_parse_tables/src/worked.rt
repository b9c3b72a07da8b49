ghost use Rattle.std.specs.Prelude.{◌≡◌, ◌<◌, ◌≤◌, ◌^◌, length, drop, ℕ, List, [], ◌∷◌, Ok, Err};
ghost use Rattle.cv_syntax.specs.Postorder.{postorder};
ghost use Rattle.cv_parse_notation.specs.Reads.{read_sort, found, Syntax, Nesting};
ghost use Rattle.cv_parse_terms.specs.Gives.{Makes};
ghost use Rattle.cv_parse_tables.specs.Table.{table_heads, table_rule, Row};
ghost use Rattle.cv_parse_tables.specs.Worked.{blocks, read_block, nested, nesting, uses_of_nested, deeper_nested, unended, marked, marking, uses_of_marked, marked_twice};

use crate::piece::{Outer, Piece};
use crate::reading::phrase;
use cv_parse_grammar::Role;
use cv_parse_notation::{Mark, ScriptWord, Sign};
use cv_parse_terms::{ReadError, Trail};
use cv_syntax::Head;

const MORE: u16 = 0;

const NAMES: u16 = 1;

const CHOICE: u16 = 2;

const BINDING: u16 = 3;

const COUNT: u16 = 4;

const CONDITION: u16 = 5;

const TEST: u16 = 6;

const PRUNING: u16 = 7;

const NEW: u16 = 8;

const LINE: u16 = 12;

const LINES: u16 = 13;

const BRACES: u16 = 14;

const BLOCK: u16 = 15;

/// A small grammar: a block has lines `new x, y;`, `let x = n;`, `if n` or `if M` with a block of its
/// own, and `prune x[M];`.
const ROWS: [&[Piece]; 16] = [
    &[Piece::Sign(Mark::Comma), Piece::Word(Role::Nothing)],
    &[Piece::Word(Role::Nothing), Piece::Many(false, MORE)],
    &[Piece::Sign(Mark::New), Piece::Chain(NAMES)],
    &[
        Piece::Sign(Mark::Let),
        Piece::Word(Role::BindsLocal),
        Piece::Sign(Mark::Equal),
        Piece::Number,
    ],
    &[Piece::Number],
    &[Piece::Phrase(Outer::Term)],
    &[
        Piece::Sign(Mark::If),
        Piece::Either(COUNT, CONDITION),
        Piece::Deeper(BLOCK),
    ],
    &[
        Piece::ScriptWord(ScriptWord::Prune),
        Piece::Blank,
        Piece::Phrase(Outer::Cell),
    ],
    &[Piece::Over(Head::SplitStep, CHOICE)],
    &[Piece::Over(Head::MoveStep, BINDING)],
    &[Piece::Over(Head::Cases, TEST)],
    &[Piece::Over(Head::PruneStep, PRUNING)],
    &[Piece::OneOf(NEW, 4), Piece::Sign(Mark::Semicolon)],
    &[Piece::Many(false, LINE)],
    &[
        Piece::Sign(Mark::OpenBrace),
        Piece::Chain(LINES),
        Piece::Sign(Mark::CloseBrace),
    ],
    &[Piece::Level(BRACES)],
];

/// A block of the small grammar.
pub fn block(signs: &[Sign], at: usize, trail: &mut Trail, depth: u32) -> Result<usize, ReadError>
    requires at { at ≤ length signs.now }
    requires few { length signs.now < 2 ^ 32 }
    ensures reads { Makes postorder signs.now trail.old trail.new result
        (read_block depth (drop at signs.now)) }
{
    phrase(&ROWS, BLOCK as usize, signs, at, trail, depth)
}

/// Readings of the small grammar: a block in a block, a block that is one level too deep, a block that
/// does not end, and names with a mark and with two.
pub fn worked_readings()
    ensures nested { read_block 2 nested ≡ found nesting uses_of_nested [] }
    ensures too_deep { read_block 2 deeper_nested ≡ Err (Nesting 6) }
    ensures unended { read_block 1 unended ≡ Err (Syntax 0) }
    ensures marked { read_block 2 marked ≡ found marking uses_of_marked [] }
    ensures marked_twice { read_block 2 marked_twice ≡ Err (Syntax 1) }
{}
