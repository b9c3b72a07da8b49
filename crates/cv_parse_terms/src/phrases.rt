ghost use Rattle.std.specs.Prelude.{◌≡◌, ◌<◌, ◌≤◌, ◌^◌, length, drop};
ghost use Rattle.cv_syntax.specs.Postorder.{postorder};
ghost use Rattle.cv_parse_grammar.specs.Terms.{term as term_form};
ghost use Rattle.cv_parse_terms.specs.Gives.{Makes, read_in};
ghost use Rattle.cv_parse_terms.specs.Tables.{rows_of};
ghost use Rattle.cv_parse_terms.specs.TermRows.{Enters, EntersWith, term_rows};

use crate::interpreter::read_table;
use crate::lookahead::ReadError;
use crate::piece::Piece::{
    Again, Before, Bounds, Choice, Deeper, Find, Instead, Level, List as Items, Many, Named, Note,
    Paired, Part, Row, Sign as Says, Value, Word, Zero,
};
use crate::piece::{Ahead as Next, Closing, Naming, Pairing, Piece};
use crate::trail::Trail;
use cv_parse_grammar::{Asked, Region, Role};
use cv_parse_notation::{Mark, Sign};
use cv_syntax::Head;
use cv_syntax::Make::{Nothing, Over};

/// How many rows there are. A row that stands before one that only opens a level is the inside of it.
pub(crate) const ROWS: usize = 217;

/// Terms, and types with their variables.
const TERM_ROWS: [&[Piece]; 64] = [
    &[],
    &[Deeper(Next::Term, 37)],
    &[Items(Closing::Trees, Mark::Comma, 1)],
    &[Says(Mark::Open), Row(2), Says(Mark::Close)],
    &[Level(Next::Mark(Mark::Open), 3)],
    &[Says(Mark::OpenSquare), Row(2), Says(Mark::CloseSquare)],
    &[Level(Next::Mark(Mark::OpenSquare), 5)],
    &[Says(Mark::Open), Row(1), Says(Mark::Close)],
    &[Level(Next::Mark(Mark::Open), 7)],
    &[
        Note(Role::AsCall),
        Deeper(Next::Mark(Mark::Open), 4),
        Part(Nothing),
        Named(Naming::Apply),
    ],
    &[
        Note(Role::AsArray),
        Deeper(Next::Mark(Mark::OpenSquare), 6),
        Part(Nothing),
        Named(Naming::Read),
    ],
    &[
        Note(Role::AsBare),
        Part(Nothing),
        Part(Nothing),
        Named(Naming::Leaf),
    ],
    &[Choice(Next::Mark(Mark::OpenSquare), 10, 11)],
    &[Word(Role::Mentions), Choice(Next::Mark(Mark::Open), 9, 12)],
    &[Level(Next::Word, 13)],
    &[
        Says(Mark::Not),
        Deeper(Next::Mark(Mark::Open), 8),
        Part(Nothing),
        Part(Over(Head::Not)),
    ],
    &[Level(Next::Mark(Mark::Not), 15)],
    &[
        Says(Mark::True),
        Part(Nothing),
        Part(Nothing),
        Part(Over(Head::Yes)),
    ],
    &[Level(Next::Mark(Mark::True), 17)],
    &[
        Says(Mark::False),
        Part(Nothing),
        Part(Nothing),
        Part(Over(Head::No)),
    ],
    &[Level(Next::Mark(Mark::False), 19)],
    &[Choice(Next::Mark(Mark::False), 20, 8)],
    &[Choice(Next::Mark(Mark::True), 18, 21)],
    &[Choice(Next::Mark(Mark::Not), 16, 22)],
    &[Choice(Next::Word, 14, 23)],
    &[Says(Mark::Differ), Deeper(Next::Term, 24)],
    &[Level(Next::Mark(Mark::Differ), 25)],
    &[
        Deeper(Next::Mark(Mark::Differ), 26),
        Part(Over(Head::Eq)),
        Part(Nothing),
        Part(Over(Head::Not)),
    ],
    &[Says(Mark::Equal)],
    &[
        Level(Next::Mark(Mark::Equal), 28),
        Deeper(Next::Term, 24),
        Part(Over(Head::Eq)),
    ],
    &[Choice(Next::Mark(Mark::Differ), 27, 0)],
    &[Row(24), Choice(Next::Mark(Mark::Equal), 29, 30)],
    &[Says(Mark::Both)],
    &[
        Level(Next::Mark(Mark::Both), 32),
        Deeper(Next::Term, 34),
        Part(Over(Head::And)),
    ],
    &[Row(31), Choice(Next::Mark(Mark::Both), 33, 0)],
    &[Says(Mark::Either)],
    &[
        Level(Next::Mark(Mark::Either), 35),
        Deeper(Next::Term, 37),
        Part(Over(Head::Or)),
    ],
    &[Row(34), Choice(Next::Mark(Mark::Either), 36, 0)],
    &[
        Deeper(Next::Mark(Mark::OpenSquare), 6),
        Part(Nothing),
        Named(Naming::Read),
    ],
    &[Part(Nothing), Part(Nothing), Named(Naming::Leaf)],
    &[
        Word(Role::MentionsCell),
        Choice(Next::Mark(Mark::OpenSquare), 38, 39),
    ],
    &[Level(Next::Word, 40)],
    &[Deeper(Next::Word, 41)],
    &[
        Says(Mark::Open),
        Items(Closing::Trees, Mark::Comma, 42),
        Says(Mark::Close),
    ],
    &[Level(Next::Mark(Mark::Open), 43)],
    &[Deeper(Next::Mark(Mark::Open), 44)],
    &[Says(Mark::Both), Row(1)],
    &[Part(Nothing), Part(Nothing), Part(Over(Head::Yes))],
    &[
        Says(Mark::Defined),
        Row(45),
        Choice(Next::Mark(Mark::Both), 46, 47),
    ],
    &[Part(Nothing), Row(1)],
    &[Choice(Next::Mark(Mark::Defined), 48, 49)],
    &[Deeper(Next::Mark(Mark::Open), 4)],
    &[Deeper(Next::Mark(Mark::OpenSquare), 6)],
    &[Row(1), Part(Nothing), Part(Over(Head::Cons))],
    &[Part(Nothing)],
    &[Choice(Next::Term, 2, 54)],
    &[Says(Mark::Bool), Value(0)],
    &[Word(Role::Asks(Asked::AType))],
    &[Choice(Next::Mark(Mark::Bool), 56, 57)],
    &[Word(Role::BindsVariable), Says(Mark::Colon), Row(58)],
    &[Word(Role::BindsLocal), Says(Mark::Colon), Row(58)],
    &[Row(59), Part(Nothing)],
    &[Items(Closing::Binders, Mark::Comma, 61)],
    &[
        Says(Mark::Open),
        Choice(Next::Word, 62, 54),
        Says(Mark::Close),
    ],
];

/// Processes.
const PROCESS_ROWS: [&[Piece]; 64] = [
    &[Level(Next::Mark(Mark::Open), 63)],
    &[Deeper(Next::Mark(Mark::Open), 64)],
    &[
        Row(59),
        Part(Nothing),
        Part(Nothing),
        Paired(Pairing::Binder),
    ],
    &[Choice(Next::Mark(Mark::Open), 65, 66)],
    &[Word(Role::AsksIndex), Part(Nothing)],
    &[
        Says(Mark::OpenSquare),
        Items(Closing::Names, Mark::Comma, 68),
        Says(Mark::CloseSquare),
    ],
    &[Level(Next::Mark(Mark::OpenSquare), 69)],
    &[Deeper(Next::Mark(Mark::OpenSquare), 70)],
    &[
        Word(Role::Asks(Asked::AChannel)),
        Choice(Next::Mark(Mark::OpenSquare), 71, 54),
    ],
    &[
        Says(Mark::Open),
        Row(72),
        Says(Mark::Comma),
        Row(67),
        Says(Mark::Close),
    ],
    &[Level(Next::Mark(Mark::Open), 73)],
    &[Says(Mark::Open), Row(55), Says(Mark::Close)],
    &[Level(Next::Mark(Mark::Open), 75)],
    &[Deeper(Next::Mark(Mark::Open), 76)],
    &[Choice(Next::Mark(Mark::Open), 77, 53)],
    &[
        Says(Mark::Open),
        Row(72),
        Says(Mark::Comma),
        Row(78),
        Says(Mark::Close),
    ],
    &[Level(Next::Mark(Mark::Open), 79)],
    &[Zero, Part(Nothing), Part(Nothing), Part(Over(Head::Stop))],
    &[Level(Next::Zero, 81)],
    &[Says(Mark::Open), Deeper(Next::Input, 94), Says(Mark::Close)],
    &[Level(Next::Mark(Mark::Open), 83)],
    &[
        Says(Mark::Bang),
        Word(Role::BindsIndex),
        Says(Mark::AtMost),
        Word(Role::Asks(Asked::AParam)),
        Part(Nothing),
        Deeper(Next::Input, 91),
        Paired(Pairing::Repl),
    ],
    &[Level(Next::Mark(Mark::Bang), 85)],
    &[
        Says(Mark::In),
        Deeper(Next::Mark(Mark::Open), 74),
        Part(Over(Head::Cons)),
        Says(Mark::Semicolon),
        Deeper(Next::Output, 127),
        Named(Naming::In),
    ],
    &[Level(Next::Mark(Mark::In), 87)],
    &[Choice(Next::Mark(Mark::Bang), 86, 88)],
    &[Choice(Next::Mark(Mark::Open), 84, 89)],
    &[Choice(Next::Zero, 82, 90)],
    &[Says(Mark::Bar)],
    &[
        Level(Next::Mark(Mark::Bar), 92),
        Deeper(Next::Input, 94),
        Part(Over(Head::Par)),
    ],
    &[Row(91), Choice(Next::Mark(Mark::Bar), 93, 0)],
    &[
        Says(Mark::Yield),
        Part(Nothing),
        Part(Nothing),
        Part(Over(Head::Yield)),
    ],
    &[Level(Next::Mark(Mark::Yield), 95)],
    &[
        Says(Mark::Open),
        Deeper(Next::Output, 127),
        Says(Mark::Close),
    ],
    &[Level(Next::Mark(Mark::Open), 97)],
    &[Says(Mark::Semicolon), Deeper(Next::Input, 91)],
    &[Part(Nothing), Part(Nothing), Part(Over(Head::Stop))],
    &[
        Says(Mark::Out),
        Deeper(Next::Mark(Mark::Open), 80),
        Part(Over(Head::Cons)),
        Choice(Next::Mark(Mark::Semicolon), 99, 100),
        Named(Naming::Out),
    ],
    &[Level(Next::Mark(Mark::Out), 101)],
    &[
        Says(Mark::New),
        Row(59),
        Says(Mark::Semicolon),
        Part(Nothing),
        Deeper(Next::Output, 127),
        Paired(Pairing::New),
    ],
    &[Level(Next::Mark(Mark::New), 103)],
    &[
        Says(Mark::Let),
        Row(59),
        Says(Mark::Equal),
        Row(1),
        Says(Mark::In),
        Deeper(Next::Output, 127),
        Paired(Pairing::Let),
    ],
    &[Level(Next::Mark(Mark::Let), 105)],
    &[
        Says(Mark::EventWord),
        Word(Role::Asks(Asked::AnEvent)),
        Choice(Next::Mark(Mark::Open), 51, 54),
        Says(Mark::Semicolon),
        Deeper(Next::Output, 127),
        Named(Naming::Event),
    ],
    &[Level(Next::Mark(Mark::EventWord), 107)],
    &[Says(Mark::Else), Deeper(Next::Output, 127)],
    &[Part(Nothing), Part(Nothing), Part(Over(Head::Yield))],
    &[
        Says(Mark::If),
        Row(1),
        Says(Mark::Then),
        Deeper(Next::Output, 127),
        Choice(Next::Mark(Mark::Else), 109, 110),
        Part(Nothing),
        Part(Over(Head::Cons)),
        Part(Over(Head::Cons)),
        Part(Over(Head::If)),
    ],
    &[Level(Next::Mark(Mark::If), 111)],
    &[Says(Mark::At), Instead],
    &[
        Word(Role::BindsVariable),
        Says(Mark::AtMost),
        Word(Role::Asks(Asked::AParam)),
        Part(Nothing),
    ],
    &[Items(Closing::Binders, Mark::Comma, 114)],
    &[
        Choice(Next::Word, 115, 54),
        Says(Mark::Suchthat),
        Row(50),
        Says(Mark::Then),
        Deeper(Next::Output, 127),
        Part(Over(Head::Cons)),
        Part(Over(Head::Cons)),
        Part(Over(Head::Branch)),
    ],
    &[Level(Next::Branch, 116)],
    &[Deeper(Next::Branch, 117)],
    &[
        Find,
        Choice(Next::Mark(Mark::At), 113, 0),
        Items(Closing::Trees, Mark::Orfind, 118),
        Choice(Next::Mark(Mark::Else), 109, 110),
        Named(Naming::Find),
    ],
    &[Level(Next::Find, 119)],
    &[Choice(Next::Mark(Mark::If), 112, 120)],
    &[Choice(Next::Mark(Mark::EventWord), 108, 121)],
    &[Choice(Next::Mark(Mark::Let), 106, 122)],
    &[Choice(Next::Mark(Mark::New), 104, 123)],
    &[Choice(Next::Mark(Mark::Out), 102, 124)],
    &[Choice(Next::Mark(Mark::Open), 98, 125)],
    &[Choice(Next::Mark(Mark::Yield), 96, 126)],
];

/// The bodies of functions, and their variables.
const BODY_ROWS: [&[Piece]; 22] = [
    &[
        Says(Mark::New),
        Row(60),
        Says(Mark::Semicolon),
        Part(Nothing),
        Deeper(Next::Body, 145),
        Paired(Pairing::New),
    ],
    &[Level(Next::Mark(Mark::New), 128)],
    &[
        Says(Mark::Let),
        Row(60),
        Says(Mark::Equal),
        Row(1),
        Says(Mark::In),
        Deeper(Next::Body, 145),
        Paired(Pairing::Let),
    ],
    &[Level(Next::Mark(Mark::Let), 130)],
    &[Says(Mark::Else), Deeper(Next::Body, 145)],
    &[
        Says(Mark::If),
        Row(1),
        Says(Mark::Then),
        Deeper(Next::Body, 145),
        Row(132),
        Part(Nothing),
        Part(Over(Head::Cons)),
        Part(Over(Head::Cons)),
        Part(Over(Head::If)),
    ],
    &[Level(Next::Mark(Mark::If), 133)],
    &[
        Word(Role::BindsLocal),
        Says(Mark::AtMost),
        Word(Role::AsksBound),
        Part(Nothing),
    ],
    &[Items(Closing::Binders, Mark::Comma, 135)],
    &[
        Choice(Next::Word, 136, 54),
        Says(Mark::Suchthat),
        Row(50),
        Says(Mark::Then),
        Deeper(Next::Body, 145),
        Part(Over(Head::Cons)),
        Part(Over(Head::Cons)),
        Part(Over(Head::Branch)),
    ],
    &[Level(Next::Branch, 137)],
    &[Deeper(Next::Branch, 138)],
    &[
        Find,
        Choice(Next::Mark(Mark::At), 113, 0),
        Items(Closing::Trees, Mark::Orfind, 139),
        Row(132),
        Named(Naming::Find),
    ],
    &[Level(Next::Find, 140)],
    &[Choice(Next::Find, 141, 37)],
    &[Choice(Next::Mark(Mark::If), 134, 142)],
    &[Choice(Next::Mark(Mark::Let), 131, 143)],
    &[Choice(Next::Mark(Mark::New), 129, 144)],
    &[Row(60), Part(Nothing)],
    &[Items(Closing::Binders, Mark::Comma, 146)],
    &[
        Says(Mark::Open),
        Choice(Next::Word, 147, 54),
        Says(Mark::Close),
    ],
    &[Level(Next::Mark(Mark::Open), 148)],
];

/// Declarations.
const DECLARATION_ROWS: [&[Piece]; 67] = [
    &[Row(147), Says(Mark::Semicolon)],
    &[Says(Mark::Forall), Row(150)],
    &[
        Says(Mark::EquationWord),
        Note(Role::Enters(Region::InEquation)),
        Choice(Next::Mark(Mark::Forall), 151, 54),
        Row(37),
        Part(Over(Head::Forall)),
        Note(Role::Leaves),
        Says(Mark::Dot),
    ],
    &[Row(58), Part(Nothing)],
    &[
        Says(Mark::Open),
        Items(Closing::Names, Mark::Comma, 153),
        Says(Mark::Close),
    ],
    &[Level(Next::Mark(Mark::Open), 154)],
    &[Word(Role::Declares(Asked::AParam)), Part(Nothing)],
    &[
        Says(Mark::Param),
        Items(Closing::Apart, Mark::Comma, 156),
        Says(Mark::Dot),
    ],
    &[Word(Role::Declares(Asked::AChannel)), Part(Nothing)],
    &[
        Says(Mark::Channel),
        Items(Closing::Apart, Mark::Comma, 158),
        Says(Mark::Dot),
    ],
    &[
        Says(Mark::Proba),
        Word(Role::Declares(Asked::AProbability)),
        Part(Nothing),
        Says(Mark::Dot),
    ],
    &[Says(Mark::Fixed), Value(0)],
    &[Says(Mark::Large), Value(1)],
    &[Says(Mark::Bounded), Value(2)],
    &[Choice(Next::Mark(Mark::Large), 162, 163)],
    &[Choice(Next::Mark(Mark::Fixed), 161, 164)],
    &[
        Says(Mark::OpenSquare),
        Items(Closing::Apart, Mark::Comma, 165),
        Says(Mark::CloseSquare),
    ],
    &[Level(Next::Mark(Mark::OpenSquare), 166)],
    &[
        Says(Mark::TypeWord),
        Word(Role::Declares(Asked::AType)),
        Choice(Next::Mark(Mark::OpenSquare), 167, 0),
        Part(Nothing),
        Says(Mark::Dot),
    ],
    &[Word(Role::Declares(Asked::AFunction)), Part(Nothing)],
    &[
        Says(Mark::ConstWord),
        Items(Closing::Apart, Mark::Comma, 169),
        Says(Mark::Colon),
        Row(58),
        Says(Mark::Dot),
    ],
    &[Says(Mark::Data)],
    &[Says(Mark::Compos)],
    &[
        Says(Mark::OpenSquare),
        Choice(Next::Mark(Mark::Data), 171, 172),
        Says(Mark::CloseSquare),
    ],
    &[Level(Next::Mark(Mark::OpenSquare), 173), Value(1)],
    &[Value(0)],
    &[
        Says(Mark::Fun),
        Word(Role::Declares(Asked::AFunction)),
        Row(155),
        Says(Mark::Colon),
        Row(58),
        Choice(Next::Mark(Mark::OpenSquare), 174, 175),
        Says(Mark::Dot),
    ],
    &[
        Says(Mark::EventWord),
        Word(Role::Declares(Asked::AnEvent)),
        Choice(Next::Mark(Mark::Open), 155, 54),
        Says(Mark::Dot),
    ],
    &[
        Says(Mark::Secret),
        Word(Role::Unchecked),
        Part(Nothing),
        Part(Nothing),
        Named(Naming::Secret),
    ],
    &[
        Says(Mark::SecretOnce),
        Word(Role::Unchecked),
        Part(Nothing),
        Part(Nothing),
        Named(Naming::SecretOnce),
    ],
    &[
        Says(Mark::EventWord),
        Word(Role::Asks(Asked::AnEvent)),
        Choice(Next::Mark(Mark::Open), 4, 54),
        Part(Nothing),
    ],
    &[Says(Mark::Inj), Row(180), Named(Naming::OccursOnce)],
    &[Row(180), Named(Naming::Occurs)],
    &[Choice(Next::Mark(Mark::Inj), 181, 182)],
    &[Choice(Next::Mark(Mark::EventWord), 182, 31)],
    &[Choice(Next::Mark(Mark::Inj), 181, 184)],
    &[Deeper(Next::Mark(Mark::OpenAtoms), 216)],
    &[Choice(Next::Mark(Mark::OpenAtoms), 186, 185)],
    &[Items(Closing::Trees, Mark::Both, 187)],
    &[Items(Closing::Alternatives, Mark::Either, 188)],
    &[
        Says(Mark::Open),
        Word(Role::Asks(Asked::AProbability)),
        Says(Mark::Close),
    ],
    &[
        Says(Mark::AtMost),
        Level(Next::Mark(Mark::Open), 190),
        Says(Mark::Gives),
    ],
    &[
        Says(Mark::Bang),
        Word(Role::BindsLocal),
        Says(Mark::AtMost),
        Word(Role::BindsBound),
        Value(1),
        Value(0),
    ],
    &[Again, Value(0), Value(0), Value(0)],
    &[Row(60), Says(Mark::Semicolon), Part(Nothing)],
    &[Row(149), Bounds, Says(Mark::Arrow), Row(145)],
    &[
        Word(Role::BindsLocal),
        Says(Mark::Colon),
        Choice(Next::Mark(Mark::Bang), 192, 193),
        Many(Closing::Binders, Mark::New, 194),
        Row(195),
        Named(Naming::Oracle),
    ],
    &[
        Says(Mark::New),
        Row(60),
        Before,
        Says(Mark::Semicolon),
        Deeper(Next::Arguments, 199),
        Paired(Pairing::New),
    ],
    &[Level(Next::Mark(Mark::New), 197)],
    &[Choice(Next::Mark(Mark::New), 198, 195)],
    &[
        Word(Role::BindsLocal),
        Says(Mark::Colon),
        Choice(Next::Mark(Mark::Bang), 192, 193),
        Part(Nothing),
        Row(199),
        Named(Naming::Oracle),
    ],
    &[Deeper(Next::Word, 196)],
    &[
        Says(Mark::Open),
        Items(Closing::Trees, Mark::Bar, 201),
        Says(Mark::Close),
    ],
    &[Level(Next::Mark(Mark::Open), 202)],
    &[Deeper(Next::Word, 200)],
    &[
        Says(Mark::Open),
        Items(Closing::Trees, Mark::Bar, 204),
        Says(Mark::Close),
    ],
    &[Level(Next::Mark(Mark::Open), 205)],
    &[
        Row(60),
        Part(Nothing),
        Part(Nothing),
        Paired(Pairing::Binder),
    ],
    &[
        Says(Mark::Bang),
        Word(Role::BindsLocal),
        Says(Mark::AtMost),
        Word(Role::BindsBound),
        Says(Mark::New),
        Row(207),
        Says(Mark::Semicolon),
        Row(203),
        Paired(Pairing::Bound),
    ],
    &[
        Says(Mark::Bang),
        Word(Role::BindsLocal),
        Says(Mark::AtMost),
        Word(Role::BindsBound),
        Says(Mark::New),
        Row(207),
        Says(Mark::Semicolon),
        Row(206),
        Paired(Pairing::Bound),
    ],
    &[
        Says(Mark::Equiv),
        Word(Role::Declares(Asked::AnEquivalence)),
        Note(Role::Enters(Region::InEquivalence)),
        Row(208),
        Row(191),
        Row(209),
        Named(Naming::Equivalence),
        Note(Role::Leaves),
        Says(Mark::Dot),
    ],
    &[
        Choice(Next::Word, 150, 54),
        Row(183),
        Says(Mark::Implies),
        Row(189),
        Part(Over(Head::Cons)),
        Part(Over(Head::Query)),
    ],
    &[Choice(Next::Mark(Mark::SecretOnce), 179, 211)],
    &[Choice(Next::Mark(Mark::Secret), 178, 212)],
    &[
        Says(Mark::QueryWord),
        Note(Role::Enters(Region::InQuery)),
        Row(213),
        Note(Role::Leaves),
        Says(Mark::Dot),
    ],
    &[Says(Mark::OpenAtoms), Row(189), Says(Mark::Close)],
    &[Level(Next::Mark(Mark::OpenAtoms), 215)],
];

/// The rows of terms, processes, the bodies of functions and declarations.
pub(crate) fn table() -> [&'static [Piece]; ROWS]
    ensures { rows_of result ≡ term_rows }
{
    let none: &[Piece] = &[];
    let mut rows = [none; ROWS];
    rows[..64].copy_from_slice(&TERM_ROWS);
    rows[64..128].copy_from_slice(&PROCESS_ROWS);
    rows[128..150].copy_from_slice(&BODY_ROWS);
    rows[150..].copy_from_slice(&DECLARATION_ROWS);
    rows
}

/// What a row of the table reads, where some names wait already.
pub fn enter_with_names(
    row: u16,
    signs: &[Sign],
    at: usize,
    trail: &mut Trail,
    names: &mut Vec<u64>,
    depth: u32,
) -> Result<usize, ReadError>
    requires at { at ≤ length signs.now }
    requires few { length signs.now < 2 ^ 32 }
    ensures { EntersWith row depth signs.now at trail.old names.old.items result trail.new
        names.new.items }
{
    read_table(&table(), row as usize, signs, at, trail, names, depth)
}

/// What a row of the table reads.
pub fn enter(
    row: u16,
    signs: &[Sign],
    at: usize,
    trail: &mut Trail,
    depth: u32,
) -> Result<usize, ReadError>
    requires at { at ≤ length signs.now }
    requires few { length signs.now < 2 ^ 32 }
    ensures { Enters row depth signs.now at trail.old result trail.new }
{
    let mut names = Vec::new(*trail.makes.allocator());
    enter_with_names(row, signs, at, trail, &mut names, depth)
}

/// A term.
#[tactic(auto, using(crate::proofs::Entries::entries))]
pub fn term(signs: &[Sign], at: usize, trail: &mut Trail, depth: u32) -> Result<usize, ReadError>
    requires at { at ≤ length signs.now }
    requires few { length signs.now < 2 ^ 32 }
    ensures makes { Makes postorder signs.now trail.old trail.new result
        (read_in depth term_form (drop at signs.now)) }
{
    enter(37, signs, at, trail, depth)
}
