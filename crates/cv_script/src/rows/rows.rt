// The table of scripts: the rows from which steps are read and printed.
ghost use Rattle.std.specs.Prelude.{◌≡◌};
ghost use Rattle.cv_parse_tables.specs.Table.{rows_of};
ghost use Rattle.cv_script.specs.rows.Rows as specs_rows;

use cv_parse_grammar::Role;
use cv_parse_notation::{Mark, ScriptWord};
use cv_parse_tables::Piece::{
    Blank, Chain, Deeper, Either, Level, Many, May, Number, OneOf, Over, Phrase,
    ScriptWord as Says, Sign, Word,
};
use cv_parse_tables::{Outer, Piece};
use cv_syntax::Head;

const BOOL_WORD: u16 = 0;

const BOOL: u16 = 1;

const NAME: u16 = 2;

const MORE_NAMES: u16 = 3;

const NAMES: u16 = 4;

const SOME_NAMES: u16 = 5;

const NAME_LIST: u16 = 6;

const MORE_NUMBERS: u16 = 7;

const NUMBERS: u16 = 8;

const SOME_NUMBERS: u16 = 9;

const NUMBER_LIST: u16 = 10;

const MORE_TERMS: u16 = 11;

const TERMS: u16 = 12;

const SOME_TERMS: u16 = 13;

const TERM_LIST: u16 = 14;

const INNER_CELL: u16 = 15;

const LINE_ITEM: u16 = 16;

const LINES: u16 = 17;

const BRACES: u16 = 18;

const CITED: u16 = 19;

const ALL_CITED: u16 = 20;

const FACT: u16 = 21;

const HERE: u16 = 22;

const OF: u16 = 23;

const SITE: u16 = 24;

const EQUATION: u16 = 25;

const REFL: u16 = 26;

const SYM: u16 = 27;

const TRANS: u16 = 28;

const CONG: u16 = 29;

const MP: u16 = 30;

const AND: u16 = 31;

const LEFT: u16 = 32;

const RIGHT: u16 = 33;

const CONTRA: u16 = 34;

const EXFALSO: u16 = 35;

const DATA: u16 = 36;

const GIVEN: u16 = 37;

const AGAIN: u16 = 38;

const TRUTH: u16 = 39;

const OTHER_FACT: u16 = 40;

const OTHER_HERE: u16 = 41;

const SAME: u16 = 42;

const DISTINCT_REASON: u16 = 43;

const LATE: u16 = 44;

const BY_FACT: u16 = 45;

const DEFINED_LINE: u16 = 69;

const CASES_LINE: u16 = 70;

const TERM_LINE: u16 = 71;

const A_DEFINED_LINE: u16 = 72;

const LINE: u16 = 75;

const THEN_WORD: u16 = 76;

const ELSE_WORD: u16 = 77;

const ADD_WORD: u16 = 78;

const DROP_WORD: u16 = 79;

const THEN_PART: u16 = 80;

const ADD_PART: u16 = 83;

const ABOVE_WORD: u16 = 85;

const ABOVE_PART: u16 = 86;

const ABOVE_OR_NOT: u16 = 87;

const ABOVE: u16 = 88;

const CELL: u16 = 89;

const A_ABOVE: u16 = 90;

const HOLDS: u16 = 92;

const EVENT_ROUTE: u16 = 93;

const ROUTE_ITEM: u16 = 95;

const ALTERNATIVE: u16 = 96;

const NEVER: u16 = 97;

const ALTERNATIVE_ITEM: u16 = 98;

const CHOICE: u16 = 99;

const WITH: u16 = 100;

const A_NEVER: u16 = 101;

const AT: u16 = 103;

const ENTRY_ITEM: u16 = 104;

const DISTINCT: u16 = 105;

const DISTINCT_ITEM: u16 = 106;

const PAIR: u16 = 107;

const PAIR_ITEM: u16 = 108;

const SECRET_PAIR: u16 = 109;

const SECRET_PAIR_ITEM: u16 = 110;

const EVENTS_PARTS: u16 = 111;

const SECRET_PARTS: u16 = 112;

const EVENTS: u16 = 113;

const SECRET: u16 = 114;

const A_EVENTS: u16 = 115;

const RENAME: u16 = 117;

const REWRITE: u16 = 118;

const PRUNE: u16 = 119;

const PICK: u16 = 120;

const MERGE: u16 = 121;

const SPLIT: u16 = 122;

const LET: u16 = 123;

const UNLET: u16 = 124;

const NEW: u16 = 125;

const UNNEW: u16 = 126;

const MOVE: u16 = 127;

const ARRAY_RENAME: u16 = 128;

const CODEF: u16 = 129;

const BIRTHDAY: u16 = 130;

const GUESS: u16 = 131;

const FRESH: u16 = 132;

const CRYPTO: u16 = 133;

const SUCCESS: u16 = 134;

const SIMPLIFY: u16 = 135;

const FIRST_STEP: u16 = 136;
/// The row of a step.
pub const STEP: u16 = 155;

const STEP_ITEM: u16 = 156;

const STEPS: u16 = 157;
/// The row of a script: steps with a semicolon behind each.
pub const SCRIPT: u16 = 158;
/// How many rows the table has.
const ROWS: usize = 159;

/// Lists of names, numbers, terms and lines.
static LIST_ROWS: [&[Piece]; 21] = [
    &[Sign(Mark::Bool)],
    &[Over(Head::Name(0), BOOL_WORD)],
    &[Word(Role::Nothing)],
    &[Sign(Mark::Comma), Blank, Word(Role::Nothing)],
    &[Word(Role::Nothing), Many(false, MORE_NAMES)],
    &[May(false, NAMES)],
    &[Sign(Mark::Open), Chain(SOME_NAMES), Sign(Mark::Close)],
    &[Sign(Mark::Comma), Blank, Number],
    &[Number, Many(false, MORE_NUMBERS)],
    &[May(false, NUMBERS)],
    &[Sign(Mark::Open), Chain(SOME_NUMBERS), Sign(Mark::Close)],
    &[Sign(Mark::Comma), Blank, Phrase(Outer::InnerTerm)],
    &[Phrase(Outer::InnerTerm), Many(false, MORE_TERMS)],
    &[May(false, TERMS)],
    &[Sign(Mark::Open), Chain(SOME_TERMS), Sign(Mark::Close)],
    &[
        Sign(Mark::Open),
        Phrase(Outer::InnerCell),
        Sign(Mark::Close),
    ],
    &[Deeper(LINE), Sign(Mark::Semicolon), Blank],
    &[Many(false, LINE_ITEM)],
    &[
        Sign(Mark::OpenBrace),
        Blank,
        Chain(LINES),
        Sign(Mark::CloseBrace),
    ],
    &[Blank, Number],
    &[Many(false, CITED)],
];

/// Reasons.
static REASON_ROWS: [&[Piece]; 48] = [
    &[Says(ScriptWord::Fact), Blank, Number],
    &[Says(ScriptWord::Here)],
    &[Says(ScriptWord::Of), Blank, Number],
    &[Says(ScriptWord::Site), Blank, Number, Blank, Number],
    &[
        Sign(Mark::EquationWord),
        Blank,
        Number,
        Blank,
        Level(TERM_LIST),
    ],
    &[Says(ScriptWord::Refl)],
    &[Says(ScriptWord::Sym), Blank, Number],
    &[Says(ScriptWord::Trans), Blank, Number, Blank, Number],
    &[Says(ScriptWord::Cong), Chain(ALL_CITED)],
    &[Says(ScriptWord::Mp), Blank, Number, Blank, Number],
    &[Says(ScriptWord::And), Blank, Number, Blank, Number],
    &[Says(ScriptWord::Left), Blank, Number],
    &[Says(ScriptWord::Right), Blank, Number],
    &[Says(ScriptWord::Contra), Blank, Number, Blank, Number],
    &[Says(ScriptWord::Exfalso), Blank, Number],
    &[Sign(Mark::Data)],
    &[Says(ScriptWord::Given)],
    &[Says(ScriptWord::Again), Blank, Number],
    &[Sign(Mark::Bool)],
    &[Says(ScriptWord::OtherFact), Blank, Number],
    &[Says(ScriptWord::OtherHere)],
    &[Says(ScriptWord::Same), Blank, Number],
    &[
        Says(ScriptWord::Distinct),
        Blank,
        Number,
        Blank,
        Number,
        Blank,
        Number,
        Blank,
        Number,
    ],
    &[Says(ScriptWord::Late), Blank, Number, Chain(ALL_CITED)],
    &[Over(Head::ByFact, FACT)],
    &[Over(Head::ByHere, HERE)],
    &[Over(Head::ByOf, OF)],
    &[Over(Head::BySite, SITE)],
    &[Over(Head::ByEquation, EQUATION)],
    &[Over(Head::ByRefl, REFL)],
    &[Over(Head::BySym, SYM)],
    &[Over(Head::ByTrans, TRANS)],
    &[Over(Head::ByCong, CONG)],
    &[Over(Head::ByMp, MP)],
    &[Over(Head::ByAnd, AND)],
    &[Over(Head::ByLeft, LEFT)],
    &[Over(Head::ByRight, RIGHT)],
    &[Over(Head::ByContra, CONTRA)],
    &[Over(Head::ByExfalso, EXFALSO)],
    &[Over(Head::ByData, DATA)],
    &[Over(Head::ByGiven, GIVEN)],
    &[Over(Head::ByAgain, AGAIN)],
    &[Over(Head::ByBool, TRUTH)],
    &[Over(Head::ByOtherFact, OTHER_FACT)],
    &[Over(Head::ByOtherHere, OTHER_HERE)],
    &[Over(Head::BySame, SAME)],
    &[Over(Head::ByDistinct, DISTINCT_REASON)],
    &[Over(Head::ByLate, LATE)],
];

/// Lines of derivations.
static LINE_ROWS: [&[Piece]; 7] = [
    &[
        Sign(Mark::Defined),
        Level(INNER_CELL),
        Blank,
        Says(ScriptWord::By),
        Blank,
        OneOf(BY_FACT, 24),
    ],
    &[
        Sign(Mark::Cases),
        Blank,
        Phrase(Outer::Term),
        Blank,
        Level(BRACES),
        Blank,
        Level(BRACES),
        Blank,
        Sign(Mark::Colon),
        Blank,
        Phrase(Outer::Term),
    ],
    &[
        Phrase(Outer::Term),
        Blank,
        Says(ScriptWord::By),
        Blank,
        OneOf(BY_FACT, 24),
    ],
    &[Over(Head::Defined, DEFINED_LINE)],
    &[Over(Head::Cases, CASES_LINE)],
    &[Over(Head::Line, TERM_LINE)],
    &[OneOf(A_DEFINED_LINE, 3)],
];

/// Parts of steps, and certificates.
static CERTIFICATE_ROWS: [&[Piece]; 41] = [
    &[Sign(Mark::Then)],
    &[Sign(Mark::Else)],
    &[Says(ScriptWord::Add)],
    &[Says(ScriptWord::Drop)],
    &[Over(Head::ThenPart, THEN_WORD)],
    &[Over(Head::ElsePart, ELSE_WORD)],
    &[Number],
    &[Over(Head::AddPart, ADD_WORD)],
    &[Over(Head::DropPart, DROP_WORD)],
    &[Says(ScriptWord::Above)],
    &[Blank, Over(Head::AboveRoute, ABOVE_WORD)],
    &[May(false, ABOVE_PART)],
    &[Says(ScriptWord::Above), Blank, Number, Blank, Level(BRACES)],
    &[
        Says(ScriptWord::Cell),
        Blank,
        Phrase(Outer::Cell),
        Blank,
        Number,
        Blank,
        Level(BRACES),
    ],
    &[Over(Head::AboveRoute, ABOVE)],
    &[Over(Head::CellRoute, CELL)],
    &[Says(ScriptWord::Holds), Blank, Level(BRACES)],
    &[Sign(Mark::EventWord), Blank, OneOf(A_ABOVE, 2)],
    &[Over(Head::HoldsRoute, HOLDS)],
    &[Blank, OneOf(EVENT_ROUTE, 2)],
    &[Says(ScriptWord::Alt), Blank, Number],
    &[Says(ScriptWord::Never), Blank, Level(BRACES)],
    &[Blank, Over(Head::AlternativePart, ALTERNATIVE)],
    &[May(false, ALTERNATIVE_ITEM), Many(false, ROUTE_ITEM)],
    &[
        Says(ScriptWord::With),
        Blank,
        Level(TERM_LIST),
        Chain(CHOICE),
    ],
    &[Over(Head::NeverEntry, NEVER)],
    &[Over(Head::WithEntry, WITH)],
    &[
        Says(ScriptWord::At),
        Blank,
        Number,
        Blank,
        OneOf(A_NEVER, 2),
    ],
    &[Blank, Over(Head::AtEntry, AT)],
    &[Says(ScriptWord::Distinct), Blank, Chain(NAMES)],
    &[Blank, Over(Head::DistinctPart, DISTINCT)],
    &[
        Says(ScriptWord::Pair),
        Blank,
        Number,
        Blank,
        Number,
        Blank,
        Number,
        Blank,
        Level(BRACES),
    ],
    &[Blank, Over(Head::Pair, PAIR)],
    &[
        Says(ScriptWord::Pair),
        Blank,
        Number,
        Blank,
        Number,
        Blank,
        Level(BRACES),
    ],
    &[Blank, Over(Head::SecretPair, SECRET_PAIR)],
    &[
        Many(false, ENTRY_ITEM),
        May(false, DISTINCT_ITEM),
        Many(false, PAIR_ITEM),
    ],
    &[Many(false, SECRET_PAIR_ITEM)],
    &[Says(ScriptWord::Events), Chain(EVENTS_PARTS)],
    &[Sign(Mark::Secret), Chain(SECRET_PARTS)],
    &[Over(Head::EventsCertificate, EVENTS)],
    &[Over(Head::SecretCertificate, SECRET)],
];

/// Steps and scripts.
static STEP_ROWS: [&[Piece]; 42] = [
    &[
        Says(ScriptWord::Rename),
        Blank,
        Word(Role::Nothing),
        Blank,
        Says(ScriptWord::To),
        Blank,
        Word(Role::Nothing),
    ],
    &[
        Says(ScriptWord::Rewrite),
        Blank,
        Number,
        Blank,
        Says(ScriptWord::To),
        Blank,
        Phrase(Outer::Term),
        Blank,
        Says(ScriptWord::By),
        Blank,
        Level(BRACES),
    ],
    &[
        Says(ScriptWord::Prune),
        Blank,
        Number,
        Blank,
        OneOf(THEN_PART, 3),
        Blank,
        Says(ScriptWord::By),
        Blank,
        Level(BRACES),
    ],
    &[
        Says(ScriptWord::Pick),
        Blank,
        Number,
        Blank,
        Level(TERM_LIST),
        Blank,
        Says(ScriptWord::By),
        Blank,
        Level(BRACES),
        Blank,
        Level(BRACES),
    ],
    &[Says(ScriptWord::Merge), Blank, Number],
    &[
        Says(ScriptWord::Split),
        Blank,
        Number,
        Blank,
        Phrase(Outer::Term),
    ],
    &[
        Sign(Mark::Let),
        Blank,
        Number,
        Blank,
        Word(Role::Nothing),
        Sign(Mark::Colon),
        Blank,
        Either(BOOL, NAME),
        Blank,
        Sign(Mark::Equal),
        Blank,
        Phrase(Outer::Term),
    ],
    &[Says(ScriptWord::Unlet), Blank, Word(Role::Nothing)],
    &[
        Sign(Mark::New),
        Blank,
        Number,
        Blank,
        Word(Role::Nothing),
        Sign(Mark::Colon),
        Blank,
        Either(BOOL, NAME),
    ],
    &[Says(ScriptWord::Unnew), Blank, Word(Role::Nothing)],
    &[Says(ScriptWord::Move), Blank, Number],
    &[
        Says(ScriptWord::ArrayRename),
        Blank,
        Word(Role::Nothing),
        Blank,
        Says(ScriptWord::To),
        Blank,
        Level(NAME_LIST),
    ],
    &[
        Says(ScriptWord::Codef),
        Blank,
        Number,
        Blank,
        OneOf(ADD_PART, 2),
        Blank,
        Phrase(Outer::Cell),
        Blank,
        Says(ScriptWord::From),
        Blank,
        Phrase(Outer::Cell),
        Chain(ABOVE_OR_NOT),
    ],
    &[
        Says(ScriptWord::Birthday),
        Blank,
        Word(Role::Nothing),
        Blank,
        Says(ScriptWord::At),
        Blank,
        Level(NUMBER_LIST),
    ],
    &[
        Says(ScriptWord::Guess),
        Blank,
        Word(Role::Nothing),
        Blank,
        Says(ScriptWord::At),
        Blank,
        Level(NUMBER_LIST),
    ],
    &[Says(ScriptWord::Fresh), Blank, Number],
    &[
        Says(ScriptWord::Crypto),
        Blank,
        Word(Role::Nothing),
        Blank,
        Word(Role::Nothing),
    ],
    &[
        Says(ScriptWord::Success),
        Blank,
        Number,
        Blank,
        OneOf(A_EVENTS, 2),
    ],
    &[Says(ScriptWord::Simplify)],
    &[Over(Head::SplitStep, SPLIT)],
    &[Over(Head::LetStep, LET)],
    &[Over(Head::NewStep, NEW)],
    &[Over(Head::UnnewStep, UNNEW)],
    &[Over(Head::RewriteStep, REWRITE)],
    &[Over(Head::PruneStep, PRUNE)],
    &[Over(Head::SuccessStep, SUCCESS)],
    &[Over(Head::CryptoStep, CRYPTO)],
    &[Over(Head::UnletStep, UNLET)],
    &[Over(Head::RenameStep, RENAME)],
    &[Over(Head::MergeStep, MERGE)],
    &[Over(Head::MoveStep, MOVE)],
    &[Over(Head::CodefStep, CODEF)],
    &[Over(Head::ArrayRenameStep, ARRAY_RENAME)],
    &[Over(Head::SimplifyStep, SIMPLIFY)],
    &[Over(Head::PickStep, PICK)],
    &[Over(Head::FreshStep, FRESH)],
    &[Over(Head::BirthdayStep, BIRTHDAY)],
    &[Over(Head::GuessStep, GUESS)],
    &[OneOf(FIRST_STEP, 19)],
    &[OneOf(FIRST_STEP, 19), Sign(Mark::Semicolon)],
    &[Many(false, STEP_ITEM)],
    &[Chain(STEPS)],
];

/// The rows of the table of scripts.
pub fn script_rows() -> [&'static [Piece]; ROWS]
    ensures { rows_of result ≡ specs_rows.script_rows }
{
    let none: &[Piece] = &[];
    let mut rows = [none; ROWS];
    rows[..FACT as usize].copy_from_slice(&LIST_ROWS);
    rows[FACT as usize..DEFINED_LINE as usize].copy_from_slice(&REASON_ROWS);
    rows[DEFINED_LINE as usize..THEN_WORD as usize].copy_from_slice(&LINE_ROWS);
    rows[THEN_WORD as usize..RENAME as usize].copy_from_slice(&CERTIFICATE_ROWS);
    rows[RENAME as usize..].copy_from_slice(&STEP_ROWS);
    rows
}
