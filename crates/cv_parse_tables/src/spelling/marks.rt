// The texts of reserved words and symbols.

ghost use Rattle.std.specs.Prelude.{◌≡◌, ℕ, List, Some, None, codes};
ghost use Rattle.cv_parse_notation.specs.declared.sign.Mark.{Mark};
ghost use Rattle.cv_parse_tables.specs.spelling.Spelling.{as_told, spelling, mark_of_text};

use cv_parse_notation::Mark;

// The marks that a text tells, the most frequent ones first.
static MARKS: [Mark; 62] = [
    Mark::Comma,
    Mark::Open,
    Mark::Close,
    Mark::Semicolon,
    Mark::Colon,
    Mark::In,
    Mark::Out,
    Mark::New,
    Mark::Equal,
    Mark::Let,
    Mark::Dot,
    Mark::If,
    Mark::Then,
    Mark::Else,
    Mark::OpenSquare,
    Mark::CloseSquare,
    Mark::Bang,
    Mark::AtMost,
    Mark::Bar,
    Mark::Not,
    Mark::Suchthat,
    Mark::Orfind,
    Mark::Defined,
    Mark::Both,
    Mark::Either,
    Mark::Differ,
    Mark::Yield,
    Mark::Arrow,
    Mark::Gives,
    Mark::Implies,
    Mark::At,
    Mark::OpenBrace,
    Mark::CloseBrace,
    Mark::Prime,
    Mark::EventWord,
    Mark::TypeWord,
    Mark::Channel,
    Mark::Fun,
    Mark::ConstWord,
    Mark::Param,
    Mark::Bool,
    Mark::Data,
    Mark::Fixed,
    Mark::Large,
    Mark::True,
    Mark::False,
    Mark::QueryWord,
    Mark::Secret,
    Mark::SecretOnce,
    Mark::Forall,
    Mark::EquationWord,
    Mark::Collision,
    Mark::Equiv,
    Mark::Inj,
    Mark::Bounded,
    Mark::Compos,
    Mark::Proba,
    Mark::Process,
    Mark::Proof,
    Mark::Cases,
    Mark::Becomes,
    Mark::LeftArrow,
];

/// How a mark is written.
pub fn spelling(mark: Mark) -> &'static str
    ensures { result.now ≡ spelling mark }
{
    match mark {
        Mark::Proof => "proof",
        Mark::Process => "process",
        Mark::Param => "param",
        Mark::Channel => "channel",
        Mark::Proba => "proba",
        Mark::TypeWord => "type",
        Mark::Fixed => "fixed",
        Mark::Large => "large",
        Mark::Bounded => "bounded",
        Mark::ConstWord => "const",
        Mark::Fun => "fun",
        Mark::Data => "data",
        Mark::Compos => "compos",
        Mark::EventWord => "event",
        Mark::EquationWord => "equation",
        Mark::Forall => "forall",
        Mark::Collision => "collision",
        Mark::New => "new",
        Mark::Equiv => "equiv",
        Mark::QueryWord => "query",
        Mark::Secret => "secret",
        Mark::SecretOnce => "secret1",
        Mark::Inj => "inj",
        Mark::Let => "let",
        Mark::In => "in",
        Mark::If => "if",
        Mark::Then => "then",
        Mark::Else => "else",
        Mark::Orfind => "orfind",
        Mark::Suchthat => "suchthat",
        Mark::Yield => "yield",
        Mark::Out => "out",
        Mark::Defined => "defined",
        Mark::Not => "not",
        Mark::True => "true",
        Mark::False => "false",
        Mark::Bool => "bool",
        Mark::Cases => "cases",
        Mark::Open => "(",
        Mark::Close => ")",
        Mark::OpenSquare => "[",
        Mark::CloseSquare => "]",
        Mark::OpenBrace => "{",
        Mark::CloseBrace => "}",
        Mark::Comma => ",",
        Mark::Semicolon => ";",
        Mark::Colon => ":",
        Mark::Dot => ".",
        Mark::Bar => "|",
        Mark::Bang => "!",
        Mark::At => "@",
        Mark::Prime => "'",
        Mark::Equal => "=",
        Mark::Differ => "<>",
        Mark::AtMost => "<=",
        Mark::Gives => "=>",
        Mark::Implies => "==>",
        Mark::Arrow => "->",
        Mark::Both => "&&",
        Mark::Either => "||",
        Mark::OpenAtoms => "(",
        Mark::Becomes => ":=",
        Mark::LeftArrow => "<-",
    }
}

/// The mark that is written so. The word `find` is none.
#[tactic(auto, unfolding(crate::specs::spelling::Spelling::mark_of_text))]
pub fn spelled(text: &str) -> Option<Mark>
    ensures { result ≡ mark_of_text text.now }
{
    MARKS.iter().copied().find(|mark| spelling(*mark) == text)
}

/// A mark is found by its text, and by no other; a parenthesis that opens a right side is found as any other.
pub fn spelling_is_unique()
    ensures found { (m : Mark) → mark_of_text (spelling m) ≡ Some (as_told m) }
    ensures only { (text : List ℕ) (m : Mark) → mark_of_text text ≡ Some m → spelling m ≡ text }
    ensures find_is_none { mark_of_text (codes "find") ≡ None }
{}
