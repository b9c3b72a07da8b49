// The heads of definitions and uses: a word, a name, and a list of names in parentheses.

ghost use Rattle.std.specs.Prelude.{◌≡◌, ◌+◌, ◌<◌, ◌≤◌, length, IfOk};
ghost use Rattle.cv_library.specs.Heads.{awaited_behind as awaited_after, head_at, is_nothing as is_no_more, only_if as only_where};
ghost use Rattle.cv_library.specs.Words.{is_id as is_plain};

use cv_lex::{TokenKind, Tokens};
use cv_parse_tables::spelling::spelled;

/// What is awaited in a head.
#[derive(Clone, Copy)]
pub enum Awaited {
    Name,
    Opening,
    /// The first name, or the end of the list.
    First,
    /// A comma, or the end of the list.
    Behind,
    /// The name behind a comma.
    Next,
    /// The head is whole.
    Nothing,
}

// Whether a token is an identifier that isn't reserved.
pub fn is_id(kind: TokenKind, text: &str) -> bool
    ensures { result ≡ is_plain kind text.now }
{
    matches!(kind, TokenKind::Ident) && !(spelled(text).is_some() || text == "find")
}

fn only_if(fits: bool, awaited: Awaited) -> Option<Awaited>
    ensures { result ≡ only_where fits awaited }
{
    if fits { Some(awaited) } else { None }
}

// What is awaited behind a token, where it may stand.
fn awaited_behind(awaited: Awaited, kind: TokenKind, text: &str) -> Option<Awaited>
    ensures { result ≡ awaited_after awaited kind text.now }
{
    match awaited {
        Awaited::Name => only_if(is_id(kind, text), Awaited::Opening),
        Awaited::Opening => only_if(text == "(", Awaited::First),
        Awaited::First => {
            if text == ")" {
                Some(Awaited::Nothing)
            } else {
                only_if(is_id(kind, text), Awaited::Behind)
            }
        }
        Awaited::Behind => {
            if text == ")" {
                Some(Awaited::Nothing)
            } else {
                only_if(text == ",", Awaited::Next)
            }
        }
        Awaited::Next => only_if(is_id(kind, text), Awaited::Behind),
        Awaited::Nothing => None,
    }
}

fn is_nothing(awaited: Awaited) -> bool
    ensures { result ≡ is_no_more awaited }
{
    matches!(awaited, Awaited::Nothing)
}

// The number of the token behind the head whose word has this number, or of the first that doesn't fit.
pub fn head_end(tokens: &Tokens, word: u32) -> Result<u32, u32>
    requires { word < length tokens.now }
    ensures value { result ≡ head_at tokens.now word }
    ensures within { IfOk result (λ k. (word + 3 < k) × (k ≤ length tokens.now)) }
{
    let count = tokens.len();
    let mut awaited = Awaited::Name;
    for k in word + 1..count {
        match awaited_behind(awaited, tokens.kind(k), tokens.text(k)) {
            None => return Err(k),
            Some(next) => {
                if is_nothing(next) {
                    return Ok(k + 1);
                }
                awaited = next;
            }
        }
    }
    Err(count)
}
