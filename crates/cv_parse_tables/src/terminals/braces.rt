// The tokens of a file as they are read: between braces nothing but braces.

ghost use Rattle.std.specs.Prelude.{◌≡◌, ◌+◌, ◌<◌, ◌^◌, length};
ghost use Rattle.cv_lex.specs.View.{token_at};
ghost use Rattle.cv_parse_tables.specs.terminals.Braces.{is_read as is_read_of, open_behind as open_behind_of, read_at};

use cv_lex::{TokenKind, Tokens};

// Whether a token is read between braces: a brace, or the end.
fn is_read(kind: TokenKind, text: &str) -> bool
    ensures { result ≡ is_read_of kind text.now }
{
    text == "{" || (text == "}" || matches!(kind, TokenKind::End))
}

// How many braces are open behind a text.
pub fn open_behind(depth: u32, text: &str) -> u32
    requires { depth + 1 < 2 ^ 32 }
    ensures { result ≡ open_behind_of depth text.now }
{
    if text == "{" {
        depth + 1
    } else if text == "}" {
        depth.saturating_sub(1)
    } else {
        depth
    }
}

// The kind and the text of a token as it is read, where so many braces are open.
pub fn read_token(tokens: &Tokens, k: u32, depth: u32) -> (TokenKind, &str)
    requires { k < length tokens.now }
    ensures kind { result.0 ≡ (read_at depth (token_at tokens.now k)).kind }
    ensures text { result.1.now ≡ (read_at depth (token_at tokens.now k)).text }
{
    let kind = tokens.kind(k);
    let text = tokens.text(k);
    if depth == 0 || is_read(kind, text) {
        (kind, text)
    } else {
        (TokenKind::Symbol, ";")
    }
}
