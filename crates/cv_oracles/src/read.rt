// Tokens by their numbers, also past the last one.

ghost use Rattle.std.specs.Prelude.{◌≡◌, ◌≢◌, ◌+◌, ◌<◌, [], false, length};
ghost use Rattle.cv_lex.specs.View.{token_at};
ghost use Rattle.cv_parse_tables.specs.terminals.Braces.{is_end};

use cv_lex::{TokenKind, Tokens};

// The text of a token, or an empty one.
pub fn text_at(tokens: &Tokens, k: u32) -> &str
    ensures { result.now ≡ (token_at tokens.now k).text }
{
    if k < tokens.len() { tokens.text(k) } else { "" }
}

// The kind of a token, or that of the end token.
pub fn kind_at(tokens: &Tokens, k: u32) -> TokenKind
    ensures { result ≡ (token_at tokens.now k).kind }
{
    if k < tokens.len() {
        tokens.kind(k)
    } else {
        TokenKind::End
    }
}

// Whether the end token stands there, or no token.
pub fn is_end_at(tokens: &Tokens, k: u32) -> bool
    ensures value { result ≡ is_end (token_at tokens.now k).kind }
    ensures within { result ≡ false → k + 1 < length tokens.now }
{
    k >= tokens.len() || matches!(tokens.kind(k), TokenKind::End)
}
