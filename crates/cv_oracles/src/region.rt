// Which words are names in an oracle file, and which don't stand in one.

ghost use Rattle.std.specs.Prelude.{◌≡◌};
ghost use Rattle.cv_oracles.specs.Regions.{is_barred as is_barred_in, is_name as is_free, is_own_word as is_own};

use cv_lex::TokenKind;
use cv_parse_tables::spelling::spelled;

/// A part of an oracle file.
#[derive(Clone, Copy)]
pub enum Region {
    Declarations,
    /// The proof block, with the words around it.
    Block,
    Process,
}

// Whether a word is reserved in oracle files alone.
fn is_own_word(text: &str) -> bool
    ensures { result ≡ is_own text.now }
{
    text == "oracles" || text == "foreach" || text == "do" || text == "end" || text == "return"
}

// Whether a token stands for a name.
pub fn is_name(kind: TokenKind, text: &str) -> bool
    ensures { result ≡ is_free kind text.now }
{
    matches!(kind, TokenKind::Ident)
        && !(spelled(text).is_some() || text == "find" || is_own_word(text))
}

// Whether a word that may stand in a file doesn't stand there.
pub fn is_barred(region: Region, text: &str) -> bool
    ensures { result ≡ is_barred_in region text.now }
{
    match region {
        Region::Declarations => text == "channel" || is_own_word(text),
        Region::Block => is_own_word(text),
        Region::Process => {
            text == "in"
                || text == "out"
                || text == "new"
                || text == "let"
                || text == "yield"
                || is_own_word(text)
        }
    }
}
