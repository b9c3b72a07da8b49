// The words that nodes have in their text.
ghost use Rattle.std.specs.Prelude.{◌≡◌, ◌↔◌, IsTrue};
ghost use Rattle.cv_explain_source.specs.Words.{IsOwnWord, name_of as name_in, word_of as word_in};

use cv_syntax::{Head, NameId, Names};

/// The word of a construct or an operator, or the second one of those that have two; of other nodes it is empty.
pub fn word_of(head: Head, is_second: bool) -> &'static str
    ensures { result.now ≡ word_in head is_second }
{
    match head {
        Head::Stop => "0",
        Head::Yield => "yield",
        Head::Repl(_, _) => "!",
        Head::In(_) => "in",
        Head::Out(_) => "out",
        Head::New(_, _) => "new",
        Head::Let(_, _) => "let",
        Head::Event(_) => "event",
        Head::If => "if",
        Head::Find(_) => "find",
        Head::Branch => if is_second { "orfind" } else { "find" },
        Head::Par => "|",
        Head::Eq => if is_second { "<>" } else { "=" },
        Head::Not => if is_second { "<>" } else { "not" },
        Head::And => "&&",
        Head::Or => "||",
        Head::Yes => "true",
        Head::No => "false",
        _ => "",
    }
}

/// The name that a term reads or calls.
fn name_of(head: Head) -> Option<u32>
    ensures { result ≡ name_in head }
{
    match head {
        Head::Leaf(x) | Head::Read(x) | Head::Apply(x) => Some(x),
        _ => None,
    }
}

/// Whether a word is a node's own.
pub fn is_own_word(names: &Names, head: Head, word: &str) -> bool
    ensures { IsTrue result ↔ IsOwnWord names.now head word.now }
{
    let Some(x) = name_of(head) else {
        return word == word_of(head, false) || word == word_of(head, true);
    };
    match names.get(NameId(x)) {
        Some(name) => name == word,
        None => false,
    }
}
