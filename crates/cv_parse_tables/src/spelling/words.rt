// The texts of the words of scripts.

ghost use Rattle.std.specs.Prelude.{◌≡◌, ◌≢◌, ℕ, List, [], codes};
ghost use Rattle.cv_parse_notation.specs.declared.script.ScriptWord.{ScriptWord};
ghost use Rattle.cv_parse_notation.specs.declared.script.ScriptWord.TheVariants.{Plain};
ghost use Rattle.cv_parse_tables.specs.spelling.ScriptSpelling.{word_spelling, word_of_text, word_with as word_with_text};

use cv_parse_notation::ScriptWord;

// The words of scripts.
static WORDS: [ScriptWord; 52] = [
    ScriptWord::Rename,
    ScriptWord::To,
    ScriptWord::Rewrite,
    ScriptWord::By,
    ScriptWord::Prune,
    ScriptWord::Pick,
    ScriptWord::Merge,
    ScriptWord::Split,
    ScriptWord::Unlet,
    ScriptWord::Unnew,
    ScriptWord::Move,
    ScriptWord::ArrayRename,
    ScriptWord::Codef,
    ScriptWord::Add,
    ScriptWord::Drop,
    ScriptWord::From,
    ScriptWord::Birthday,
    ScriptWord::At,
    ScriptWord::Guess,
    ScriptWord::Fresh,
    ScriptWord::Crypto,
    ScriptWord::Success,
    ScriptWord::Simplify,
    ScriptWord::Events,
    ScriptWord::Never,
    ScriptWord::With,
    ScriptWord::Above,
    ScriptWord::Cell,
    ScriptWord::Holds,
    ScriptWord::Distinct,
    ScriptWord::Pair,
    ScriptWord::Fact,
    ScriptWord::Here,
    ScriptWord::Of,
    ScriptWord::Site,
    ScriptWord::Refl,
    ScriptWord::Sym,
    ScriptWord::Trans,
    ScriptWord::Cong,
    ScriptWord::Mp,
    ScriptWord::And,
    ScriptWord::Left,
    ScriptWord::Right,
    ScriptWord::Contra,
    ScriptWord::Exfalso,
    ScriptWord::Given,
    ScriptWord::Again,
    ScriptWord::OtherFact,
    ScriptWord::OtherHere,
    ScriptWord::Same,
    ScriptWord::Late,
    ScriptWord::Alt,
];

/// How a word of a script is written. A plain word has no text of its own.
pub fn word_spelling(word: ScriptWord) -> &'static str
    ensures { result.now ≡ word_spelling word }
{
    match word {
        ScriptWord::Plain => "",
        ScriptWord::Rename => "rename",
        ScriptWord::To => "to",
        ScriptWord::Rewrite => "rewrite",
        ScriptWord::By => "by",
        ScriptWord::Prune => "prune",
        ScriptWord::Pick => "pick",
        ScriptWord::Merge => "merge",
        ScriptWord::Split => "split",
        ScriptWord::Unlet => "unlet",
        ScriptWord::Unnew => "unnew",
        ScriptWord::Move => "move",
        ScriptWord::ArrayRename => "SArename",
        ScriptWord::Codef => "codef",
        ScriptWord::Add => "add",
        ScriptWord::Drop => "drop",
        ScriptWord::From => "from",
        ScriptWord::Birthday => "birthday",
        ScriptWord::At => "at",
        ScriptWord::Guess => "guess",
        ScriptWord::Fresh => "fresh",
        ScriptWord::Crypto => "crypto",
        ScriptWord::Success => "success",
        ScriptWord::Simplify => "simplify",
        ScriptWord::Events => "events",
        ScriptWord::Never => "never",
        ScriptWord::With => "with",
        ScriptWord::Above => "above",
        ScriptWord::Cell => "cell",
        ScriptWord::Holds => "holds",
        ScriptWord::Distinct => "distinct",
        ScriptWord::Pair => "pair",
        ScriptWord::Fact => "fact",
        ScriptWord::Here => "here",
        ScriptWord::Of => "of",
        ScriptWord::Site => "site",
        ScriptWord::Refl => "refl",
        ScriptWord::Sym => "sym",
        ScriptWord::Trans => "trans",
        ScriptWord::Cong => "cong",
        ScriptWord::Mp => "mp",
        ScriptWord::And => "and",
        ScriptWord::Left => "left",
        ScriptWord::Right => "right",
        ScriptWord::Contra => "contra",
        ScriptWord::Exfalso => "exfalso",
        ScriptWord::Given => "given",
        ScriptWord::Again => "again",
        ScriptWord::OtherFact => "fact2",
        ScriptWord::OtherHere => "here2",
        ScriptWord::Same => "same",
        ScriptWord::Late => "late",
        ScriptWord::Alt => "alt",
    }
}

// The word that is written so.
#[tactic(auto, unfolding(crate::specs::spelling::ScriptSpelling::word_with))]
fn word_with(text: &str) -> Option<ScriptWord>
    ensures { result ≡ word_with_text text.now }
{
    WORDS
        .iter()
        .copied()
        .find(|word| word_spelling(*word) == text)
}

/// The word of a script that is written so, or a plain word.
pub fn word_of_text(text: &str) -> ScriptWord
    ensures { result ≡ word_of_text text.now }
{
    match word_with(text) {
        Some(word) => word,
        None => ScriptWord::Plain,
    }
}

/// A word of a script is found by its text, and by no other.
pub fn word_spelling_is_unique()
    ensures found { (w : ScriptWord) → word_of_text (word_spelling w) ≡ w }
    ensures only { (text : List ℕ) (w : ScriptWord) → word_of_text text ≡ w → w ≢ Plain
        → word_spelling w ≡ text }
{}
