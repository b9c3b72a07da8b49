// The tokens of the text of a game are its signs, and so the text is read back as the game.
#![tactic(auto)]

pub mod numbers;
pub mod terminals;

ghost use Rattle.std.specs.Prelude.{◌≡◌, ◌≤◌, ℕ, suc, true, List, length};
ghost use Rattle.cv_syntax_trees.specs.Tree.{Tree};
ghost use Rattle.cv_lex.specs.Lexis.{Token};
ghost use Rattle.cv_lex.specs.View.{AreTokens};
ghost use Rattle.cv_parse_tables.specs.terminals.ScriptSigns.{between, script_signs};
ghost use Rattle.cv_parse_tables.specs.terminals.Signs.{signs_of};
ghost use Rattle.cv_parse_grammar.specs.Phrases.{Inputs as InputsRow, Term as TermRow};
ghost use Rattle.cv_scope_rules.specs.Phrases.{Inputs, Term, is_phrase};
ghost use Rattle.cv_print.specs.Games.{game_text};
ghost use Rattle.cv_print.specs.Terms.{term_text};
ghost use Rattle.cv_print_bytes.specs.terminals.Levels.{levels_of, term_levels};
ghost use Rattle.cv_print_bytes.specs.terminals.Signs.{game_signs, term_signs};
ghost use Rattle.cv_print_bytes.specs.terminals.Told.{game_uses, term_uses};
ghost use Rattle.cv_print_bytes.specs.terminals.Worked.{small, small_signs};
ghost use Rattle.cv_print_bytes.specs.terminals.Written.{IsWritten};
ghost use Rattle.cv_print_bytes.specs.Known.{AreNames, is_named};
ghost use Rattle.cv_print_bytes.specs.Texts.{HasSigns, IsReadAs};
ghost use Rattle.cv_print_bytes.specs.Worked.{small_names, small_text};

/// The tokens of the text of a term have its signs, and those of the text of a game have the game's, where
/// the names are numbered before. None is added.
pub fn tokens_of_texts()
    ensures terms { (names : List (List ℕ)) (t : Tree) → AreNames names → is_named (length names) t ≡ true →
        HasSigns names (term_text names t) (term_signs t) }
    ensures games { (names : List (List ℕ)) (t : Tree) → AreNames names → is_named (length names) t ≡ true → is_phrase Inputs t ≡ true →
        HasSigns names (game_text names t) (game_signs t) }
{}

/// The text of a written term is read as the term with its uses of names, and the text of a written game as
/// the game, where at least so many levels may be read as the tree has.
pub fn texts_are_read_back()
    ensures terms { (n : ℕ) (names : List (List ℕ)) (t : Tree) → AreNames names → is_named (length names) t ≡ true →
        IsWritten Term t → term_levels t ≤ n → IsReadAs names (term_text names t) (suc n) TermRow t (term_uses t 0) }
    ensures games { (n : ℕ) (names : List (List ℕ)) (t : Tree) → AreNames names → is_named (length names) t ≡ true →
        IsWritten Inputs t → levels_of t ≤ n → IsReadAs names (game_text names t) (suc n) InputsRow t (game_uses t 0) }
{}

/// So no two written terms have the same text by the same names, and no two written games.
pub fn printing_is_injective()
    ensures terms { (names : List (List ℕ)) (s t : Tree) → AreNames names → is_named (length names) s ≡ true → is_named (length names) t ≡ true →
        IsWritten Term s → IsWritten Term t → term_text names s ≡ term_text names t → s ≡ t }
    ensures games { (names : List (List ℕ)) (s t : Tree) → AreNames names → is_named (length names) s ≡ true → is_named (length names) t ≡ true →
        IsWritten Inputs s → IsWritten Inputs t → game_text names s ≡ game_text names t → s ≡ t }
{}

/// The names of a file, as its tokens give them, can stand for the names of a text.
pub fn names_of_files()
    ensures { (ts : List Token) → AreTokens ts → AreNames (signs_of ts).names }
{}

/// So can the names behind a script, wherever it stands among the tokens, if those before it can.
pub fn names_of_scripts()
    ensures { (names : List (List ℕ)) (ts : List Token) (from to : ℕ) → AreTokens ts → AreNames names →
        AreNames (script_signs names (between from to ts)).names }
{}

/// A small game has known names, and its text is as expected and has its signs.
pub fn a_small_text()
    ensures names { AreNames small_names }
    ensures named { is_named (length small_names) small ≡ true }
    ensures text { game_text small_names small ≡ small_text }
    ensures signs { HasSigns small_names small_text small_signs }
{}
