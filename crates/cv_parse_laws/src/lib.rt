// The game of a file is well formed and written: it is in the grammar of processes, it binds no constant, and it
// is read back from its text. Its names stand outside its proof block.
#![tactic(auto)]

pub mod roles;

ghost use Rattle.std.specs.Prelude.{◌≡◌, ℕ, Bool, List, Ok, Option, true};
ghost use Rattle.cv_syntax_trees.specs.Tree.{Tree};
ghost use Rattle.cv_parse_notation.specs.declared.sign.Sign.{Sign};
ghost use Rattle.cv_parse_notation.specs.Spells.{IsSort};
ghost use Rattle.cv_parse_grammar.specs.Filled.{filled_at};
ghost use Rattle.cv_parse_grammar.specs.Names.{Uses};
ghost use Rattle.cv_parse_grammar.specs.Phrases.{Sort};
ghost use Rattle.cv_parse_grammar.specs.Rules.{heads, rule};
ghost use Rattle.cv_meaning.specs.Interpretation.{is_constant_of};
ghost use Rattle.cv_parse.specs.Parsed.{Parsed, parsed};
ghost use Rattle.cv_scope_rules.specs.Scope.{IsScoped};
ghost use Rattle.cv_scope_rules.specs.Phrases.{Phrase, Inputs, IsWellFormed, is_phrase, binds_none};
ghost use Rattle.cv_parse_laws.specs.Shapes.{IsFree, IsOfSort, IsShaped};
ghost use Rattle.cv_parse_grammar.specs.yields.Yields.{AllUsed};
ghost use Rattle.std.specs.List.{AllByRecursion};
ghost use Rattle.cv_lex.specs.Lexis.{Token};
ghost use Rattle.cv_lex.specs.View.{AreTokens};
ghost use Rattle.cv_parse_tables.specs.terminals.Signs.{signs_in, signs_of};
ghost use Rattle.cv_parse_laws.specs.Blocks.{around};
ghost use Rattle.cv_print_bytes.specs.terminals.Written.{IsWritten, is_name};
ghost use Rattle.cv_parse_laws.specs.Words.{AreNamed, HasWords, WordsOfSort};

/// What is spelled by the rows of processes and terms is a phrase of a game. Where no barred name is bound
/// among its uses of names, none is bound in the phrase.
pub fn rows_make_phrases()
    ensures { (barred : ℕ → Bool) (n : ℕ) (s : Sort) (tokens : List Sign) (t : Tree) (uses : Uses) (rest : List Sign) →
        IsSort heads rule n s tokens t uses rest → AllUsed (IsFree barred) uses → IsOfSort barred s t }
{}

/// Filling makes the same phrases of phrases and binds nothing, whatever first definitions the variables
/// have and whatever replications stand above.
pub fn filling_keeps_phrases()
    ensures { (barred : ℕ → Bool) (sites : ℕ → Option ℕ) (now : List ℕ) (φ : Phrase) (t : Tree) →
        IsShaped barred φ t → IsShaped barred φ (filled_at sites now t) }
{}

/// Each node of the game of a file has its place in the grammar of processes.
pub fn games_are_phrases()
    ensures { (limit : ℕ) (signs : List Sign) (p : Parsed) →
        parsed limit signs ≡ Ok p → is_phrase Inputs p.game ≡ true }
{}

/// The game of a file binds no name that is declared as a constant: no replication, `new`, `let` or binder
/// has it.
pub fn no_constant_is_bound()
    ensures { (limit : ℕ) (signs : List Sign) (p : Parsed) →
        parsed limit signs ≡ Ok p → binds_none (is_constant_of p.declarations) p.game ≡ true }
{}

/// So the game of a file that is in array scope is well formed.
pub fn games_in_scope_are_well_formed()
    ensures { (limit : ℕ) (signs : List Sign) (p : Parsed) →
        parsed limit signs ≡ Ok p → IsScoped p.declarations p.game → IsWellFormed p.declarations p.game }
{}

/// No name among the signs of a text has the number of `bool`: that word is a mark.
pub fn names_are_told_from_bool()
    ensures { (tokens : List Token) → AreNamed (signs_of tokens).signs }
{}

/// What named tokens spell by the rows of processes and terms has words: no list of arguments, of indices or
/// of branches is empty, and no name but a type is `bool`.
pub fn rows_have_words()
    ensures { (n : ℕ) (s : Sort) (tokens : List Sign) (t : Tree) (uses : Uses) (rest : List Sign) →
        IsSort heads rule n s tokens t uses rest → AreNamed tokens → WordsOfSort s t }
{}

/// Filling keeps words, whatever first definitions the variables have, where the indices above are names.
pub fn filling_keeps_words()
    ensures { (sites : ℕ → Option ℕ) (now : List ℕ) (t : Tree) →
        AllByRecursion (λ i. is_name i ≡ true) now → HasWords t → HasWords (filled_at sites now t) }
{}

/// So the game of a file is written.
pub fn games_of_files_are_written()
    ensures { (limit : ℕ) (tokens : List Token) (p : Parsed) →
        parsed limit (signs_of tokens).signs ≡ Ok p → IsWritten Inputs p.game }
{}

/// The names of a file are those of its tokens outside its proof block, in order.
pub fn names_stand_outside_the_block()
    ensures { (limit : ℕ) (tokens : List Token) (p : Parsed) → AreTokens tokens →
        parsed limit (signs_of tokens).signs ≡ Ok p →
        (signs_of tokens).names ≡ (signs_in (around p.script tokens)).names }
{}
