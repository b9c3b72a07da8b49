// The signs of the text of a game are read back as the game.

ghost use Rattle.std.specs.Prelude.{◌≡◌, ◌≤◌, ℕ, suc, List, [], ◌++◌, false, length, Err};
ghost use Rattle.cv_syntax_trees.specs.Tree.{Tree};
ghost use Rattle.cv_parse_notation.specs.Reads.{Nesting, found, read_sort};
ghost use Rattle.cv_parse_notation.specs.Spells.{IsSort, next_is};
ghost use Rattle.cv_parse_notation.specs.Whole.{SpellsWith};
ghost use Rattle.cv_parse_notation.specs.declared.sign.Sign.{Sign};
ghost use Rattle.cv_parse_grammar.specs.Phrases.{Inputs as InputsRow, Term as TermRow};
ghost use Rattle.cv_parse_grammar.specs.Rules.{heads, rule};
ghost use Rattle.cv_scope_rules.specs.Phrases.{Inputs, Term};
ghost use Rattle.cv_print_bytes.specs.terminals.Levels.{levels_of, term_levels};
ghost use Rattle.cv_print_bytes.specs.terminals.Parts.{part_signs, part_uses, process_part};
ghost use Rattle.cv_print_bytes.specs.terminals.Signs.{game_signs, numbered, process_signs, term_signs};
ghost use Rattle.cv_print_bytes.specs.terminals.Told.{game_uses, term_uses};
ghost use Rattle.cv_print_bytes.specs.terminals.Worked.{small, small_signs};
ghost use Rattle.cv_print_bytes.specs.terminals.Written.{IsWritten, opens};

/// The signs of a written term spell the term and its uses of names by the rows of terms, in front of any
/// signs that don't begin with a parenthesis or a square bracket. So nothing else is read from them alone.
pub fn terms_are_read_back()
    ensures spelled { (n : ℕ) (t : Tree) (rest : List Sign) →
        IsWritten Term t → term_levels t ≤ n → next_is opens rest ≡ false →
        IsSort heads rule (suc n) TermRow (term_signs t ++ rest) t (term_uses t (length rest)) rest }
    ensures computed { (n : ℕ) (t : Tree) → IsWritten Term t → term_levels t ≤ n →
        read_sort heads rule (suc n) TermRow (term_signs t) ≡ found t (term_uses t 0) [] }
{}

/// The signs of a written game spell the game and its uses of names by the rows of input processes, in front
/// of any signs, and however many words `find` stand before. So nothing else is read from them alone.
pub fn games_are_read_back()
    ensures spelled { (n finds : ℕ) (t : Tree) (rest : List Sign) → IsWritten Inputs t → levels_of t ≤ n →
        IsSort heads rule (suc n) InputsRow (numbered finds (process_signs t) ++ rest) t (game_uses t (length rest)) rest }
    ensures computed { (n : ℕ) (t : Tree) → IsWritten Inputs t → levels_of t ≤ n →
        read_sort heads rule (suc n) InputsRow (game_signs t) ≡ found t (game_uses t 0) [] }
{}

/// With the word `process` before it, a game is read back as the last part of a file, with its uses of names
/// between those that say that the process begins and ends. The levels are counted less one, as those of files.
pub fn processes_are_read_back()
    ensures { (n finds : ℕ) (t : Tree) → IsWritten Inputs t → levels_of t ≤ n →
        SpellsWith heads rule process_part n (part_signs finds t) t (part_uses t) [] }
{}

/// So no two written terms have the same signs, and no two written games.
pub fn printing_is_injective()
    ensures terms { (s t : Tree) → IsWritten Term s → IsWritten Term t
        → term_signs s ≡ term_signs t → s ≡ t }
    ensures games { (s t : Tree) → IsWritten Inputs s → IsWritten Inputs t
        → game_signs s ≡ game_signs t → s ≡ t }
{}

/// A small game is written and has the signs of its text. It is read back with as many levels as are counted,
/// and not with one less.
pub fn a_small_game()
    ensures written { IsWritten Inputs small }
    ensures signs { game_signs small ≡ small_signs }
    ensures levels { levels_of small ≡ 9 }
    ensures read { read_sort heads rule 10 InputsRow small_signs
        ≡ found small (game_uses small 0) [] }
    ensures fewer { read_sort heads rule 9 InputsRow small_signs ≡ Err (Nesting 29) }
{}
