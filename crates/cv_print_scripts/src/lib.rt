// The tokens of the text of a step or a script are its signs, and so the text is read back.
#![tactic(auto)]

pub mod steps;

ghost use Rattle.std.specs.Prelude.{◌≡◌, ℕ, true, List, [], ◌∷◌, ◌++◌, length, codes};
ghost use Rattle.cv_syntax_trees.specs.Tree.{Tree, chain};
ghost use Rattle.cv_parse_notation.specs.declared.sign.Mark.TheVariants.{Semicolon};
ghost use Rattle.cv_parse_tables.specs.Table.{Table};
ghost use Rattle.cv_print_tables.specs.Prints.{tree_text};
ghost use Rattle.cv_print_bytes.specs.terminals.Signs.{one};
ghost use Rattle.cv_script.specs.rows.Rows.{script_row, script_rows, step_row};
ghost use Rattle.cv_print_bytes.specs.Known.{AreNames};
ghost use Rattle.cv_print_scripts.specs.steps.Apart.{is_single, tells_apart};
ghost use Rattle.cv_print_scripts.specs.steps.Shown.{row_levels, row_signs};
ghost use Rattle.cv_print_scripts.specs.steps.Trees.{IsTree};
ghost use Rattle.cv_print_scripts.specs.Known.{is_known};
ghost use Rattle.cv_print_scripts.specs.Parted.{is_parted};
ghost use Rattle.cv_print_scripts.specs.Texts.{FitsIn, HasSigns, IsReadAs, IsUnambiguous, words_among};
ghost use Rattle.cv_print_scripts.specs.Worked.{small, small_behind, small_names, small_signs};

/// Where a table's texts are told apart as tokens, the tokens of a known tree's text by a row have
/// its signs, by the names behind the text: names stand for themselves, and each word of a script is
/// one of the names behind. So it is with a semicolon behind the text.
pub fn tokens_of_rows()
    ensures alone { (table : Table) (names : List (List ℕ)) (n r : ℕ) (t : Tree) →
        is_parted table ≡ true → AreNames names → is_known (length names) t ≡ true →
        HasSigns names (tree_text table names n r t) (λ words. row_signs words table n r t) }
    ensures ended { (table : Table) (names : List (List ℕ)) (n r : ℕ) (t : Tree) →
        is_parted table ≡ true → AreNames names → is_known (length names) t ≡ true →
        HasSigns names (tree_text table names n r t ++ codes ";")
        (λ words. row_signs words table n r t ++ one Semicolon) }
{}

/// The texts of the table of scripts are told apart as tokens.
pub fn scripts_are_parted()
    ensures { is_parted script_rows ≡ true }
{}

/// The text of a known tree that a row of one tree makes is read back as the tree by the row, where
/// the table tells its trees and its texts apart.
pub fn texts_are_read_back()
    ensures { (table : Table) (names : List (List ℕ)) (n r : ℕ) (t : Tree) →
        tells_apart table ≡ true → is_single table r ≡ true → is_parted table ≡ true →
        AreNames names → is_known (length names) t ≡ true → IsTree table n r t →
        IsReadAs names (tree_text table names n r t) table r
        (λ words. row_levels words table n r t) t }
{}

/// So the text of a script is read back as the script, and that of a step with its semicolon as the
/// script of this one step.
pub fn steps_are_read_back()
    ensures scripts { (names : List (List ℕ)) (n : ℕ) (t : Tree) →
        AreNames names → is_known (length names) t ≡ true → IsTree script_rows n script_row t →
        IsReadAs names (tree_text script_rows names n script_row t) script_rows script_row
        (λ words. row_levels words script_rows n script_row t) t }
    ensures steps { (names : List (List ℕ)) (n : ℕ) (t : Tree) →
        AreNames names → is_known (length names) t ≡ true → IsTree script_rows n step_row t →
        IsReadAs names (tree_text script_rows names n step_row t ++ codes ";") script_rows script_row
        (λ words. row_levels words script_rows n step_row t) (chain (t ∷ [])) }
{}

/// So no two such trees have the same text by the same names, where no signs spell two of them, and
/// no two steps, where none spell two scripts.
pub fn printing_is_injective()
    ensures rows { (table : Table) (names : List (List ℕ)) (m n k r : ℕ) (s t : Tree) →
        tells_apart table ≡ true → is_single table r ≡ true → is_parted table ≡ true →
        IsUnambiguous table r m → AreNames names →
        is_known (length names) s ≡ true → is_known (length names) t ≡ true →
        IsTree table n r s → IsTree table k r t → FitsIn table n r m s → FitsIn table k r m t →
        tree_text table names n r s ≡ tree_text table names k r t → s ≡ t }
    ensures steps { (names : List (List ℕ)) (m n k : ℕ) (s t : Tree) →
        IsUnambiguous script_rows script_row m → AreNames names →
        is_known (length names) s ≡ true → is_known (length names) t ≡ true →
        IsTree script_rows n step_row s → IsTree script_rows k step_row t →
        FitsIn script_rows n step_row m s → FitsIn script_rows k step_row m t →
        tree_text script_rows names n step_row s ≡ tree_text script_rows names k step_row t → s ≡ t }
{}

/// A small step has known names, one of which is a word of scripts, and its text and its signs are
/// as expected.
pub fn a_small_step()
    ensures names { AreNames small_names }
    ensures known { is_known (length small_names) small ≡ true }
    ensures tree { IsTree script_rows 1 step_row small }
    ensures text { tree_text script_rows small_names 1 step_row small ≡ codes "rename move to x" }
    ensures signs { row_signs (words_among small_behind) script_rows 1 step_row small ≡ small_signs }
{}
