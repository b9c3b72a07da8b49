// The text of a step is read as the step, and each step that is read is a tree that is printed.

ghost use Rattle.std.specs.Prelude.{◌≡◌, ◌+◌, ◌≤◌, ℕ, suc, true, List, [], ◌∷◌, ◌++◌, length, codes, ◌<◌, ◌^◌, Ok};
ghost use Rattle.cv_syntax_trees.specs.Tree.{Tree, chain};
ghost use Rattle.cv_parse_grammar.specs.Files.{levels};
ghost use Rattle.cv_script.specs.reader.Scripts.{items, script_read};
ghost use Rattle.cv_syntax.specs.limits.Limits.{nodes_of};
ghost use Rattle.cv_print_bytes.specs.Known.{AreNames};
ghost use Rattle.cv_print_scripts.specs.Known.{is_known};
ghost use Rattle.cv_print_scripts.specs.Texts.{FitsIn, IsUnambiguous};
ghost use Rattle.cv_print_scripts.specs.steps.Trees.{IsTree};
ghost use Rattle.cv_print_tables.specs.Prints.{tree_text};
ghost use Rattle.cv_script.specs.rows.Rows.{script_row, script_rows, step_row};
ghost use Rattle.cv_script_laws.specs.printing.Back.{ComesBack};
ghost use Rattle.std.specs.List.{AllByRecursion};
ghost use Rattle.cv_lex.specs.Lexis.{Token};
ghost use Rattle.cv_lex.specs.View.{AreTokens};
ghost use Rattle.cv_parse_tables.specs.terminals.ScriptSigns.{between, script_signs};
ghost use Rattle.cv_script_laws.specs.printing.Trees.{IsKnownStep, IsReadBack};

/// Where the names are proper and known, the text within the levels that may be read, and the pool has
/// room, the text of a step with its semicolon is read as this one step, and the text of a script as its
/// steps.
pub fn steps_come_back()
    ensures steps { (limit live from n : ℕ) (names : List (List ℕ)) (t : Tree) → AreNames names →
        is_known (length names) t ≡ true → IsTree script_rows n step_row t →
        FitsIn script_rows n step_row (suc levels) t → live + nodes_of (chain (t ∷ [])) ≤ limit →
        ComesBack limit live from names (tree_text script_rows names n step_row t ++ codes ";")
        (t ∷ []) }
    ensures scripts { (limit live from n : ℕ) (names : List (List ℕ)) (t : Tree) → AreNames names →
        is_known (length names) t ≡ true → IsTree script_rows n script_row t →
        FitsIn script_rows n script_row (suc levels) t → live + nodes_of t ≤ limit →
        ComesBack limit live from names (tree_text script_rows names n script_row t) (items t) }
{}

/// No two trees of a script have the same text by the same names, and no two steps have it, since tokens spell one
/// script at most.
pub fn texts_of_scripts_differ()
    ensures unambiguous { IsUnambiguous script_rows script_row (suc levels) }
    ensures scripts { (names : List (List ℕ)) (n k : ℕ) (s t : Tree) → AreNames names →
        is_known (length names) s ≡ true → is_known (length names) t ≡ true →
        IsTree script_rows n script_row s → IsTree script_rows k script_row t →
        FitsIn script_rows n script_row (suc levels) s →
        FitsIn script_rows k script_row (suc levels) t →
        tree_text script_rows names n script_row s ≡ tree_text script_rows names k script_row t →
        s ≡ t }
    ensures steps { (names : List (List ℕ)) (n k : ℕ) (s t : Tree) → AreNames names →
        is_known (length names) s ≡ true → is_known (length names) t ≡ true →
        IsTree script_rows n step_row s → IsTree script_rows k step_row t →
        FitsIn script_rows n step_row (suc levels) s →
        FitsIn script_rows k step_row (suc levels) t →
        tree_text script_rows names n step_row s ≡ tree_text script_rows names k step_row t →
        s ≡ t }
{}

/// Each step of a script that was read is a tree of the table, in no more levels than a text has, and its names are
/// among those behind the script, where those before it are proper names.
pub fn read_steps_are_trees()
    ensures { (limit live from to : ℕ) (names : List (List ℕ)) (tokens : List Token)
        (steps : List Tree) → AreTokens tokens → to < length tokens → length tokens < 2 ^ 64 →
        AreNames names →
        script_read limit live names tokens from to ≡ Ok steps →
        AllByRecursion
        (IsKnownStep (length (script_signs names (between from to tokens)).names)) steps }
{}

/// So the text of each step that was read is read back as the step, by the names behind the script. Only where its
/// text is deeper than a script may be, or the pool has no room, it need not be.
pub fn read_steps_come_back()
    ensures { (limit live from to : ℕ) (names : List (List ℕ)) (tokens : List Token)
        (steps : List Tree) → AreTokens tokens → to < length tokens → length tokens < 2 ^ 64 →
        AreNames names →
        script_read limit live names tokens from to ≡ Ok steps →
        AllByRecursion (IsReadBack (script_signs names (between from to tokens)).names) steps }
{}
