// The signs of the text of a tree that a table prints, a step or a script, spell the tree.

ghost use Rattle.std.specs.Prelude.{◌≡◌, ◌≤◌, ℕ, true, false, List, ◌++◌, map};
ghost use Rattle.cv_syntax_trees.specs.Tree.{Tree};
ghost use Rattle.cv_parse_notation.specs.declared.sign.Sign.{Sign};
ghost use Rattle.cv_parse_notation.specs.Spells.{IsSort, next_is};
ghost use Rattle.cv_parse_grammar.specs.Names.{Uses};
ghost use Rattle.cv_parse_tables.specs.Table.{Row, Table, table_heads, table_rule};
ghost use Rattle.cv_script.specs.rows.Rows.{script_row, script_rows, step_row};
ghost use Rattle.cv_print_bytes.specs.terminals.Written.{opens};
ghost use Rattle.cv_print_scripts.specs.steps.Apart.{is_single, tells_apart};
ghost use Rattle.cv_print_scripts.specs.steps.Shown.{AreWords, Words, row_levels, row_signs, spoken};
ghost use Rattle.cv_print_scripts.specs.steps.Trees.{IsTree};

/// Where a table tells its trees and its texts apart, and a row of it makes one tree, the signs of that tree's text
/// spell the tree by the row, with as many levels as the text needs, in front of any signs of a script that don't
/// begin with a parenthesis or a square bracket.
pub fn signs_are_read_back()
    ensures { (words : Words) (table : Table) → AreWords words → tells_apart table ≡ true →
        (n m r : ℕ) (t : Tree) (rest : List Sign) →
        IsTree table n r t → is_single table r ≡ true → row_levels words table n r t ≤ m →
        next_is opens rest ≡ false → map (spoken words) rest ≡ rest →
        (uses : Uses) × IsSort (table_heads table) (table_rule table) m (Row r)
        (row_signs words table n r t ++ rest) t uses rest }
{}

/// The table of scripts tells its trees and its texts apart, and its rows of steps and of scripts make one tree.
pub fn scripts_tell_apart()
    ensures apart { tells_apart script_rows ≡ true }
    ensures step { is_single script_rows step_row ≡ true }
    ensures script { is_single script_rows script_row ≡ true }
{}
