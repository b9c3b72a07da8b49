ghost use Rattle.std.specs.Prelude.{◌≡◌, ◌+◌, ◌-◌, ◌<◌, ◌≤◌, ℕ, List, length, Ok, Err};
ghost use Rattle.cv_syntax_trees.specs.Tree.{Tree};
ghost use Rattle.cv_syntax.specs.declared.work.BuildError.TheVariants.{Full};
ghost use Rattle.cv_parse_notation.specs.declared.sign.Sign.{Sign};
ghost use Rattle.cv_parse_notation.specs.Spells.{Use};
ghost use Rattle.cv_parse_notation.specs.Whole.{Dead};
ghost use Rattle.cv_parse_grammar.specs.declared.role.Role.{Role};
ghost use Rattle.cv_script.specs.reader.Scripts.{items, script_of};
ghost use Rattle.cv_syntax.specs.limits.Limits.{nodes_of};
ghost use Rattle.cv_script.specs.declared.reader.error.ScriptError.TheVariants.{Build, Script};
ghost use Rattle.cv_script_laws.specs.forms.Scripts.{IsScript, IsSomeScript, Takes};
ghost use Rattle.std.specs.List.{AllByRecursion};
ghost use Rattle.cv_script_laws.specs.forms.Items.{HasItems};

/// What is computed of a script's tokens is what they spell: its steps are the items of the tree that they spell, where
/// the pool has room for it, they spell one script at most, and a token that is refused is one through which no script goes.
pub fn scripts_are_decided()
    ensures accepted { (limit live from : ℕ) (signs : List Sign) (steps : List Tree) →
        script_of limit live from signs ≡ Ok steps → Takes limit live signs steps }
    ensures taken { (limit live from : ℕ) (signs : List Sign) (script : Tree)
        (uses : List (Use Role)) →
        IsScript signs script uses → live + nodes_of script ≤ limit
        → script_of limit live from signs ≡ Ok (items script) }
    ensures unique { (signs : List Sign) (s t : Tree) (us vs : List (Use Role)) →
        IsScript signs s us → IsScript signs t vs → s ≡ t }
    ensures full { (limit live from : ℕ) (signs : List Sign) (script : Tree)
        (uses : List (Use Role)) →
        IsScript signs script uses → limit < live + nodes_of script
        → script_of limit live from signs ≡ Err (Build (Full (nodes_of script))) }
    ensures refused { (limit live from : ℕ) (signs : List Sign) (token : ℕ) →
        script_of limit live from signs ≡ Err (Script token)
        → Dead IsSomeScript signs (from + length signs - token) }
{}

/// Each tree of a script that was read has the items of a step: no view of it is missing.
pub fn steps_have_items()
    ensures { (limit live from : ℕ) (signs : List Sign) (steps : List Tree) →
        script_of limit live from signs ≡ Ok steps →
        AllByRecursion HasItems steps }
{}
