ghost use Rattle.std.specs.Prelude.{◌≡◌};
ghost use Rattle.cv_syntax_trees.specs.Tree.{Empty, Tree};
ghost use Rattle.cv_scene.specs.Derivations.{first_bad_line};
ghost use Rattle.cv_scene.specs.lines.Lines.{lines_of};
ghost use Rattle.cv_scene.specs.Sights.{Sight};
ghost use Rattle.cv_derive.specs.Searching.{first_bad_in};

/// A line that is looked for from the first line of a derivation on is found exactly where it may be cited.
pub fn searched_lines_are_visible()
    ensures { (s : Sight) (by : Tree) → first_bad_line s by
        ≡ first_bad_in (lines_of by) s Empty 1 (lines_of by) }
{}
