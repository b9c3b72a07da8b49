// The names that the right sides of a file's equivalences bind: nothing stands at one, and none is a constant.

ghost use Rattle.std.specs.Prelude.{◌≡◌, ℕ, List, Ok};
ghost use Rattle.std.specs.List.{AllByRecursion};
ghost use Rattle.cv_syntax_trees.specs.Tree.{second};
ghost use Rattle.cv_meaning.specs.Interpretation.{is_constant_of};
ghost use Rattle.cv_parse_notation.specs.declared.sign.Sign.{Sign};
ghost use Rattle.cv_parse.specs.Parsed.{Parsed, parsed};
ghost use Rattle.cv_group_rules.specs.Faults.{equivalences_in};
ghost use Rattle.cv_context_files.specs.right_names.Bindings.{HasFreeNames};

/// In the right side of each equivalence of a file, a collision among them, nothing stands at a name that is bound,
/// and no constant of the file is bound.
pub fn right_sides_of_files_have_free_names()
    ensures { (limit : ℕ) (signs : List Sign) (p : Parsed) → parsed limit signs ≡ Ok p →
        AllByRecursion (λ e. HasFreeNames (is_constant_of p.declarations) (second e))
        (equivalences_in p.declarations) }
{}
