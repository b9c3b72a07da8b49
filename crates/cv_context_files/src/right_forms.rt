// The right sides of the equivalences of a file, as its grammar gives them.

ghost use Rattle.std.specs.Prelude.{◌≡◌, ℕ, List, Ok, true};
ghost use Rattle.std.specs.List.{AllByRecursion};
ghost use Rattle.cv_parse_notation.specs.declared.sign.Sign.{Sign};
ghost use Rattle.cv_parse.specs.Parsed.{Parsed, parsed};
ghost use Rattle.cv_meaning.specs.contexts.Groups.{Right, side_group};
ghost use Rattle.cv_scope_rules.specs.typing.Parts.{IsTypedFile};
ghost use Rattle.cv_group_rules.specs.Faults.{equivalences_in};
ghost use Rattle.cv_group_rules.specs.Rules.{branches_have_one_index};
ghost use Rattle.cv_inline_names_laws.specs.cells.Layout.{IsRightFunction};
ghost use Rattle.cv_context_files.specs.right_forms.Forms.{HasRightForm};

/// The right side of each equivalence of a file, a collision among them, is of the grammar of right sides, and so
/// are its functions, where each branch of a `find` there has one index, as a rule of groups asks.
pub fn right_sides_of_files_are_of_the_grammar()
    ensures { (limit : ℕ) (signs : List Sign) (p : Parsed) → parsed limit signs ≡ Ok p →
        AllByRecursion (λ e. branches_have_one_index e ≡ true → HasRightForm e)
        (equivalences_in p.declarations) }
{}

/// Where the file is typed, its right functions choose each name with one type besides: they are what contexts
/// that are laid out ask of them.
pub fn typed_files_have_right_functions()
    ensures { (limit : ℕ) (signs : List Sign) (p : Parsed) → parsed limit signs ≡ Ok p →
        IsTypedFile p.declarations p.game →
        AllByRecursion (λ e. branches_have_one_index e ≡ true →
        AllByRecursion IsRightFunction (side_group Right e).functions)
        (equivalences_in p.declarations) }
{}
