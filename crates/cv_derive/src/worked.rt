// Derivations worked through at a place of a small game.

ghost use Rattle.std.specs.Prelude.{◌≡◌, true, false, [], ◌∷◌, Some};
ghost use Rattle.std.specs.List.{AllByRecursion};
ghost use Rattle.cv_syntax_trees.specs.declared.head.Head.TheVariants.{ByHere};
ghost use Rattle.cv_syntax_trees.specs.Tree.{chain, lone};
ghost use Rattle.cv_scene.specs.Derivations.{first_bad_line};
ghost use Rattle.cv_scene.specs.lines.Ends.{ends_with};
ghost use Rattle.cv_scene.specs.lines.Truths.{no};
ghost use Rattle.cv_derive.specs.worked.Worked.{
  cases,
  ends,
  is_there,
  late,
  late_cases,
  late_pair,
  late_sight,
  line,
  no_ends,
  pair_cases,
  pair_sight,
  sight,
  two_lines,
  x,
};

/// What is the first line that isn't right, in derivations at a place of a small game: each reason is
/// right somewhere and wrong somewhere, and so are those of a pair at two places, and `late` in another game,
/// which is wrong in a pair. And what two lines end with.
pub fn worked_derivations()
    ensures lines { AllByRecursion (λ c. first_bad_line sight (chain c.0) ≡ c.1) cases }
    ensures late { AllByRecursion (λ c. first_bad_line (late_sight c.0) (chain c.1) ≡ c.2)
        late_cases }
    ensures pairs { AllByRecursion (λ c. first_bad_line pair_sight (chain c.0) ≡ c.1) pair_cases }
    ensures moments { first_bad_line late_pair
        (chain (is_there x (lone ByHere) ∷ line no (late 1 []) ∷ [])) ≡ Some 2 }
    ensures ends { AllByRecursion (λ t. ends_with two_lines (chain t) ≡ true) ends }
    ensures others { AllByRecursion (λ t. ends_with two_lines (chain t) ≡ false) no_ends }
{}
