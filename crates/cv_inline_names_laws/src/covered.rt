// Laws of drawn names: accepted right bodies have all that they ask for.

ghost use Rattle.std.specs.Prelude.{◌≡◌, ℕ, List, true};
ghost use Rattle.std.specs.List.{AllByRecursion};
ghost use Rattle.cv_syntax_trees.specs.Tree.{second};
ghost use Rattle.cv_meaning.specs.contexts.Groups.{Right, side_group};
ghost use Rattle.cv_meaning.specs.contexts.Sides.{Context};
ghost use Rattle.cv_group_rules.specs.Symbols.{Symbols};
ghost use Rattle.cv_group_rules.specs.Faults.{IsAccepted};
ghost use Rattle.cv_group_rules.specs.Rules.{functions_in};
ghost use Rattle.cv_inline.specs.bodies.Inlining.{Inlining};
ghost use Rattle.cv_meaning.specs.contexts.Roles.{Role};
ghost use Rattle.cv_inline.specs.NextGame.{Calling, callers_of, callings_of};
ghost use Rattle.cv_inline_laws.specs.draws.DrawnNames.{names_of_draws};
ghost use Rattle.cv_inline_names_laws.specs.accepted.Drawn.{IsDrawnFor};
ghost use Rattle.cv_inline_names_laws.specs.accepted.RightBodies.{is_right_side};
ghost use Rattle.cv_inline_names_laws.specs.cells.Layout.{IsRightFunction};
ghost use Rattle.cv_inline_names_laws.specs.covered.Covered.{HasDraws, names_stand_bare};

/// In a context of an accepted equivalence, in the grammar of files, what is drawn for its calls by number is what
/// the right body of each call asks for: so `accepted_bodies_are_fine` applies.
pub fn accepted_bodies_have_their_draws()
    ensures { (symbols : Symbols) (c : Context) (names labels : List ℕ) (role : ℕ → Role) →
        IsAccepted symbols c.equivalence → is_right_side (second c.equivalence) ≡ true →
        AllByRecursion IsRightFunction (side_group Right c.equivalence).functions →
        names_stand_bare (second c.equivalence) ≡ true →
        AllByRecursion (λ (k : Calling). (p : Inlining) →
        HasDraws symbols.constant
        (names_of_draws (side_group Right c.equivalence) (callings_of c) names labels role)
        (callings_of c) k p →
        IsDrawnFor symbols.constant (functions_in Right c.equivalence) k.function p
        (callers_of (callings_of c))) (callings_of c) }
{}
