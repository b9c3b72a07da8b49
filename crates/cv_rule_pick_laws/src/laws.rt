ghost use Rattle.std.specs.Prelude.{◌≡◌, ℕ};
ghost use Rattle.std.specs.List.{AllByRecursion};
ghost use Rattle.cv_syntax_trees.specs.Tree.{Tree};
ghost use Rattle.cv_derive_laws.specs.stores.Steps.{IsSound};
ghost use Rattle.cv_steps.specs.Judgements.{judgement_of};
ghost use Rattle.cv_rule_pick.specs.Row.{pick_step};
ghost use Rattle.cv_rule_pick_laws.specs.Worked.{picks};

/// A `find` of one branch may become its body, with terms for its index variables, where a derivation at the
/// body shows that each index variable is its term, and one at the `find` that with these terms
/// the cells are defined and the condition holds: so it takes this branch, with the values of these terms.
pub fn picking_is_sound()
    ensures { (place : ℕ) (terms at_body at_find : Tree) →
        IsSound (pick_step place terms at_body at_find) }
{}

/// What is said of picks in small games: a `find` is decided by its own index, by two or by none; and each
/// condition fails somewhere.
pub fn worked_picks()
    ensures { AllByRecursion (λ c. judgement_of c.0 c.1 ≡ c.2) picks }
{}
