// The law of the step `guess`.
ghost use Rattle.std.specs.Prelude.{◌≡◌, ℕ, List};
ghost use Rattle.cv_derive_laws.specs.stores.Costs.{CostsAtMost};
ghost use Rattle.cv_derive_laws.specs.stores.Steps.{IsSound};
ghost use Rattle.cv_rule_birthday.specs.guess.Row.{guess_row, guess_step};
ghost use Rattle.cv_scene.specs.Scenes.{Scene};
ghost use Rattle.cv_scope_rules.specs.Phrases.{IsWellFormed};
ghost use Rattle.cv_steps.specs.Steps.{Cost, Leads};
ghost use Rattle.cv_syntax_trees.specs.Tree.{Tree};
ghost use Rattle.cv_scope_rules.specs.typing.Parts.{IsTypedGame};

/// A value that is chosen at random and that nothing else reads is guessed with a chance of one in the size of its
/// type, at each copy of an equality with it. So these equalities may be taken to be false: the chances of an
/// experiment differ by no more than the copies of their places in the size of the type.
pub fn unread_values_are_guessed_rarely()
    ensures { (s : Scene) (x : ℕ) (places : List ℕ) (next : Tree) (cost : Cost) →
        IsWellFormed s.declarations s.game → IsWellFormed s.declarations next →
        IsTypedGame s.declarations s.game → guess_row s x places ≡ Leads next cost →
        CostsAtMost s.declarations s.game next cost }
{}

/// So the step is sound at its cost.
pub fn guess_is_sound()
    ensures { (x : ℕ) (places : List ℕ) → IsSound (guess_step x places) }
{}
