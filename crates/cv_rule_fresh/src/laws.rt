// The laws of the step `fresh`.
ghost use Rattle.std.specs.Prelude.{◌≡◌, ℕ};
ghost use Rattle.cv_syntax_trees.specs.Tree.{Tree};
ghost use Rattle.cv_scope_rules.specs.Phrases.{IsWellFormed};
ghost use Rattle.cv_scope_rules.specs.typing.Parts.{IsTypedGame};
ghost use Rattle.cv_scene.specs.Scenes.{Scene};
ghost use Rattle.cv_steps.specs.Steps.{Cost, Leads};
ghost use Rattle.cv_derive_laws.specs.stores.Costs.{CostsAtMost};
ghost use Rattle.cv_derive_laws.specs.stores.Steps.{IsSound};
ghost use Rattle.cv_rule_fresh.specs.collisions.Fresh.{fresh_row, fresh_step};

/// A value that is chosen at random misses a term that was known before, but for a chance of one in the size of its
/// type, for each copy of the choice. So an equality of the two may be taken to be false: the chances of an experiment
/// differ by no more than the copies of the choice in the size of its type.
pub fn fresh_values_are_missed()
    ensures { (s : Scene) (place : ℕ) (next : Tree) (cost : Cost) →
        IsWellFormed s.declarations s.game → IsTypedGame s.declarations s.game →
        fresh_row s place ≡ Leads next cost → CostsAtMost s.declarations s.game next cost }
{}

/// So the step is sound: chances stay as they were up to its cost, which has a value wherever the type has values.
pub fn fresh_is_sound()
    ensures { (p : ℕ) → IsSound (fresh_step p) }
{}
