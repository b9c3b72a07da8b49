// The law of the step by which a body goes that no copy reaches.

ghost use Rattle.std.specs.Prelude.{◌≡◌, ℕ};
ghost use Rattle.cv_syntax_trees.specs.Tree.{Tree};
ghost use Rattle.cv_scene.specs.Scenes.{Scene};
ghost use Rattle.cv_derive_laws.specs.stores.Holding.{IsReady};
ghost use Rattle.cv_derive_laws.specs.stores.Soundness.{DerivedBodiesAreUnreached};
ghost use Rattle.cv_scene.specs.Pruning.{Part};
ghost use Rattle.cv_steps.specs.Steps.{Cost, Leads};
ghost use Rattle.cv_steps.specs.Rows.{prune_row};
ghost use Rattle.cv_steps.specs.Chances.{KeepsChances};

/// A body at which `false` is derived may go, where such bodies are unreached: an `if` serves as its other
/// body, and a `find` chooses among the candidates of its other branches, which are all that it has.
pub fn pruning_keeps_chances()
    ensures { (s : Scene) (place : ℕ) (part : Part) (by next : Tree) (cost : Cost) →
        IsReady s.declarations s.game → DerivedBodiesAreUnreached s.declarations →
        prune_row s place part by ≡ Leads next cost → KeepsChances s.declarations s.game next }
{}
