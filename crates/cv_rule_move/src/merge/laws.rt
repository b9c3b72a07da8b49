ghost use Rattle.std.specs.Prelude.{◌≡◌, ℕ};
ghost use Rattle.std.specs.List.{AllByRecursion};
ghost use Rattle.cv_derive_laws.specs.stores.Steps.{IsSound};
ghost use Rattle.cv_steps.specs.Judgements.{judgement_of};
ghost use Rattle.cv_rule_move.specs.merge.Row.{merge_step};
ghost use Rattle.cv_rule_move.specs.merge.Worked.{merges};

/// An `if` or a `find` whose bodies are all equal may become its body, where its index variables are named in
/// its own binders, lists and conditions alone: whatever it chooses, it goes on alike.
pub fn merging_is_sound()
    ensures { (place : ℕ) → IsSound (merge_step place) }
{}

/// What is said of merges in small games: an `if`, and a `find` whose list and condition name its own index;
/// and each condition fails somewhere.
pub fn worked_merges()
    ensures { AllByRecursion (λ c. judgement_of c.0 (merge_step c.1) ≡ c.2) merges }
{}
