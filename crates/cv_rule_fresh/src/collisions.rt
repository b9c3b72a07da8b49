// Small games in which the step `fresh` takes an equality to be false.

ghost use Rattle.std.specs.Prelude.{◌≡◌};
ghost use Rattle.std.specs.List.{AllByRecursion};
ghost use Rattle.cv_meaning.specs.Chances.{Same, distance};
ghost use Rattle.cv_scope_rules.specs.Phrases.{IsWellFormed};
ghost use Rattle.cv_steps.specs.Steps.{Leads};
ghost use Rattle.cv_derive_laws.specs.stores.Costs.{bound_of};
ghost use Rattle.cv_rule_fresh.specs.collisions.Fresh.{fresh_row};
ghost use Rattle.cv_rule_fresh.specs.collisions.Worked.{
  cases,
  chance_in,
  current,
  declared,
  guessed,
  guesses,
  not_guessed,
  one_of_many,
  scene_of,
  three_values,
};

/// Rows in small games: an equality with a nonce on either side goes, in a test and in the condition of a branch, and each
/// condition fails somewhere.
pub fn worked_rows()
    ensures game { IsWellFormed declared (guesses 5 (current 4) (current 9)) }
    ensures cases { AllByRecursion (λ c. fresh_row c.0 c.1 ≡ c.2) cases }
{}

/// In a game with one copy and a type of three values the cost is reached: an adversary that sends a guess of the nonce
/// makes an event happen on one tape of three, and in the next game on none.
pub fn worked_costs()
    ensures row { fresh_row (scene_of guessed) 4 ≡ Leads not_guessed one_of_many }
    ensures reached { Same (distance (chance_in guessed) (chance_in not_guessed))
        (bound_of three_values one_of_many) }
{}
