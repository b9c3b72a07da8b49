// The rule `birthday`: comparisons of two cells of one array of random values become comparisons of their indices. Its row and its plan.
#![tactic(auto)]

mod changing;
mod choices;
mod comparisons;
mod conditions;
mod equations;
pub mod guess;
mod planning;

ghost use Rattle.std.specs.Prelude.{◌≡◌};
ghost use Rattle.std.specs.List.{AllByRecursion};
ghost use Rattle.cv_steps.specs.Judgements.{judgement_of};
ghost use Rattle.cv_rule_birthday.specs.Row.{birthday_step};
ghost use Rattle.cv_rule_birthday.specs.Worked.{birthdays};

pub use planning::plan;

/// What is said of the step in small games: a comparison in a test, in the condition of a branch and in its body, and no place at all;
/// and each condition fails somewhere.
pub fn worked_birthdays()
    ensures { AllByRecursion (λ c. judgement_of c.0 (birthday_step c.1 c.2) ≡ c.3) birthdays }
{}
