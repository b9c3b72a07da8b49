// The rule `guess`: equalities of a value that is chosen at random and that nothing else reads are taken to be false. Its row and its
// plan with its cost.
mod changing;
mod comparisons;
mod costs;
mod guesses;
mod planning;
mod reads;

ghost use Rattle.std.specs.Prelude.{◌≡◌};
ghost use Rattle.std.specs.List.{AllByRecursion};
ghost use Rattle.cv_rule_birthday.specs.guess.Worked.{accepted, judged, refused};

pub use planning::plan;

/// Rows in small games: places in a test, in a second one, inside another place and in the condition of a branch; and each condition
/// fails somewhere, at the place that is told.
pub fn worked_rows()
    ensures accepted { AllByRecursion (λ c. judged c.0 c.1 c.2 ≡ c.3) accepted }
    ensures refused { AllByRecursion (λ c. judged c.0 c.1 c.2 ≡ c.3) refused }
{}
