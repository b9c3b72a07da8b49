// The law of the steps that have a rule.

ghost use Rattle.std.specs.Prelude.{◌≡◌, Some};
ghost use Rattle.cv_script.specs.Views.{StepItems};
ghost use Rattle.cv_derive_laws.specs.stores.Steps.{IsSound};
ghost use Rattle.cv_kernel.specs.Rules.{Rule, rule_of_items};

/// Each step with a rule keeps what sequences of games need, wherever it is accepted.
pub fn steps_with_a_rule_are_sound()
    ensures { (i : StepItems) (r : Rule) → rule_of_items i ≡ Some r → IsSound r.step }
{}
