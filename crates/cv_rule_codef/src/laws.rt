ghost use Rattle.std.specs.Prelude.{◌≡◌, ℕ, Bool, List, true};
ghost use Rattle.std.specs.List.{AllByRecursion};
ghost use Rattle.cv_syntax_trees.specs.Declarations.{Declaration};
ghost use Rattle.cv_syntax_trees.specs.Tree.{Tree};
ghost use Rattle.cv_meaning.specs.Experiments.{visits_of_run};
ghost use Rattle.cv_meaning.specs.Interpretation.{Setting};
ghost use Rattle.cv_meaning.specs.Runs.{Adversary, Mode};
ghost use Rattle.cv_meaning.specs.Tapes.{Tape};
ghost use Rattle.cv_scope_rules.specs.Phrases.{HasConstantsOf, IsWellFormed};
ghost use Rattle.cv_derive_laws.specs.stores.Steps.{IsSound};
ghost use Rattle.cv_steps.specs.Judgements.{judgement_of};
ghost use Rattle.cv_rule_codef.specs.Adjacent.{are_adjacent, is_above};
ghost use Rattle.cv_rule_codef.specs.Row.{codef_step};
ghost use Rattle.cv_rule_codef.specs.Standing.{AreAssignedTogether, AssignsAfter};
ghost use Rattle.cv_rule_codef.specs.Worked.{codefs};

/// At each visited `find` of a well-formed game, on every tape, one of two adjacent variables is assigned wherever the other is:
/// between two adjacent definitions no list is looked at.
pub fn adjacent_variables_are_assigned_together()
    ensures { (ds : List Declaration) (g : Setting) (m : Mode) (a : Adversary) (game : Tree)
        (t : Tape) (x y : ℕ) → HasConstantsOf ds g → IsWellFormed ds game →
        are_adjacent x y game ≡ true →
        AllByRecursion (AreAssignedTogether x y) (visits_of_run g m a game t) }
{}

/// At each visited `find` of a well-formed game, on every tape, a variable is assigned wherever one is that is defined below it under
/// the same replications.
pub fn variables_above_are_assigned_before()
    ensures { (ds : List Declaration) (g : Setting) (m : Mode) (a : Adversary) (game : Tree)
        (t : Tape) (x y : ℕ) → HasConstantsOf ds g → IsWellFormed ds game →
        is_above x y game ≡ true → AllByRecursion (AssignsAfter x y) (visits_of_run g m a game t) }
{}

/// A `defined` list that has a cell of one of two adjacent variables, or of the one below, may get the other's at the same indices, or lose it: it says
/// the same at each visit.
pub fn codef_is_sound()
    ensures { (place : ℕ) (adds above : Bool) (to from : Tree) →
        IsSound (codef_step place adds above to from) }
{}

/// What is said of the step in small games: arguments of one input, a `let` behind an input, a `new` behind another; and each
/// condition fails somewhere.
pub fn worked_codefs()
    ensures { AllByRecursion (λ c. judgement_of c.0 c.1 ≡ c.2) codefs }
{}
