ghost use Rattle.std.specs.Prelude.{◌≡◌, ℕ, List, true};
ghost use Rattle.std.specs.List.{AllByRecursion};
ghost use Rattle.cv_syntax_trees.specs.Tree.{Tree};
ghost use Rattle.cv_meaning.specs.Tapes.{Tape};
ghost use Rattle.cv_meaning.specs.Interpretation.{Interpretation, setting_of};
ghost use Rattle.cv_meaning.specs.Runs.{Adversary};
ghost use Rattle.cv_meaning.specs.Experiments.{Experiment, holds_on, mode_of};
ghost use Rattle.cv_meaning.specs.Advantage.{IsAsked};
ghost use Rattle.cv_meaning.specs.Queries.{queries_in};
ghost use Rattle.cv_meaning_chances.specs.unread.Dropping.{reads_none};
ghost use Rattle.cv_scope_rules.specs.Phrases.{IsWellFormed};
ghost use Rattle.cv_scene.specs.Scenes.{KnowsQueries, Scene};
ghost use Rattle.cv_steps.specs.Changes.{only};
ghost use Rattle.cv_steps.specs.Judgements.{judgement_of};
ghost use Rattle.cv_steps.specs.Steps.{Cost, Leads};
ghost use Rattle.cv_rule_array_names.specs.Owners.{exchanged_tape};
ghost use Rattle.cv_rule_array_names.specs.Row.{array_names_row, array_names_step};
ghost use Rattle.cv_rule_array_names.specs.Sites.{AreNoConstants};
ghost use Rattle.cv_rule_array_names.specs.Worked.{cases};

/// Where each definition of a variable gets a name of its own, and a branch that looks for a cell of the variable
/// becomes one branch for each name, an experiment holds on a tape in the game exactly if it holds in the next game
/// on the tape where, at each copy, the cell of the variable and that of the name that the copy's definition got
/// change places: each candidate of a `find` has exactly one among the copies, in the same order.
pub fn split_definitions_serve_alike()
    ensures { (s : Scene) (x : ℕ) (names : List ℕ) (next : Tree) (cost : Cost) →
        IsWellFormed s.declarations s.game → KnowsQueries s → AreNoConstants s names →
        reads_none (only x) next ≡ true → array_names_row s x names ≡ Leads next cost →
        (i : Interpretation) (e : Experiment) (a : Adversary) (t : Tape) →
        IsAsked (queries_in s.declarations) e →
        holds_on (setting_of s.declarations i) e a s.game t
        ≡ holds_on (setting_of s.declarations i) e a next
        (exchanged_tape (setting_of s.declarations i) (mode_of e) a s.game x names t) }
{}

/// What is said of the step in small games: definitions and reads get their names, a branch becomes one for each
/// name in its place, what a list looks for wins over a definition above, and each condition fails somewhere.
pub fn worked_splits()
    ensures { AllByRecursion
        (λ c. judgement_of c.0 (array_names_step c.1 c.2) ≡ c.3) cases }
{}
