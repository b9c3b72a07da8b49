// The law of games that say the same in other words.

ghost use Rattle.std.specs.Prelude.{◌≡◌};
ghost use Rattle.std.specs.List.{All, AllByRecursion};
ghost use Rattle.cv_syntax_trees.specs.Tree.{Tree};
ghost use Rattle.cv_meaning.specs.Tapes.{Tape, blank};
ghost use Rattle.cv_meaning.specs.Interpretation.{Setting};
ghost use Rattle.cv_meaning.specs.Runs.{Adversary, Mode};
ghost use Rattle.cv_meaning.specs.Cells.{cells};
ghost use Rattle.cv_meaning.specs.Experiments.{Experiment, holds_on, mode_of, run, visits_of_run};
ghost use Rattle.cv_meaning.specs.Advantage.{chance_of};
ghost use Rattle.cv_meaning_laws.specs.adequacy.Counted.{tapes_of};
ghost use Rattle.cv_meaning_runs.specs.Replacement.{Process, SameMemory};
ghost use Rattle.cv_meaning_runs.specs.Simulation.{AreAlike};
ghost use Rattle.cv_meaning_chances.specs.rewording.Rewording.{AreLikeInputs, IsReworded};

use cv_meaning_runs::Expectation;

/// Where a game is another one with other terms, `defined` lists and conditions, and each construct does
/// with its new words what it does with the old ones at each visit of a run, both runs show the adversary
/// the same, with the same memory. So each experiment holds in both or in none; and if that is so on each
/// tape that is counted, it has one chance in both, since they have the same cells.
pub fn reworded_games_are_alike<E: Expectation>()
    ensures runs { (g : Setting) (m : Mode) (a : Adversary) (game next : Tree) (t : Tape) →
        IsReworded g (E.visits t) Process 0 game next →
        AllByRecursion (E.visits t) (visits_of_run g m a game t) →
        AreAlike SameMemory (AreLikeInputs g (E.visits t)) (run g m a game t) (run g m a next t) }
    ensures tests { (g : Setting) (x : Experiment) (a : Adversary) (game next : Tree) (t : Tape) →
        IsReworded g (E.visits t) Process 0 game next →
        AllByRecursion (E.visits t) (visits_of_run g (mode_of x) a game t) →
        holds_on g x a game t ≡ holds_on g x a next t }
    ensures cells { (g : Setting) (m : Mode) (a : Adversary) (game next : Tree) (t : Tape) →
        IsReworded g (E.visits t) Process 0 game next → cells g m a game ≡ cells g m a next }
    ensures chances { (g : Setting) (x : Experiment) (a : Adversary) (game next : Tree) →
        ((t : Tape) → IsReworded g (E.visits t) Process 0 game next) →
        All (λ t. AllByRecursion (E.visits t) (visits_of_run g (mode_of x) a game t))
        (tapes_of (cells g (mode_of x) a game) blank) →
        chance_of g x a game ≡ chance_of g x a next }
{}
