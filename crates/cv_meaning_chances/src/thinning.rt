// Laws of games without definitions that are read nowhere, and with one body in place of constructs whose
// bodies are all equal.

ghost use Rattle.std.specs.Prelude.{◌≡◌, ℕ, Bool, true};
ghost use Rattle.cv_syntax_trees.specs.Tree.{Tree};
ghost use Rattle.cv_meaning.specs.Tapes.{Tape};
ghost use Rattle.cv_meaning.specs.Interpretation.{Setting};
ghost use Rattle.cv_meaning.specs.Runs.{Adversary, Mode};
ghost use Rattle.cv_meaning.specs.Experiments.{Experiment, holds_on, mode_of, run};
ghost use Rattle.cv_meaning_runs.specs.Replacement.{IsReplaced, Process};
ghost use Rattle.cv_meaning_runs.specs.Simulation.{AreAlike};
ghost use Rattle.cv_meaning_chances.specs.unread.Dropping.{AgreesOff, IsUntested, reads_none};
ghost use Rattle.cv_meaning_chances.specs.thinning.Thinning.{AreLikeInputs, IsThinned};

/// A construct whose bodies are all equal serves as its body, but for the index variables of its branches; a
/// definition that is read nowhere may go. So in a game and in the one without these, both runs show the
/// adversary the same on every tape, and each experiment holds in both or in none. A game with one such
/// construct changed to its body, where nothing of it reads these variables then, is such a one.
pub fn thinned_games_are_alike()
    ensures runs { (xs : ℕ → Bool) (g : Setting) (m : Mode) (a : Adversary) (game next : Tree)
        (t : Tape) → IsThinned xs Process game next → IsUntested xs m →
        AreAlike (AgreesOff xs) (AreLikeInputs xs) (run g m a game t) (run g m a next t) }
    ensures tests { (xs : ℕ → Bool) (g : Setting) (x : Experiment) (a : Adversary)
        (game next : Tree) (t : Tape) → IsThinned xs Process game next →
        IsUntested xs (mode_of x) → holds_on g x a game t ≡ holds_on g x a next t }
    ensures local { (xs : ℕ → Bool) (old new game next : Tree) (place : ℕ) →
        IsThinned xs Process old new → reads_none xs next ≡ true →
        IsReplaced old new place Process 0 game next → IsThinned xs Process game next }
{}
