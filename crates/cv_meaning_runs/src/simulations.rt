// Laws of two runs, moment by moment: tests have to tell the same only where moments are as expected,
// and the tests and visits of the two runs go with each other in order.

ghost use Rattle.std.specs.Prelude.{◌≡◌, ℕ, List, Option};
ghost use Rattle.std.specs.List.{AllByRecursion};
ghost use Rattle.cv_syntax_trees.specs.Tree.{Tree};
ghost use Rattle.cv_meaning.specs.Tapes.{Tape};
ghost use Rattle.cv_meaning.specs.Interpretation.{Setting};
ghost use Rattle.cv_meaning.specs.Memory.{Memory};
ghost use Rattle.cv_meaning.specs.Inputs.{Input};
ghost use Rattle.cv_meaning.specs.Serving.{Visit};
ghost use Rattle.cv_meaning.specs.Runs.{Adversary, Answer, Mode, Move, State, run_from};
ghost use Rattle.cv_meaning.specs.Experiments.{Experiment, Guesses, holds_on, mode_of, run};
ghost use Rattle.cv_meaning_runs.specs.Moments.{Moment, moments_of_run, run_moments};
ghost use Rattle.cv_meaning_runs.specs.Simulation.{
  AreAlike,
  HoldAlike,
  InOrder,
  IsGameSimulation,
  IsSimulation,
};
ghost use Rattle.cv_meaning_runs.specs.simulations.Moments.{
  AreEqual,
  AreMomentsAlike,
  AreVisitedAlike,
  IsMomentGameSimulation,
  IsMomentSimulation,
  OfVisits,
  TellsTheSame,
  tests_among,
};

use crate::RunRelation;

/// A relation between the memories of two runs, one between their available inputs, one between
/// their visits, and what is expected of the moments of the first run, at a tape of the first run.
pub trait MomentRelation {
    ghost memories: { Tape → Memory → Memory → Type 0 };

    ghost inputs: { Tape → Input → Input → Type 0 };

    ghost visits: { Tape → Visit → Visit → Type 0 };

    ghost expected: { Tape → Moment → Type 0 };
}

/// Where related inputs are served alike and tests tell the same, both only at moments that are as
/// expected, and all moments of the first run are so, two runs show the adversary the same answers
/// and end in states that are related: from related states on, and for two games that begin alike.
/// Their tests are of the same tuples, in order and in states that are related; and where the visits
/// of related inputs are related in order, so are all moments of the runs. Guesses hold alike, and an
/// experiment that holds alike holds on both tapes or on none.
pub fn simulated_moments_are_alike<R: MomentRelation>()
    ensures moves { (g h : Setting) (m n : Mode) (t u : Tape) →
        IsMomentSimulation (R.memories t) (R.inputs t) (R.expected t) g h m n t u →
        (next : List Answer → Option Move) (k : ℕ) (x y : State) →
        AreAlike (R.memories t) (R.inputs t) x y →
        AllByRecursion (R.expected t) (run_moments g m next t k x) →
        AreAlike (R.memories t) (R.inputs t) (run_from g m next t k x) (run_from h n next u k y) }
    ensures tests_of_moves { (g h : Setting) (m n : Mode) (t u : Tape) →
        IsMomentSimulation (R.memories t) (R.inputs t) (R.expected t) g h m n t u →
        (next : List Answer → Option Move) (k : ℕ) (x y : State) →
        AreAlike (R.memories t) (R.inputs t) x y →
        AllByRecursion (R.expected t) (run_moments g m next t k x) →
        InOrder (AreMomentsAlike (R.memories t) (R.inputs t) (R.visits t))
        (tests_among (run_moments g m next t k x)) (tests_among (run_moments h n next u k y)) }
    ensures moments_of_moves { (g h : Setting) (m n : Mode) (t u : Tape) →
        IsMomentSimulation (R.memories t) (R.inputs t) (R.expected t) g h m n t u →
        AreVisitedAlike (R.memories t) (R.inputs t) (R.visits t) (R.expected t) g h t u →
        (next : List Answer → Option Move) (k : ℕ) (x y : State) →
        AreAlike (R.memories t) (R.inputs t) x y →
        AllByRecursion (R.expected t) (run_moments g m next t k x) →
        InOrder (AreMomentsAlike (R.memories t) (R.inputs t) (R.visits t))
        (run_moments g m next t k x) (run_moments h n next u k y) }
    ensures games { (a : Adversary) (g h : Setting) (m n : Mode) (x y : Tree) (t u : Tape) →
        IsMomentGameSimulation (R.memories t) (R.inputs t) (R.expected t) a g h m n x y t u →
        AreAlike (R.memories t) (R.inputs t) (run g m a x t) (run h n a y u) }
    ensures tests { (a : Adversary) (g h : Setting) (m n : Mode) (x y : Tree) (t u : Tape) →
        IsMomentGameSimulation (R.memories t) (R.inputs t) (R.expected t) a g h m n x y t u →
        InOrder (AreMomentsAlike (R.memories t) (R.inputs t) (R.visits t))
        (tests_among (moments_of_run g m a x t)) (tests_among (moments_of_run h n a y u)) }
    ensures moments { (a : Adversary) (g h : Setting) (m n : Mode) (x y : Tree) (t u : Tape) →
        IsMomentGameSimulation (R.memories t) (R.inputs t) (R.expected t) a g h m n x y t u →
        AreVisitedAlike (R.memories t) (R.inputs t) (R.visits t) (R.expected t) g h t u →
        InOrder (AreMomentsAlike (R.memories t) (R.inputs t) (R.visits t))
        (moments_of_run g m a x t) (moments_of_run h n a y u) }
    ensures guesses { (t : Tape) (g h : Setting) (m n : Mode) →
        HoldAlike (R.memories t) (R.inputs t) g h (Guesses m) (Guesses n) }
    ensures experiments { (a : Adversary) (g h : Setting) (x y : Experiment) (p q : Tree)
        (t u : Tape) → HoldAlike (R.memories t) (R.inputs t) g h x y →
        IsMomentGameSimulation (R.memories t) (R.inputs t) (R.expected t) a g h
        (mode_of x) (mode_of y) p q t u →
        holds_on g x a p t ≡ holds_on h y a q u }
{}

/// Runs that simulate each other, with something expected of visits alone, do so moment by moment.
pub fn simulations_are_of_moments<R: RunRelation>()
    ensures steps { (g h : Setting) (m n : Mode) (t u : Tape) →
        IsSimulation (R.memories t) (R.inputs t) (R.expected t) g h m n t u →
        IsMomentSimulation (R.memories t) (R.inputs t) (OfVisits (R.expected t)) g h m n t u }
    ensures games { (a : Adversary) (g h : Setting) (m n : Mode) (x y : Tree) (t u : Tape) →
        IsGameSimulation (R.memories t) (R.inputs t) (R.expected t) a g h m n x y t u →
        IsMomentGameSimulation (R.memories t) (R.inputs t) (OfVisits (R.expected t))
        a g h m n x y t u }
{}

/// Where each test of the run in one mode would tell the same in another, the run in the other mode is
/// the same, with the same moments. So each run simulates itself, moment by moment.
pub fn tests_that_tell_the_same_keep_runs()
    ensures simulation { (a : Adversary) (g : Setting) (m n : Mode) (game : Tree) (t : Tape) →
        AllByRecursion (TellsTheSame m n t) (moments_of_run g m a game t) →
        IsMomentGameSimulation AreEqual AreEqual (TellsTheSame m n t) a g g m n game game t t }
    ensures visits { (g : Setting) (m n : Mode) (t : Tape) →
        AreVisitedAlike AreEqual AreEqual AreEqual (TellsTheSame m n t) g g t t }
    ensures states { (a : Adversary) (g : Setting) (m n : Mode) (game : Tree) (t : Tape) →
        AllByRecursion (TellsTheSame m n t) (moments_of_run g m a game t) →
        run g m a game t ≡ run g n a game t }
    ensures moments { (a : Adversary) (g : Setting) (m n : Mode) (game : Tree) (t : Tape) →
        AllByRecursion (TellsTheSame m n t) (moments_of_run g m a game t) →
        moments_of_run g m a game t ≡ moments_of_run g n a game t }
    ensures itself { (a : Adversary) (g : Setting) (m : Mode) (game : Tree) (t : Tape) →
        IsMomentGameSimulation AreEqual AreEqual (TellsTheSame m m t) a g g m m game game t t }
{}
