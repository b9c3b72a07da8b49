// When games have equal chances: where they are served construct by construct alike, where cells of the
// tape get other names, and where the lists of cells differ.

ghost use Rattle.std.specs.Prelude.{◌≡◌, ℕ, true};
ghost use Rattle.std.specs.List.{AllByRecursion};
ghost use Rattle.cv_syntax_trees.specs.Tree.{Tree};
ghost use Rattle.cv_meaning.specs.Tapes.{Cell, Tape};
ghost use Rattle.cv_meaning.specs.Interpretation.{Setting};
ghost use Rattle.cv_meaning.specs.Memory.{Local, Memory};
ghost use Rattle.cv_meaning.specs.Inputs.{Input};
ghost use Rattle.cv_meaning.specs.Serving.{Visit};
ghost use Rattle.cv_meaning.specs.Runs.{Adversary, Mode};
ghost use Rattle.cv_meaning.specs.Cells.{cells};
ghost use Rattle.cv_meaning.specs.Experiments.{Experiment, holds_on, mode_of};
ghost use Rattle.cv_meaning.specs.Chances.{Same};
ghost use Rattle.cv_meaning.specs.Advantage.{chance_of};
ghost use Rattle.cv_meaning_chances.specs.Tests.{
  HasSizes,
  HasValues,
  IgnoresOthers,
  IsCoveredFor,
  IsOneToOne,
  IsWithin,
  renamed,
};
ghost use Rattle.cv_meaning_runs.specs.Agreement.{IsLocal};
ghost use Rattle.cv_meaning_runs.specs.Listed.{AreKeysListed, IsTestable, has_no_calls};
ghost use Rattle.cv_meaning_runs.specs.Simulation.{
  AreServedAlike,
  HoldAlike,
  IsGameSimulation,
  IsSimulation,
};
ghost use Rattle.cv_meaning_chances.specs.alignment.Points.{Point, serve_at, visits_at};
ghost use Rattle.cv_meaning_chances.specs.alignment.Alignment.{AreBegun, IsAligned};

use cv_meaning_runs::RunRelation;

/// How two games are served alike: their memories between services, their inputs, the points and states
/// of two services, and what is expected of the visits of the first, at a tape of the first run.
pub trait Alignment {
    ghost memories: { Tape → Memory → Memory → Type 0 };

    ghost inputs: { Tape → Input → Input → Type 0 };

    ghost points: { Tape → Point → Point → Local → Local → Type 0 };

    ghost expected: { Tape → Visit → Type 0 };
}

/// Services that go on from points that are alike to points that are alike, one or both of them at a time,
/// are alike. So two games of which this holds simulate each other.
pub fn aligned_games_are_alike<R: Alignment>()
    ensures services { (g h : Setting) (t u : Tape) →
        IsAligned (R.memories t) (R.inputs t) (R.points t) (R.expected t) g h t u →
        (p q : Point) (r s : Local) → R.points t p q r s →
        AllByRecursion (R.expected t) (visits_at g t p r) →
        AreServedAlike (R.memories t) (R.inputs t) (serve_at g t p r) (serve_at h u q s) }
    ensures runs { (g h : Setting) (m n : Mode) (t u : Tape) →
        IsAligned (R.memories t) (R.inputs t) (R.points t) (R.expected t) g h t u →
        AreBegun (R.memories t) (R.inputs t) (R.points t) g h m n t u →
        IsSimulation (R.memories t) (R.inputs t) (R.expected t) g h m n t u }
{}

/// Two runs that are alike, where the first reads its cells under other names, end in experiments that hold
/// alike: so the chances are equal where the test ignores each cell that one of the lists lacks. The
/// relations are those at a tape of the second run.
pub fn alike_runs_have_equal_chances<R: RunRelation>()
    ensures tests { (g h : Setting) (x y : Experiment) (a : Adversary) (name : Cell → Cell)
        (p q : Tree) (t : Tape) → HoldAlike (R.memories t) (R.inputs t) g h x y →
        IsGameSimulation (R.memories t) (R.inputs t) (R.expected t) a g h
        (mode_of x) (mode_of y) p q (λ c. t (name c)) t →
        holds_on g x a p (λ c. t (name c)) ≡ holds_on h y a q t }
    ensures chances { (g h : Setting) (x y : Experiment) (a : Adversary) (name : Cell → Cell)
        (p q : Tree) → IsOneToOne name →
        ((t : Tape) → HoldAlike (R.memories t) (R.inputs t) g h x y) →
        ((t : Tape) → IsGameSimulation (R.memories t) (R.inputs t) (R.expected t) a g h
        (mode_of x) (mode_of y) p q (λ c. t (name c)) t) →
        IsCoveredFor (holds_on h y a q) (renamed name (cells g (mode_of x) a p))
        (cells h (mode_of y) a q) →
        IsCoveredFor (holds_on h y a q) (cells h (mode_of y) a q)
        (renamed name (cells g (mode_of x) a p)) →
        Same (chance_of g x a p) (chance_of h y a q) }
{}

/// Two experiments that hold alike have equal chances: on every tape, where the first reads its cells under
/// other names; or on the tapes within both lists of cells, where each ignores the cells outside its own.
pub fn like_experiments_have_equal_chances()
    ensures names { (g h : Setting) (x y : Experiment) (a : Adversary) (name : Cell → Cell)
        (p q : Tree) → IsOneToOne name →
        ((t : Tape) → holds_on g x a p (λ c. t (name c)) ≡ holds_on h y a q t) →
        IsCoveredFor (holds_on h y a q) (renamed name (cells g (mode_of x) a p))
        (cells h (mode_of y) a q) →
        IsCoveredFor (holds_on h y a q) (cells h (mode_of y) a q)
        (renamed name (cells g (mode_of x) a p)) →
        Same (chance_of g x a p) (chance_of h y a q) }
    ensures within { (g h : Setting) (x y : Experiment) (a : Adversary) (size : Cell → ℕ)
        (p q : Tree) →
        HasSizes size (cells g (mode_of x) a p) → HasSizes size (cells h (mode_of y) a q) →
        HasValues (cells g (mode_of x) a p) → HasValues (cells h (mode_of y) a q) →
        IgnoresOthers (holds_on g x a p) (cells g (mode_of x) a p) →
        IgnoresOthers (holds_on h y a q) (cells h (mode_of y) a q) →
        ((t : Tape) → IsWithin (cells g (mode_of x) a p) t →
        IsWithin (cells h (mode_of y) a q) t → holds_on g x a p t ≡ holds_on h y a q t) →
        Same (chance_of g x a p) (chance_of h y a q) }
{}

/// An experiment ignores each cell that isn't in its list, where the keys that its runs consult are listed,
/// as in a game without calls.
pub fn experiments_ignore_other_cells()
    ensures listed { (g : Setting) (x : Experiment) (a : Adversary) (game : Tree) →
        IsLocal g.side → IsTestable (mode_of x) game →
        ((t : Tape) → AreKeysListed g (mode_of x) a game t) →
        IgnoresOthers (holds_on g x a game) (cells g (mode_of x) a game) }
    ensures games { (g : Setting) (x : Experiment) (a : Adversary) (game : Tree) →
        IsLocal g.side → IsTestable (mode_of x) game → has_no_calls game ≡ true →
        IgnoresOthers (holds_on g x a game) (cells g (mode_of x) a game) }
{}
