// The law of what each construct of a run keeps.

ghost use Rattle.std.specs.List.{AllByRecursion};
ghost use Rattle.cv_syntax_trees.specs.Tree.{Tree};
ghost use Rattle.cv_meaning.specs.Tapes.{Tape};
ghost use Rattle.cv_meaning.specs.Interpretation.{Setting};
ghost use Rattle.cv_meaning.specs.Memory.{Local, Memory};
ghost use Rattle.cv_meaning.specs.Inputs.{Input};
ghost use Rattle.cv_meaning.specs.Runs.{Adversary, Mode};
ghost use Rattle.cv_meaning.specs.Experiments.{run, visits_of_run};
ghost use Rattle.cv_meaning_chances.specs.alignment.Points.{Point};
ghost use Rattle.cv_rule_codef.specs.kept.Kept.{HasIt, IsKept};

/// A fact of memories between services, one of available inputs, and one of points and states, at a tape.
pub trait Kept {
    ghost memories: { Tape → Memory → Type 0 };

    ghost inputs: { Tape → Input → Type 0 };

    ghost points: { Tape → Point → Local → Type 0 };
}

/// What a run begins with and each construct keeps holds at each visit, and at the end.
pub fn kept_facts_hold_at_visits<R: Kept>()
    ensures visits { (g : Setting) (m : Mode) (a : Adversary) (game : Tree) (t : Tape) →
        IsKept (R.memories t) (R.inputs t) (R.points t) g t game →
        AllByRecursion (HasIt (R.points t)) (visits_of_run g m a game t) }
    ensures last { (g : Setting) (m : Mode) (a : Adversary) (game : Tree) (t : Tape) →
        IsKept (R.memories t) (R.inputs t) (R.points t) g t game →
        R.memories t (run g m a game t).memory }
{}
