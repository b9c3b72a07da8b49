// The law of games in which each choice and each test has a value.

ghost use Rattle.cv_syntax_trees.specs.Tree.{Tree};
ghost use Rattle.cv_meaning.specs.Interpretation.{Setting};
ghost use Rattle.cv_meaning.specs.Runs.{Adversary, Mode};
ghost use Rattle.cv_meaning.specs.Cells.{cells};
ghost use Rattle.cv_meaning.specs.Experiments.{Experiment, mode_of};
ghost use Rattle.cv_meaning.specs.Advantage.{chance_of};
ghost use Rattle.cv_meaning_chances.specs.Tests.{HasValues};
ghost use Rattle.cv_meaning_chances.specs.Fractions.{HasTapes};
ghost use Rattle.cv_meaning_chances.specs.values.Values.{HasValuesIn};

/// Where each choice of a game has a value, and each test that an experiment makes, each listed cell of the
/// experiment has one, and its chance has tapes. The index of a `find` that isn't tested needs none.
pub fn games_with_values_have_tapes()
    ensures cells { (g : Setting) (m : Mode) (a : Adversary) (game : Tree) →
        HasValuesIn g m game → HasValues (cells g m a game) }
    ensures chance { (g : Setting) (x : Experiment) (a : Adversary) (game : Tree) →
        HasValuesIn g (mode_of x) game → HasTapes (chance_of g x a game) }
{}
