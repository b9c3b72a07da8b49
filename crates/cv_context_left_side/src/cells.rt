// The law of the left side: a game has the chances of its context, where the left side answers the calls.

ghost use Rattle.cv_meaning.specs.Advantage.{chance_of};
ghost use Rattle.cv_meaning.specs.Cells.{cells};
ghost use Rattle.cv_meaning.specs.Chances.{Same};
ghost use Rattle.cv_meaning.specs.Experiments.{Experiment, holds_on, mode_of};
ghost use Rattle.cv_meaning.specs.Interpretation.{Interpretation};
ghost use Rattle.cv_meaning.specs.Runs.{Adversary};
ghost use Rattle.cv_meaning_chances.specs.Tests.{renamed};
ghost use Rattle.cv_meaning.specs.contexts.ContextAdvantage.{context_chance};
ghost use Rattle.cv_meaning.specs.contexts.Groups.{Left};
ghost use Rattle.cv_meaning_chances.specs.unread.Sizes.{GiveSizesFor};
ghost use Rattle.cv_scene.specs.Apt.{IsTestApt};
ghost use Rattle.cv_scene.specs.Cells.{at_left};
ghost use Rattle.cv_scene.specs.Reductions.{Reduction, context_of_game, in_context, in_game};
ghost use Rattle.cv_context_left_side.specs.cells.Premises.{HasContext};

/// Each experiment that tests no key, coin or answer has one chance in a game and in its context with the left
/// side. The two lists of cells give each cell one size, where cells of the key and of coins are swapped with
/// those of the calls, but for cells that the experiment ignores.
pub fn left_sides_have_equal_chances()
    ensures sizes { (r : Reduction) (i : Interpretation) (x : Experiment) (a : Adversary) →
        HasContext r → IsTestApt r (mode_of x) →
        GiveSizesFor (holds_on (in_context r i) x a (context_of_game r).game)
        (renamed (at_left r) (cells (in_game r i) (mode_of x) a r.scene.game))
        (cells (in_context r i) (mode_of x) a (context_of_game r).game) }
    ensures chances { (r : Reduction) (i : Interpretation) (x : Experiment) (a : Adversary) →
        HasContext r → IsTestApt r (mode_of x) →
        Same (chance_of (in_game r i) x a r.scene.game)
        (context_chance r.scene.declarations i (context_of_game r) Left x a) }
{}
