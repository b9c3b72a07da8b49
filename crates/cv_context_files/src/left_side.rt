// The law of the left side for games of accepted files: such a game is its context with the left side.

ghost use Rattle.cv_meaning.specs.Advantage.{IsAsked, chance_of};
ghost use Rattle.cv_meaning.specs.Chances.{Same};
ghost use Rattle.cv_meaning.specs.Experiments.{Experiment};
ghost use Rattle.cv_meaning.specs.Interpretation.{Interpretation};
ghost use Rattle.cv_meaning.specs.Runs.{Adversary};
ghost use Rattle.cv_meaning.specs.contexts.ContextAdvantage.{context_chance};
ghost use Rattle.cv_meaning.specs.contexts.Groups.{Left};
ghost use Rattle.cv_meaning.specs.Queries.{queries_in};
ghost use Rattle.cv_typing_runs.specs.Games.{HasArguments};
ghost use Rattle.cv_scene.specs.Reductions.{Reduction, context_of_game, in_game};
ghost use Rattle.cv_context_left_side.specs.refusals.Reducible.{IsReducible};

/// Where nothing refuses a game for an equivalence and a key, each experiment for which a query of the file asks has
/// one chance in the game and in its context with the left side, for every interpretation and adversary.
pub fn left_side_equality()
    ensures { (r : Reduction) (i : Interpretation) (x : Experiment) (a : Adversary) →
        IsReducible r → HasArguments r.scene.declarations →
        IsAsked (queries_in r.scene.declarations) x →
        Same (chance_of (in_game r i) x a r.scene.game)
        (context_chance r.scene.declarations i (context_of_game r) Left x a) }
{}
