// The law of the right side for games: the context of a game with the right side is its next game.
#![tactic(auto)]

pub mod queries;
pub mod texts;
pub mod worked;

ghost use Rattle.std.specs.Prelude.{◌≡◌, ℕ, List, []};
ghost use Rattle.cv_meaning.specs.Advantage.{IsAsked, chance_of};
ghost use Rattle.cv_meaning.specs.Chances.{AtMost, Same, distance};
ghost use Rattle.cv_meaning.specs.Experiments.{Experiment, mode_of};
ghost use Rattle.cv_meaning.specs.Interpretation.{Interpretation, setting_of};
ghost use Rattle.cv_meaning.specs.Runs.{Adversary};
ghost use Rattle.cv_meaning.specs.Tapes.{Tape, blank};
ghost use Rattle.cv_meaning.specs.contexts.ContextAdvantage.{context_advantage, context_chance};
ghost use Rattle.cv_meaning.specs.contexts.Groups.{Right};
ghost use Rattle.cv_meaning.specs.Queries.{queries_in};
ghost use Rattle.cv_typing_runs.specs.Games.{HasArguments};
ghost use Rattle.cv_scene.specs.Reductions.{Reduction, context_of_game, in_game};
ghost use Rattle.cv_context_left_side.specs.refusals.Reducible.{IsReducible};
ghost use Rattle.cv_inline.specs.NextGame.{next_of};
ghost use Rattle.cv_inline_laws.specs.draws.DrawnNames.{drawn_in};
ghost use Rattle.cv_inline_laws.specs.runs.Contexts.{IsAskedAlike};
ghost use Rattle.cv_context_runs.specs.visits.CallTexts.{HasCallTexts};
ghost use Rattle.cv_inline_names_laws.specs.drawn.Named.{NamedContext, named_on_tape, names_of, text_of};
ghost use Rattle.cv_match_laws.specs.answers.Drawn.{AreDrawnFor, next_game};
ghost use Rattle.cv_context_laws.specs.types.Typed.{variable_type};
ghost use Rattle.cv_context_right_side.specs.Right.{IsNamedFor, IsRightGame, IsStepOfFile};

/// Where names are drawn for the context of an apt game, for an accepted equivalence in the grammar of files, each
/// call of the context has its text on each tape: it is found by number, its key is read at indices and variables of
/// the game, and the right body of its site's function can stand there.
pub fn contexts_have_call_texts()
    ensures { (r : Reduction) (c : NamedContext) → IsNamedFor r c → (tape : Tape) →
        HasCallTexts (named_on_tape c tape) [] c.context.game }
{}

/// So the context of such a game with the right side has the chance of its next game, for each experiment that
/// tests a variable of the game, if any, and each adversary.
pub fn right_side_equality()
    ensures { (r : Reduction) (c : NamedContext) (types : ℕ → ℕ) (i : Interpretation)
        (x : Experiment) (a : Adversary) → IsRightGame r c types →
        c.g ≡ setting_of r.scene.declarations i →
        IsAskedAlike (text_of c blank blank) (mode_of x) →
        Same (context_chance r.scene.declarations i (context_of_game r) Right x a)
        (chance_of (setting_of r.scene.declarations i) x a
        (next_of (context_of_game r) r.key (drawn_in (names_of c)))) }
{}

/// So no adversary tells a game that nothing refuses from its next game, in an experiment for which a query of the
/// file asks, by more than the advantage of the game's context in telling the two sides apart.
pub fn reductions_cost_the_advantage()
    ensures { (r : Reduction) (c : NamedContext) (types : ℕ → ℕ) (i : Interpretation)
        (x : Experiment) (a : Adversary) → IsReducible r → HasArguments r.scene.declarations →
        IsRightGame r c types → c.g ≡ setting_of r.scene.declarations i →
        IsAsked (queries_in r.scene.declarations) x →
        IsAskedAlike (text_of c blank blank) (mode_of x) →
        AtMost (distance (chance_of (in_game r i) x a r.scene.game)
        (chance_of (setting_of r.scene.declarations i) x a
        (next_of (context_of_game r) r.key (drawn_in (names_of c)))))
        (context_advantage r.scene.declarations i (context_of_game r) x a) }
{}

/// Where an accepted file and the conditions of the step give a game, an equivalence and a key, the names and labels
/// that are drawn for its next game make its context a right game.
pub fn drawn_names_make_right_games()
    ensures { (r : Reduction) (names labels : List ℕ) (i : Interpretation) → IsStepOfFile r →
        AreDrawnFor r names labels → (c : NamedContext)
        × IsRightGame r c (variable_type r.scene.game)
        × (c.g ≡ setting_of r.scene.declarations i)
        × (next_of (context_of_game r) r.key (drawn_in (names_of c)) ≡ next_game r names labels) }
{}

/// So no adversary tells the game from its next game, in an experiment for which a query of the file asks, by more
/// than the advantage of the game's context.
pub fn next_games_cost_the_advantage()
    ensures { (r : Reduction) (names labels : List ℕ) (i : Interpretation) (x : Experiment)
        (a : Adversary) → IsStepOfFile r → AreDrawnFor r names labels →
        IsAsked (queries_in r.scene.declarations) x →
        AtMost (distance (chance_of (setting_of r.scene.declarations i) x a r.scene.game)
        (chance_of (setting_of r.scene.declarations i) x a (next_game r names labels)))
        (context_advantage r.scene.declarations i (context_of_game r) x a) }
{}
