// Laws of contexts with the right side: their shape and their visits are as the laws of next games expect.

ghost use Rattle.std.specs.Prelude.{◌≡◌, List, [], true};
ghost use Rattle.std.specs.List.{AllByRecursion};
ghost use Rattle.cv_syntax_trees.specs.Declarations.{Declaration};
ghost use Rattle.cv_syntax_trees.specs.Tree.{Tree};
ghost use Rattle.cv_meaning.specs.Experiments.{visits_of_run};
ghost use Rattle.cv_meaning.specs.Runs.{Adversary, Mode};
ghost use Rattle.cv_scope_rules.specs.Phrases.{HasConstantsOf, IsWellFormedContext};
ghost use Rattle.cv_scene.specs.Apt.{IsAptGame};
ghost use Rattle.cv_scene.specs.Reductions.{Reduction, context_of_game, matching};
ghost use Rattle.cv_inline_laws.specs.runs.Contexts.{
  AreFineInputs,
  IsExpected,
  IsTextOf,
  context_setting,
};
ghost use Rattle.cv_inline_laws.specs.runs.Texts.{Text};
ghost use Rattle.cv_context_runs.specs.visits.CallTexts.{HasCallTexts};
ghost use Rattle.cv_context_runs.specs.visits.Fine.{HasRolesOf, has_free_indices};
ghost use Rattle.cv_context_runs.specs.visits.Follows.{IsFollowed, IsFollowedBy};

/// In each run of a well-formed context with the right side, whose calls have such texts, each visit is as is
/// expected: what it assigns was not assigned before, and a call comes with a key that is chosen and whose
/// terms keep their values.
pub fn visits_of_a_context_are_as_expected()
    ensures { (ds : List Declaration) (T : Text) (m : Mode) (a : Adversary) (context : Tree) →
        HasConstantsOf ds (context_setting T) → IsWellFormedContext ds context →
        HasCallTexts T [] context →
        AllByRecursion (IsExpected T)
        (visits_of_run (context_setting T) m a context T.side_tape) }
{}

/// The context of an apt game has the shape that a next game can follow, where no instance stands in an index:
/// its terms read the game's variables at indices and variables, and answers at the current indices, behind
/// the calls that give them.
pub fn contexts_of_apt_games_are_fine()
    ensures { (T : Text) (r : Reduction) → IsAptGame r → T.calls.key ≡ r.key →
        HasRolesOf T r r.scene.game → has_free_indices (matching r) r.scene.game ≡ true →
        HasCallTexts T [] (context_of_game r).game → AreFineInputs T (context_of_game r).game }
{}

/// So such a context is what the law of runs asks for: it runs as its next game.
pub fn contexts_of_apt_games_are_texts()
    ensures { (T : Text) (r : Reduction) (m : Mode) (a : Adversary) → IsFollowed T r →
        IsFollowedBy T m a → IsTextOf T m a (context_of_game r).game }
{}
