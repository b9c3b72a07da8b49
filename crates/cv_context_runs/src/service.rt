// Laws of contexts with the left side: they are served as their games, with cells of the tape swapped.

ghost use Rattle.std.specs.Prelude.{◌≡◌};
ghost use Rattle.cv_meaning.specs.Advantage.{chance_of};
ghost use Rattle.cv_meaning.specs.Cells.{cells};
ghost use Rattle.cv_meaning.specs.Chances.{Same};
ghost use Rattle.cv_meaning.specs.Experiments.{Experiment, holds_on, mode_of};
ghost use Rattle.cv_meaning.specs.Interpretation.{Interpretation};
ghost use Rattle.cv_meaning.specs.Runs.{Adversary};
ghost use Rattle.cv_meaning.specs.Tapes.{Cell, Tape};
ghost use Rattle.cv_meaning_chances.specs.Tests.{IsCoveredFor, IsOneToOne, renamed};
ghost use Rattle.cv_meaning.specs.contexts.ContextAdvantage.{context_chance};
ghost use Rattle.cv_meaning.specs.contexts.Groups.{Left};
ghost use Rattle.cv_scene.specs.Apt.{IsAptGame, IsTestApt};
ghost use Rattle.cv_scene.specs.Cells.{at_left};
ghost use Rattle.cv_scene.specs.Reductions.{Reduction, context_of_game, in_context, in_game};

/// The cells of the key and of coins are swapped with those of the calls, each with one other.
pub fn cells_are_swapped()
    ensures back { (r : Reduction) (c : Cell) → at_left r (at_left r c) ≡ c }
    ensures one_to_one { (r : Reduction) → IsOneToOne (at_left r) }
{}

/// Where a game is apt, its context with the left side runs on each tape as the game runs on the tape whose
/// cells are swapped: each experiment that tests no key, coin or answer holds in both or in none. So both
/// have one chance, where the list of cells of each covers that of the other.
pub fn contexts_are_served_as_their_games()
    ensures tests { (r : Reduction) (i : Interpretation) (x : Experiment) (a : Adversary)
        (t : Tape) → IsAptGame r → IsTestApt r (mode_of x) →
        holds_on (in_game r i) x a r.scene.game (λ c. t (at_left r c))
        ≡ holds_on (in_context r i) x a (context_of_game r).game t }
    ensures chances { (r : Reduction) (i : Interpretation) (x : Experiment) (a : Adversary) →
        IsAptGame r → IsTestApt r (mode_of x) →
        IsCoveredFor (holds_on (in_context r i) x a (context_of_game r).game)
        (renamed (at_left r) (cells (in_game r i) (mode_of x) a r.scene.game))
        (cells (in_context r i) (mode_of x) a (context_of_game r).game) →
        IsCoveredFor (holds_on (in_context r i) x a (context_of_game r).game)
        (cells (in_context r i) (mode_of x) a (context_of_game r).game)
        (renamed (at_left r) (cells (in_game r i) (mode_of x) a r.scene.game)) →
        Same (chance_of (in_game r i) x a r.scene.game)
        (context_chance r.scene.declarations i (context_of_game r) Left x a) }
{}
