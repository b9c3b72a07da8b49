// The cryptographic step: its conditions, and the games that it leads to.
pub mod reductions;

ghost use Rattle.std.specs.Prelude.{◌≡◌, ℕ, List, [], None, Option, Some, false, true};
ghost use Rattle.cv_syntax_trees.specs.Declarations.{Declaration};
ghost use Rattle.cv_syntax_trees.specs.Tree.{Tree};
ghost use Rattle.cv_typing_runs.specs.Games.{HasDeclaredSorts};
ghost use Rattle.cv_typing_runs.specs.Worked.{declared, found_game};
ghost use Rattle.cv_scene.specs.Scenes.{Scene};
ghost use Rattle.cv_steps_laws.specs.crypto.Conditions.{equivalence_of, failure_of};
ghost use Rattle.cv_steps_laws.specs.crypto.Sorts.{has_declared_sorts};
ghost use Rattle.cv_steps_laws.specs.crypto.Steps.{Accepted, IsNextGame, IsOutcome, is_next, reduction_of};

/// A game whose types and parameters pass the test has declared ones.
pub fn declared_sorts_are_decided()
    ensures { (ds : List Declaration) (game : Tree) → has_declared_sorts ds game ≡ true
        → HasDeclaredSorts ds game }
{}

/// An accepted step fails no condition, and leads to a next game of its reduction, which is a game.
pub fn accepted_steps_lead_to_next_games()
    ensures failure { (s : Scene) (e x : ℕ) (next : Tree) → IsOutcome s e x (Accepted next)
        → failure_of s e x ≡ None }
    ensures drawn { (s : Scene) (e x : ℕ) (next t : Tree) → IsOutcome s e x (Accepted next)
        → equivalence_of s e ≡ Some t → IsNextGame (reduction_of s t x) next }
    ensures game { (s : Scene) (e x : ℕ) (next : Tree) → IsOutcome s e x (Accepted next)
        → is_next s.declarations next ≡ true }
{}

/// A game of a replicated nonce passes with the declarations of its file, and not without them.
pub fn worked_sorts()
    ensures declared { has_declared_sorts declared found_game ≡ true }
    ensures undeclared { has_declared_sorts [] found_game ≡ false }
{}
