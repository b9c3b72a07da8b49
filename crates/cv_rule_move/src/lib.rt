// The rules `move`, where a definition goes below the construct behind it, and `merge`, where a construct whose bodies are all equal becomes
// its body. Its row, its law and its plan.
#![tactic(auto)]

ghost use Rattle.std.specs.Prelude.{◌≡◌, ℕ, true};
ghost use Rattle.std.specs.List.{AllByRecursion};
ghost use Rattle.cv_syntax_trees.specs.Tree.{Tree};
ghost use Rattle.cv_scope_rules.specs.Phrases.{Inputs, IsWellFormed, is_phrase};
ghost use Rattle.cv_typing_runs.specs.Games.{HasDeclaredSorts};
ghost use Rattle.cv_scene.specs.Scenes.{Scene};
ghost use Rattle.cv_steps.specs.Steps.{Cost, Leads};
ghost use Rattle.cv_steps.specs.Judgements.{judgement_of_row};
ghost use Rattle.cv_steps.specs.Chances.{KeepsChances};
ghost use Rattle.cv_derive_laws.specs.stores.Steps.{IsSound};
ghost use Rattle.cv_rule_move.specs.Rows.{move_row};
ghost use Rattle.cv_rule_move.specs.Steps.{move_step};
ghost use Rattle.cv_rule_move.specs.Worked.{moves};

mod bodies;
pub mod merge;
mod naming;
mod planning;

pub use planning::plan;

/// A `new` or a `let` may move below the construct behind it, into each of its bodies, where that construct
/// names the variable in its bodies alone: it takes the same body, and what is defined there has the same
/// value, since a value that is read was assigned before.
pub fn moving_keeps_chances()
    ensures { (s : Scene) (place : ℕ) (next : Tree) (cost : Cost) →
        IsWellFormed s.declarations s.game → move_row s place ≡ Leads next cost →
        KeepsChances s.declarations s.game next }
{}

/// The game that a move leads to names no types and parameters but those of the game before.
pub fn moving_keeps_declared_sorts()
    ensures { (s : Scene) (place : ℕ) (next : Tree) (cost : Cost) →
        is_phrase Inputs s.game ≡ true → HasDeclaredSorts s.declarations s.game →
        move_row s place ≡ Leads next cost → HasDeclaredSorts s.declarations next }
{}

/// So a move is sound: it keeps chances, declared types and parameters, values of choices and tests, and binds no
/// new index.
pub fn moving_is_sound()
    ensures { (place : ℕ) → IsSound (move_step place) }
{}

/// What is said of moves in small games: a definition moves below another one, an event, an `if` and a
/// `find`, and each condition fails somewhere.
pub fn worked_moves()
    ensures { AllByRecursion (λ c. judgement_of_row c.0 (move_row c.0 c.1) ≡ c.2) moves }
{}
