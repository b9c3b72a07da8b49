// Laws of steps: each step that is accepted keeps the chance of every experiment for which a query asks.
#![tactic(auto)]

pub mod chances;
pub mod crypto;
pub mod renaming;

ghost use Rattle.std.specs.Prelude.{◌≡◌, ℕ, Bool, true};
ghost use Rattle.std.specs.List.{AllByRecursion};
ghost use Rattle.cv_syntax_trees.specs.Tree.{Tree};
ghost use Rattle.cv_meaning_runs.specs.Replacement.{IsReplaced, Process};
ghost use Rattle.cv_meaning.specs.Replaced.{is_output};
ghost use Rattle.cv_meaning_chances.specs.unread.Dropping.{IsDropped, reads_none};
ghost use Rattle.cv_scope_rules.specs.typing.Parts.{IsTypedGame};
ghost use Rattle.cv_scope_rules.specs.Phrases.{Inputs, IsWellFormed, Term, is_phrase};
ghost use Rattle.cv_typing_runs.specs.Games.{HasConstants, HasKnownNames, HasNamedFunctionsAndCells};
ghost use Rattle.cv_scene.specs.Pruning.{Part};
ghost use Rattle.cv_scene.specs.Scenes.{KnowsQueries, Scene, part_at};
ghost use Rattle.cv_steps.specs.Steps.{Cost, Leads, Step, Zero};
ghost use Rattle.cv_steps.specs.Elementary.{
  let_step,
  new_step,
  prune_step,
  rename_step,
  rewrite_step,
  split_step,
  unlet_step,
  unnew_step,
};
ghost use Rattle.cv_steps.specs.Changes.{change_at, without};
ghost use Rattle.cv_steps.specs.Rows.{let_row, new_row, split_row, unnew_row};
ghost use Rattle.cv_steps.specs.Judgements.{Accepted, Refused, judgement_of};
ghost use Rattle.cv_steps.specs.Chances.{KeepsChances};
ghost use Rattle.cv_steps_laws.specs.Keeping.{KeepsDeclaredSorts};
ghost use Rattle.cv_steps_laws.specs.Worked.{asked, cases, more, plain, renames, unlets};

/// A process may be divided by a condition, whatever the condition says.
pub fn splitting_keeps_chances()
    ensures { (s : Scene) (place : ℕ) (condition next : Tree) (cost : Cost) →
        IsWellFormed s.declarations s.game → is_phrase Term condition ≡ true →
        split_row s place condition ≡ Leads next cost →
        KeepsChances s.declarations s.game next }
{}

/// A new variable may be assigned before a process.
pub fn assigning_keeps_chances()
    ensures { (s : Scene) (place x T : ℕ) (term next : Tree) (cost : Cost) →
        IsWellFormed s.declarations s.game → KnowsQueries s → is_phrase Term term ≡ true →
        let_row s place x T term ≡ Leads next cost → KeepsChances s.declarations s.game next }
{}

/// A new variable may be chosen before a process.
pub fn choosing_keeps_chances()
    ensures { (s : Scene) (place x T : ℕ) (next : Tree) (cost : Cost) →
        IsWellFormed s.declarations s.game → KnowsQueries s →
        new_row s place x T ≡ Leads next cost → KeepsChances s.declarations s.game next }
{}

/// A variable that is chosen, read nowhere and asked for by no query may go.
pub fn unread_choices_may_go()
    ensures { (s : Scene) (x : ℕ) (next : Tree) (cost : Cost) →
        IsWellFormed s.declarations s.game → unnew_row s x ≡ Leads next cost →
        KeepsChances s.declarations s.game next }
{}

/// An accepted step leads to a game with what the laws of runs ask for: it is well-formed and typed, and its
/// names are known.
pub fn accepted_steps_lead_to_games()
    ensures well_formed { (s : Scene) (step : Step) (next : Tree) (cost : Cost) →
        judgement_of s step ≡ Accepted next cost → IsWellFormed s.declarations next }
    ensures typed { (s : Scene) (step : Step) (next : Tree) (cost : Cost) →
        judgement_of s step ≡ Accepted next cost → IsTypedGame s.declarations next }
    ensures cells { (s : Scene) (step : Step) (next : Tree) (cost : Cost) →
        judgement_of s step ≡ Accepted next cost → HasNamedFunctionsAndCells s.declarations next }
    ensures names { (s : Scene) (step : Step) (next : Tree) (cost : Cost) →
        HasConstants s.declarations → judgement_of s step ≡ Accepted next cost →
        HasKnownNames s.declarations next }
{}

/// Where the types and parameters of a game are declared, so are those of the next, by each of the eight
/// elementary steps.
pub fn elementary_steps_keep_declared_sorts()
    ensures split_step { (p : ℕ) (m : Tree) → KeepsDeclaredSorts (split_step p m) }
    ensures let_step { (p x T : ℕ) (m : Tree) → KeepsDeclaredSorts (let_step p x T m) }
    ensures new_step { (p x T : ℕ) → KeepsDeclaredSorts (new_step p x T) }
    ensures unnew_step { (x : ℕ) → KeepsDeclaredSorts (unnew_step x) }
    ensures rename_step { (x y : ℕ) → KeepsDeclaredSorts (rename_step x y) }
    ensures unlet_step { (x : ℕ) → KeepsDeclaredSorts (unlet_step x) }
    ensures rewrite_step { (p : ℕ) (m by : Tree) → KeepsDeclaredSorts (rewrite_step p m by) }
    ensures prune_step { (p : ℕ) (part : Part) (by : Tree) →
        KeepsDeclaredSorts (prune_step p part by) }
{}

/// In a well-formed game a service may come to each output process, so it can be changed by its place; and a
/// well-formed game without definitions of variables that it reads nowhere serves as the game does
/// (`unread_definitions_may_go`), and is in the grammar.
pub fn changes_of_games()
    ensures placed { (game : Tree) (place : ℕ) (change : Tree → Tree) →
        is_phrase Inputs game ≡ true → is_output (part_at game place) ≡ true →
        IsReplaced (part_at game place) (change (part_at game place)) place Process 0
        game (change_at game place change) }
    ensures without { (xs : ℕ → Bool) (game : Tree) → is_phrase Inputs game ≡ true →
        reads_none xs game ≡ true → IsDropped xs Process game (without xs game) }
    ensures phrase { (xs : ℕ → Bool) (game : Tree) → is_phrase Inputs game ≡ true →
        is_phrase Inputs (without xs game) ≡ true }
{}

/// What is said of steps in a small game, which is well-formed: each is accepted somewhere, and each of its
/// conditions fails somewhere. A nonce that a query asks for is not dropped, and one that was put there is. So
/// it is with an assignment, also below a replication, in games that are well-formed too, and with a variable
/// that gets another name.
pub fn worked_steps()
    ensures game { IsWellFormed plain.declarations plain.game }
    ensures cases { AllByRecursion (λ c. judgement_of plain c.0 ≡ c.1) cases }
    ensures asked { judgement_of asked (unnew_step 4) ≡ Refused 2 0 }
    ensures knows { KnowsQueries asked }
    ensures back { judgement_of more (unnew_step 11) ≡ Accepted plain.game Zero }
    ensures assigned { AllByRecursion (λ c. IsWellFormed c.0.declarations c.0.game) unlets }
    ensures unlets { AllByRecursion (λ c. judgement_of c.0 (unlet_step 11) ≡ c.1) unlets }
    ensures renamed { AllByRecursion (λ c. IsWellFormed c.0.declarations c.0.game) renames }
    ensures renames { AllByRecursion (λ c. judgement_of c.0 (rename_step 11 12) ≡ c.1) renames }
{}
