// Derivations hold at the places that a run visits.

ghost use Rattle.std.specs.Prelude.{ℕ, List};
ghost use Rattle.std.specs.List.{All, AllByRecursion};
ghost use Rattle.cv_syntax_trees.specs.Declarations.{Declaration};
ghost use Rattle.cv_syntax_trees.specs.Tree.{Tree};
ghost use Rattle.cv_meaning.specs.Tapes.{blank};
ghost use Rattle.cv_meaning.specs.Interpretation.{Interpretation, setting_of};
ghost use Rattle.cv_meaning.specs.Cells.{cells};
ghost use Rattle.cv_meaning.specs.Memory.{Indices, Memory, Store};
ghost use Rattle.cv_meaning.specs.Runs.{Adversary, Mode};
ghost use Rattle.cv_meaning.specs.Experiments.{run, visits_of_run};
ghost use Rattle.cv_meaning.specs.Satisfies.{Satisfies};
ghost use Rattle.cv_meaning_laws.specs.adequacy.Counted.{tapes_of};
ghost use Rattle.cv_scene.specs.Scenes.{Scene};
ghost use Rattle.cv_scene.specs.Derivations.{Derives};
ghost use Rattle.cv_scene.specs.lines.Lines.{lines_of, statements};
ghost use Rattle.cv_scene.specs.Pairs.{pair_at};
ghost use Rattle.cv_scene.specs.Sights.{sight_at};
ghost use Rattle.cv_derive_laws.specs.reached.Copies.{AreReached, AreReachedInPairs, HoldInPairs, both_copies};
ghost use Rattle.cv_derive_laws.specs.stores.Truth.{AreApart, AreTrue, IsTrue};
ghost use Rattle.cv_derive_laws.specs.stores.Holding.{HoldAt, HoldAtConditions, HoldAtFind, HoldAtVisit, IsReady};
ghost use Rattle.cv_derive_laws.specs.stores.Soundness.{DerivationsHold, DerivedBodiesAreUnreached};
ghost use Rattle.cv_derive_laws.specs.stores.Unreached.{DerivesFalse, HasNoneAt, IsElsewhere};

use crate::late::late_variables_are_unassigned;
use crate::stores::{
    cells_stand_between_stores, sites_stand_at_candidates, stores_are_typed_at_each_visit,
};
use cv_derive_facts::{facts_hold_where_they_stand, sites_stand_in_the_game};
use cv_scope_runs::{cells_are_assigned_once, games_are_contexts, runs_only_grow};
use cv_typing_runs::typed_games_have_typed_runs;

/// In each run of a game that is typed and in array scope, on each tape that is counted, each line outside
/// blocks of a derivation whose lines are right is true at each visited place, and at the places of the
/// construct's own terms: a term is 1 in the store before the visit, and a cell is assigned there. At a
/// visited `find` it is so in the body of each branch, with each tuple with which it is a candidate, taken
/// or not; and in its condition, with each tuple with which the cells of its list are assigned, where cells
/// are looked up before the visit.
pub fn derivations_hold_at_visits()
    ensures places { (s : Scene) → IsReady s.declarations s.game →
        (i : Interpretation) → Satisfies s.declarations i → (m : Mode) (a : Adversary) →
        All (λ t. AllByRecursion (HoldAtVisit s i)
        (visits_of_run (setting_of s.declarations i) m a s.game t))
        (tapes_of (cells (setting_of s.declarations i) m a s.game) blank) }
    ensures candidates { (s : Scene) → IsReady s.declarations s.game →
        (i : Interpretation) → Satisfies s.declarations i → (m : Mode) (a : Adversary) →
        All (λ t. AllByRecursion (HoldAtFind s i)
        (visits_of_run (setting_of s.declarations i) m a s.game t))
        (tapes_of (cells (setting_of s.declarations i) m a s.game) blank) }
    ensures conditions { (s : Scene) → IsReady s.declarations s.game →
        (i : Interpretation) → Satisfies s.declarations i → (m : Mode) (a : Adversary) →
        All (λ t. AllByRecursion (HoldAtConditions s i)
        (visits_of_run (setting_of s.declarations i) m a s.game t))
        (tapes_of (cells (setting_of s.declarations i) m a s.game) blank) }
{
    games_are_contexts();
    sites_stand_in_the_game();
    facts_hold_where_they_stand();
    stores_are_typed_at_each_visit();
    sites_stand_at_candidates();
    cells_stand_between_stores();
    cells_are_assigned_once();
    late_variables_are_unassigned();
}

/// So what a derivation ends with is true wherever its lines are.
pub fn targets_hold()
    ensures { (s : Scene) (i : Interpretation) (place : ℕ) (at : Indices) (m n : Store)
        (by targets : Tree) → HoldAt s i place at m n → Derives (sight_at s place) by targets →
        AllByRecursion (IsTrue (setting_of s.declarations i) at m n)
        (statements (lines_of targets)) }
{}

/// What a derivation at two places ends with is true of two copies of them in each memory in which both are reached, if its lines are
/// right, the given equations hold there, and the values of the arrays that are taken to differ do. So it is at the end of a run that
/// visited both (`visited_copies_stay_reached`).
pub fn derivations_of_two_copies_hold()
    ensures { (s : Scene) → IsReady s.declarations s.game → (i : Interpretation) →
        Satisfies s.declarations i → (p q k : ℕ) (at other : Indices) (x : Memory) →
        AreReached s i p q k at other x → (given : List Tree) (distinct : List ℕ) →
        AreTrue (setting_of s.declarations i) (both_copies k at other) x.store x.store given →
        AreApart distinct x.store x.store → (by targets : Tree) →
        Derives (pair_at s p q k given distinct) by targets →
        AllByRecursion (IsTrue (setting_of s.declarations i) (both_copies k at other)
        x.store x.store) (statements (lines_of targets)) }
{
    games_are_contexts();
    sites_stand_in_the_game();
}

/// At the end of a run, on each tape that is counted, each two copies that it visited are reached. The indices of the second are named
/// from a number on that is above the constants, the variables and the indices of the first one's place.
pub fn visited_copies_stay_reached()
    ensures { (s : Scene) → IsReady s.declarations s.game → (i : Interpretation) →
        Satisfies s.declarations i → (m : Mode) (a : Adversary) →
        All (λ t. AreReachedInPairs s i (run (setting_of s.declarations i) m a s.game t).memory
        (visits_of_run (setting_of s.declarations i) m a s.game t))
        (tapes_of (cells (setting_of s.declarations i) m a s.game) blank) }
{
    games_are_contexts();
    facts_hold_where_they_stand();
    runs_only_grow();
    typed_games_have_typed_runs();
    late_variables_are_unassigned();
}

/// So what a right derivation at the places of two visits ends with is true of both copies at the end of the run.
pub fn derivations_of_visited_copies_hold()
    ensures { (s : Scene) → IsReady s.declarations s.game → (i : Interpretation) →
        Satisfies s.declarations i → (m : Mode) (a : Adversary) →
        All (λ t. HoldInPairs s i (run (setting_of s.declarations i) m a s.game t).memory
        (visits_of_run (setting_of s.declarations i) m a s.game t))
        (tapes_of (cells (setting_of s.declarations i) m a s.game) blank) }
{
    derivations_of_two_copies_hold();
    visited_copies_stay_reached();
}

/// Where `false` is derived at a place, no construct is visited there, and a branch whose body stands there is
/// a candidate of its `find` with no tuple.
pub fn bodies_that_derive_false_are_unreached()
    ensures visits { (s : Scene) (place : ℕ) (by : Tree) → IsReady s.declarations s.game →
        DerivesFalse s place by → (i : Interpretation) → Satisfies s.declarations i →
        (m : Mode) (a : Adversary) → All (λ t. AllByRecursion (IsElsewhere place)
        (visits_of_run (setting_of s.declarations i) m a s.game t))
        (tapes_of (cells (setting_of s.declarations i) m a s.game) blank) }
    ensures candidates { (s : Scene) (place : ℕ) (by : Tree) → IsReady s.declarations s.game →
        DerivesFalse s place by → (i : Interpretation) → Satisfies s.declarations i →
        (m : Mode) (a : Adversary) → All (λ t. AllByRecursion (HasNoneAt s i place)
        (visits_of_run (setting_of s.declarations i) m a s.game t))
        (tapes_of (cells (setting_of s.declarations i) m a s.game) blank) }
{
    derivations_hold_at_visits();
}

/// So derivations are sound, as the laws of steps take it, for the games of each file.
pub fn derivations_are_sound()
    ensures hold { (ds : List Declaration) → DerivationsHold ds }
    ensures unreached { (ds : List Declaration) → DerivedBodiesAreUnreached ds }
{
    derivations_hold_at_visits();
    targets_hold();
    bodies_that_derive_false_are_unreached();
}
