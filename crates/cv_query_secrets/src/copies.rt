// The values that terms have where the indices of two copies are current.

ghost use Rattle.std.specs.Prelude.{◌≡◌, ℕ, Some, map, true};
ghost use Rattle.std.specs.List.{AllByRecursion};
ghost use Rattle.cv_syntax_trees.specs.Tree.{Tree, chain, first};
ghost use Rattle.cv_meaning.specs.Interpretation.{Interpretation, setting_of};
ghost use Rattle.cv_meaning.specs.Memory.{Indices, Memory, tuple};
ghost use Rattle.cv_meaning.specs.Satisfies.{Satisfies};
ghost use Rattle.cv_meaning.specs.Terms.{found_in, value, values};
ghost use Rattle.cv_scope_rules.specs.Context.{items};
ghost use Rattle.cv_scene.specs.Late.{index_term};
ghost use Rattle.cv_scene.specs.Pairs.{of_second, second_indices};
ghost use Rattle.cv_scene.specs.Scenes.{Scene};
ghost use Rattle.cv_scene.specs.Sights.{is_cell_at};
ghost use Rattle.cv_scene.specs.Terms.{is_term_at, replications_at};
ghost use Rattle.cv_derive_laws.specs.reached.Copies.{AreReached, both_copies};
ghost use Rattle.cv_derive_laws.specs.reached.Fine.{IsFineTerm};
ghost use Rattle.cv_derive_laws.specs.stores.Holding.{IsReady};

use cv_derive_facts::sites_stand_in_the_game;
use cv_scope_runs::games_are_contexts;

/// A term that may stand at a place, and each index term of a cell that may, names indices of the place, constants and variables alone.
pub fn terms_at_places_are_over_their_names()
    ensures terms { (s : Scene) → IsReady s.declarations s.game → (place : ℕ) (term : Tree) →
        is_term_at s place term ≡ true →
        IsFineTerm s.declarations s.game (replications_at s place) term }
    ensures cells { (s : Scene) → IsReady s.declarations s.game → (place : ℕ) (cell : Tree) →
        is_cell_at s place cell ≡ true →
        AllByRecursion (IsFineTerm s.declarations s.game (replications_at s place))
        (items (first cell)) }
{}

/// Where two copies are reached and the indices of both are current, a term of the first copy has the value that it has there alone, and
/// a term of the second, over its raised indices, the value that it has there. The indices themselves are the copies.
pub fn terms_have_their_values_at_both_copies()
    ensures of_first { (s : Scene) → IsReady s.declarations s.game → (i : Interpretation) →
        Satisfies s.declarations i → (p q k : ℕ) (at other : Indices) (x : Memory) →
        AreReached s i p q k at other x → (term : Tree) →
        IsFineTerm s.declarations s.game (replications_at s p) term →
        value (setting_of s.declarations i) (both_copies k at other) x.store term
        ≡ value (setting_of s.declarations i) at x.store term }
    ensures of_second { (s : Scene) → IsReady s.declarations s.game → (i : Interpretation) →
        Satisfies s.declarations i → (p q k : ℕ) (at other : Indices) (x : Memory) →
        AreReached s i p q k at other x → (term : Tree) →
        IsFineTerm s.declarations s.game (replications_at s q) term →
        value (setting_of s.declarations i) (both_copies k at other) x.store
        (of_second k (replications_at s q) term)
        ≡ value (setting_of s.declarations i) other x.store term }
    ensures first_indices { (s : Scene) → IsReady s.declarations s.game → (i : Interpretation) →
        Satisfies s.declarations i → (p q k : ℕ) (at other : Indices) (x : Memory) →
        AreReached s i p q k at other x →
        AllByRecursion (λ (r : ℕ × ℕ). found_in at r.0 ≡ Some r.1) at →
        values (setting_of s.declarations i) (both_copies k at other) x.store
        (chain (map index_term (replications_at s p))) ≡ tuple at }
    ensures second_indices { (s : Scene) → IsReady s.declarations s.game → (i : Interpretation) →
        Satisfies s.declarations i → (p q k : ℕ) (at other : Indices) (x : Memory) →
        AreReached s i p q k at other x →
        values (setting_of s.declarations i) (both_copies k at other) x.store
        (chain (map index_term (second_indices k (replications_at s q)))) ≡ tuple other }
{
    games_are_contexts();
    sites_stand_in_the_game();
}
