// The laws of maps of tapes: a one to one map bounds the count of a test by that of another.

ghost use Rattle.std.specs.Prelude.{◌≡◌, ℕ, ◌≤◌, Bool, true, List, AllPairs, Contains};
ghost use Rattle.cv_meaning.specs.Tapes.{Cell, Tape, cells_of, count, total};
ghost use Rattle.cv_meaning.specs.Chances.{chance, AtMost};
ghost use Rattle.cv_meaning_laws.specs.adequacy.Counted.{tapes_of};
ghost use Rattle.cv_meaning_chances.specs.Tests.{HasDistinctCells, IsWithin};
ghost use Rattle.cv_meaning_runs.specs.Agreement.{AgreeAt};
ghost use Rattle.cv_meaning_chances.specs.maps.Maps.{IsInjection, LooksOnlyAt};

/// The tapes that a count goes over are within its list. No two of them agree at its cells, and each
/// tape within the list agrees with one of them there.
pub fn tapes_are_listed_once()
    ensures within { (cs : List (Cell × ℕ)) (t u : Tape) → HasDistinctCells cs →
        Contains (tapes_of cs t) u → IsWithin cs u }
    ensures apart { (cs : List (Cell × ℕ)) (t : Tape) → HasDistinctCells cs →
        AllPairs (λ u v. AgreeAt (cells_of cs) u v → ⊥) (tapes_of cs t) }
    ensures each { (cs : List (Cell × ℕ)) (t u : Tape) → IsWithin cs u →
        (v : Tape) × Contains (tapes_of cs t) v × AgreeAt (cells_of cs) u v }
{}

/// The map that changes nothing is one to one, so is one such map after another, and so is a map that
/// another one undoes.
pub fn one_to_one_maps()
    ensures unchanged { (cs : List (Cell × ℕ)) → IsInjection cs cs (λ t. t) }
    ensures composed { (cs ds es : List (Cell × ℕ)) (f g : Tape → Tape) →
        IsInjection cs ds f → IsInjection ds es g → IsInjection cs es (λ t. g (f t)) }
    ensures undone { (cs ds : List (Cell × ℕ)) (f back : Tape → Tape) →
        ((t : Tape) → IsWithin cs t → IsWithin ds (f t)) →
        ((t : Tape) → IsWithin cs t → AgreeAt (cells_of cs) t (back (f t))) →
        ((t u : Tape) → AgreeAt (cells_of ds) t u → AgreeAt (cells_of cs) (back t) (back u)) →
        IsInjection cs ds f }
{}

/// Where a one to one map takes each tape on which a test holds to one on which another test holds, and
/// the other looks at listed cells alone, the first holds on no more tapes, whatever the cells besides
/// hold. Where there are as many tapes on both sides, and the first holds on a tape exactly if the other
/// does on what the map makes of it, both hold on equally many. So too for chances.
pub fn counts_along_maps()
    ensures totals { (cs ds : List (Cell × ℕ)) (f : Tape → Tape) → HasDistinctCells cs →
        IsInjection cs ds f → total cs ≤ total ds }
    ensures counts { (cs ds : List (Cell × ℕ)) (f : Tape → Tape) (q p : Tape → Bool) (t s : Tape) →
        HasDistinctCells cs → IsInjection cs ds f → LooksOnlyAt ds p →
        ((u : Tape) → IsWithin cs u → q u ≡ true → p (f u) ≡ true) →
        count cs q t ≤ count ds p s }
    ensures same_counts { (cs ds : List (Cell × ℕ)) (f : Tape → Tape) (q p : Tape → Bool)
        (t s : Tape) → HasDistinctCells cs → IsInjection cs ds f → LooksOnlyAt ds p →
        total cs ≡ total ds → ((u : Tape) → IsWithin cs u → q u ≡ p (f u)) →
        count cs q t ≡ count ds p s }
    ensures chances { (cs ds : List (Cell × ℕ)) (f : Tape → Tape) (q p : Tape → Bool) →
        HasDistinctCells cs → IsInjection cs ds f → LooksOnlyAt ds p → total cs ≡ total ds →
        ((u : Tape) → IsWithin cs u → q u ≡ true → p (f u) ≡ true) →
        AtMost (chance cs q) (chance ds p) }
    ensures same_chances { (cs ds : List (Cell × ℕ)) (f : Tape → Tape) (q p : Tape → Bool) →
        HasDistinctCells cs → IsInjection cs ds f → LooksOnlyAt ds p → total cs ≡ total ds →
        ((u : Tape) → IsWithin cs u → q u ≡ p (f u)) → chance cs q ≡ chance ds p }
{}

/// The same of a one to one map of the tapes within one list.
pub fn counts_along_maps_of_one_list()
    ensures counts { (cs : List (Cell × ℕ)) (f : Tape → Tape) (q p : Tape → Bool) (t s : Tape) →
        HasDistinctCells cs → IsInjection cs cs f → LooksOnlyAt cs p →
        ((u : Tape) → IsWithin cs u → q u ≡ true → p (f u) ≡ true) →
        count cs q t ≤ count cs p s }
    ensures same_counts { (cs : List (Cell × ℕ)) (f : Tape → Tape) (q p : Tape → Bool)
        (t s : Tape) → HasDistinctCells cs → IsInjection cs cs f → LooksOnlyAt cs p →
        ((u : Tape) → IsWithin cs u → q u ≡ p (f u)) → count cs q t ≡ count cs p s }
    ensures chances { (cs : List (Cell × ℕ)) (f : Tape → Tape) (q p : Tape → Bool) →
        HasDistinctCells cs → IsInjection cs cs f → LooksOnlyAt cs p →
        ((u : Tape) → IsWithin cs u → q u ≡ true → p (f u) ≡ true) →
        AtMost (chance cs q) (chance cs p) }
    ensures same_chances { (cs : List (Cell × ℕ)) (f : Tape → Tape) (q p : Tape → Bool) →
        HasDistinctCells cs → IsInjection cs cs f → LooksOnlyAt cs p →
        ((u : Tape) → IsWithin cs u → q u ≡ p (f u)) → chance cs q ≡ chance cs p }
{}
