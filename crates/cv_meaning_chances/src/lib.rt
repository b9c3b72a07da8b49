// The laws of chances: counts of tapes, and the chances that they make.
#![tactic(auto)]

pub mod alignment;
pub mod contexts;
pub mod maps;
pub mod rewording;
pub mod thinning;
pub mod unread;
pub mod values;

ghost use Rattle.std.specs.Prelude.{◌≡◌, ℕ, suc, ◌+◌, ◌*◌, ◌≤◌, ◌<◌, ◌↔◌, Bool, true, false, not, ◌&&◌, List, [], ◌∷◌, map, length, sum_by, All, Contains, IsPermutation, ◌==◌};
ghost use Rattle.std.specs.List.{IsDistinct, list_any};
ghost use Rattle.cv_meaning.specs.Tapes.{Cell, Coin, Tape, same_cell, written, count, total};
ghost use Rattle.cv_syntax_trees.specs.Tree.{Tree};
ghost use Rattle.cv_meaning.specs.Interpretation.{Setting};
ghost use Rattle.cv_meaning.specs.Runs.{Adversary, Mode};
ghost use Rattle.cv_meaning.specs.Cells.{cells};
ghost use Rattle.cv_meaning.specs.Experiments.{Experiment, mode_of};
ghost use Rattle.cv_meaning.specs.Advantage.{advantage, chance_of};
ghost use Rattle.cv_meaning_chances.specs.Choices.{ChoicesHaveValues};
ghost use Rattle.cv_meaning.specs.Chances.{Chance, chance, zero_chance, AtMost, Same, distance};
ghost use Rattle.cv_meaning_chances.specs.Tests.{HasDistinctCells, HasSizes, HasValues, IsWithin, Ignores, IgnoresOthers, IsCoveredFor, renamed, IsOneToOne, hits_one_of, some_equal};
ghost use Rattle.cv_meaning_chances.specs.Questions.{Questions, answer, AskAlike};
ghost use Rattle.cv_meaning_chances.specs.Fractions.{HasTapes, plus, sum_of, times, scaled, one_of, birthday_bound};

/// Chances are compared, added and told apart as the fractions that they are, so that no proof above
/// multiplies crosswise. A chance that stands in between has tapes.
pub fn fractions()
    ensures reflexive { (p : Chance) → AtMost p p }
    ensures transitive { (p q r : Chance) → HasTapes q → AtMost p q → AtMost q r → AtMost p r }
    ensures same { (p q : Chance) → Same p q ↔ (AtMost p q × AtMost q p) }
    ensures scale { (n : ℕ) (p : Chance) → Same (scaled n p) p }

    ensures plus_commutes { (p q : Chance) → plus p q ≡ plus q p }
    ensures plus_associates { (p q r : Chance) → plus (plus p q) r ≡ plus p (plus q r) }
    ensures plus_zero { (p : Chance) → plus p zero_chance ≡ p }
    ensures plus_kept { (p q r s : Chance) →
        AtMost p q → AtMost r s → AtMost (plus p r) (plus q s) }
    ensures plus_has_tapes { (p q : Chance) → HasTapes p → HasTapes q → HasTapes (plus p q) }
    ensures times_kept { (n : ℕ) (p q : Chance) → AtMost p q → AtMost (times n p) (times n q) }
    ensures times_more { (n : ℕ) (p : Chance) → Same (times (suc n) p) (plus p (times n p)) }

    ensures distance_has_tapes { (p q : Chance) →
        HasTapes p → HasTapes q → HasTapes (distance p q) }
    ensures symmetric { (p q : Chance) → distance p q ≡ distance q p }
    ensures no_distance { (p q : Chance) → Same p q ↔ AtMost (distance p q) zero_chance }
    ensures distance_kept { (p q r s : Chance) →
        Same p r → Same q s → Same (distance p q) (distance r s) }
    ensures triangle { (p q r : Chance) →
        AtMost (distance p r) (plus (distance p q) (distance q r)) }
    ensures within_distance { (p q : Chance) → AtMost p (plus q (distance p q)) }
    ensures least_distance { (p q r : Chance) →
        AtMost p (plus q r) → AtMost q (plus p r) → AtMost (distance p q) r }
{}

/// The count of a test: of all tapes, of none, and how it follows the test. A test is looked at only on
/// tapes whose listed cells are below their sizes; for that, no cell stands twice in the list.
pub fn counts_of_tests()
    ensures always { (cs : List (Cell × ℕ)) (t : Tape) → count cs (λ u. true) t ≡ total cs }
    ensures never { (cs : List (Cell × ℕ)) (t : Tape) → count cs (λ u. false) t ≡ 0 }
    ensures at_most_all { (cs : List (Cell × ℕ)) (p : Tape → Bool) (t : Tape) →
        count cs p t ≤ total cs }
    ensures some_tape { (cs : List (Cell × ℕ)) → HasValues cs → 0 < total cs }

    ensures implied { (cs : List (Cell × ℕ)) (p q : Tape → Bool) (t : Tape) → HasDistinctCells cs →
        ((u : Tape) → IsWithin cs u → p u ≡ true → q u ≡ true) →
        count cs p t ≤ count cs q t }
    ensures implied_chances { (cs : List (Cell × ℕ)) (p q : Tape → Bool) → HasDistinctCells cs →
        ((u : Tape) → IsWithin cs u → p u ≡ true → q u ≡ true) →
        AtMost (chance cs p) (chance cs q) }
    ensures same { (cs : List (Cell × ℕ)) (p q : Tape → Bool) (t : Tape) → HasDistinctCells cs →
        ((u : Tape) → IsWithin cs u → p u ≡ q u) → count cs p t ≡ count cs q t }
    ensures complement { (cs : List (Cell × ℕ)) (p : Tape → Bool) (t : Tape) →
        count cs p t + count cs (λ u. not (p u)) t ≡ total cs }
    ensures cases { (cs : List (Cell × ℕ)) (p q : Tape → Bool) (t : Tape) →
        count cs (λ u. p u && q u) t + count cs (λ u. p u && not (q u)) t ≡ count cs p t }
{}

/// The count of the tapes on which a test of the list holds is at most the sum of the tests' counts. So
/// too for chances, and where one bound serves for each test.
pub fn union_bound()
    ensures counts { (cs : List (Cell × ℕ)) (ps : List (Tape → Bool)) (t : Tape) →
        count cs (λ u. list_any (λ p. p u) ps) t ≤ sum_by (λ p. count cs p t) ps }
    ensures chances { (cs : List (Cell × ℕ)) (ps : List (Tape → Bool)) →
        AtMost (chance cs (λ u. list_any (λ p. p u) ps)) (sum_of (map (chance cs) ps)) }
    ensures each { (cs : List (Cell × ℕ)) (ps : List (Tape → Bool)) (bound : Chance) →
        All (λ p. AtMost (chance cs p) bound) ps →
        AtMost (chance cs (λ u. list_any (λ p. p u) ps)) (times (length ps) bound) }
{}

/// Where one test follows from the other, or both are the same, on each tape that is not bad, the count
/// and the chance grow by no more than those of the bad tapes.
pub fn tests_that_agree()
    ensures counts { (cs : List (Cell × ℕ)) (p q bad : Tape → Bool) (t : Tape) →
        HasDistinctCells cs →
        ((u : Tape) → IsWithin cs u → bad u ≡ false → p u ≡ true → q u ≡ true) →
        count cs p t ≤ count cs q t + count cs bad t }
    ensures chances { (cs : List (Cell × ℕ)) (p q bad : Tape → Bool) → HasDistinctCells cs →
        ((u : Tape) → IsWithin cs u → bad u ≡ false → p u ≡ true → q u ≡ true) →
        AtMost (chance cs p) (plus (chance cs q) (chance cs bad)) }
    ensures distances { (cs : List (Cell × ℕ)) (p q bad : Tape → Bool) → HasDistinctCells cs →
        ((u : Tape) → IsWithin cs u → bad u ≡ false → p u ≡ q u) →
        AtMost (distance (chance cs p) (chance cs q)) (chance cs bad) }
{}

/// A cell that the test ignores multiplies the count and the total by its size, so the chance stays.
/// Another cell's value ignores the cell, and so does what is computed from the tape with a fixed value
/// in the cell.
pub fn unread_cells()
    ensures other_cell { (c d : Cell) → same_cell d c ≡ false → Ignores (λ u. u d) c }
    ensures overwritten { (c : Cell) (v : ℕ) → Ignores (λ u. written u c v) c }
    ensures counts { (c : Cell × ℕ) (cs : List (Cell × ℕ)) (p : Tape → Bool) (t : Tape) →
        Ignores p c.0 → count (c ∷ cs) p t ≡ c.1 * count cs p t }
    ensures totals { (c : Cell × ℕ) (cs : List (Cell × ℕ)) → total (c ∷ cs) ≡ c.1 * total cs }
    ensures chances { (c : Cell × ℕ) (cs : List (Cell × ℕ)) (p : Tape → Bool) →
        Ignores p c.0 → Same (chance (c ∷ cs) p) (chance cs p) }
{}

/// The order of the cells does not matter.
pub fn reordered_cells()
    ensures counts { (cs ds : List (Cell × ℕ)) (p : Tape → Bool) (t : Tape) →
        HasDistinctCells cs → IsPermutation cs ds → count cs p t ≡ count ds p t }
    ensures totals { (cs ds : List (Cell × ℕ)) →
        HasDistinctCells cs → IsPermutation cs ds → total cs ≡ total ds }
    ensures chances { (cs ds : List (Cell × ℕ)) (p : Tape → Bool) →
        HasDistinctCells cs → IsPermutation cs ds → chance cs p ≡ chance ds p }
{}

/// The chance of a test depends on the cells that it reads alone: cells that it ignores may come and go,
/// and the others stand in any order.
pub fn cells_that_matter()
    ensures { (p : Tape → Bool) (cs ds : List (Cell × ℕ)) →
        HasDistinctCells cs → HasDistinctCells ds → IsCoveredFor p cs ds → IsCoveredFor p ds cs →
        Same (chance cs p) (chance ds p) }
{}

/// Tests that are equal on each tape within both of two lists, each of which ignores the cells outside of
/// its own list, have one chance, where a cell that both have has one size.
pub fn like_tests()
    ensures { (size : Cell → ℕ) (cs ds : List (Cell × ℕ)) → HasSizes size cs → HasSizes size ds →
        (p q : Tape → Bool) → HasDistinctCells cs → HasDistinctCells ds →
        HasValues cs → HasValues ds → IgnoresOthers p cs → IgnoresOthers q ds →
        ((t : Tape) → IsWithin cs t → IsWithin ds t → p t ≡ q t) →
        Same (chance cs p) (chance ds q) }
{}

/// Where each random choice of a game has a value, each listed cell has one, and so the chance of an
/// experiment and an advantage have tapes.
pub fn experiments_have_tapes()
    ensures cells { (g : Setting) (m : Mode) (a : Adversary) (game : Tree) →
        ChoicesHaveValues g game → HasValues (cells g m a game) }
    ensures chance { (g : Setting) (x : Experiment) (a : Adversary) (game : Tree) →
        HasValues (cells g (mode_of x) a game) → HasTapes (chance_of g x a game) }
    ensures advantage { (g : Setting) (query : Tree) (a : Adversary) (game : Tree) →
        ChoicesHaveValues g game → HasTapes (advantage g query a game) }
{}

/// The cells may get other names, one to one; the test then reads each cell by its new name.
pub fn renamed_cells()
    ensures distinct { (name : Cell → Cell) (cs : List (Cell × ℕ)) →
        IsOneToOne name → HasDistinctCells cs → HasDistinctCells (renamed name cs) }
    ensures counts { (name : Cell → Cell) (cs : List (Cell × ℕ)) (p : Tape → Bool) (t : Tape) →
        IsOneToOne name →
        count (renamed name cs) (λ u. p (λ c. u (name c))) t ≡ count cs p (λ c. t (name c)) }
    ensures totals { (name : Cell → Cell) (cs : List (Cell × ℕ)) →
        total (renamed name cs) ≡ total cs }
    ensures chances { (name : Cell → Cell) (cs : List (Cell × ℕ)) (p : Tape → Bool) →
        IsOneToOne name → chance (renamed name cs) (λ u. p (λ c. u (name c))) ≡ chance cs p }
{}

/// A cell equals a value that is computed without it on at most one tape of as many as the cell has
/// values. So too where it is looked at only when it is reached, and where it is chosen from cells of one
/// size and neither the choice nor the value looks at them.
pub fn value_hit()
    ensures chances { (cs : List (Cell × ℕ)) (c : Cell × ℕ) (value : Tape → ℕ) →
        HasDistinctCells cs → Contains cs c → Ignores value c.0 →
        AtMost (chance cs (λ u. u c.0 == value u)) (one_of c.1) }
    ensures reached { (cs : List (Cell × ℕ)) (c : Cell × ℕ)
        (reached : Tape → Bool) (value : Tape → ℕ) (t : Tape) →
        HasDistinctCells cs → Contains cs c → Ignores reached c.0 → Ignores value c.0 →
        count cs (λ u. reached u && (u c.0 == value u)) t * c.1 ≤ count cs reached t }
    // of the tapes on which it is reached, at most one of `size` has the value in the chosen cell
    ensures chosen { (cs : List (Cell × ℕ)) (family : List Cell) (size : ℕ)
        (reached : Tape → Bool) (choice : Tape → Cell) (value : Tape → ℕ) (t : Tape) →
        HasDistinctCells cs → All (λ c. Contains cs (c, size)
        × Ignores reached c × Ignores choice c × Ignores value c) family →
        count cs (λ u. reached u && hits_one_of family (choice u) (value u) u) t * size
        ≤ count cs reached t }
{}

/// Two of n cells of one size are equal with a chance of at most n (n - 1) / (2 size).
pub fn equal_cells()
    ensures { (cs : List (Cell × ℕ)) (chosen : List Cell) (size : ℕ) →
        HasDistinctCells cs → IsDistinct same_cell chosen →
        All (λ c. Contains cs (c, size)) chosen →
        AtMost (chance cs (some_equal chosen)) (birthday_bound (length chosen) size) }
{}

/// Two tests that ask cells of the same sizes in turn, each at most once, and then say the same have the
/// same chance, whichever cells they ask.
pub fn alike_questions()
    ensures { (cs ds : List (Cell × ℕ)) (q r : Questions) →
        HasDistinctCells cs → HasDistinctCells ds → AskAlike cs ds q r →
        Same (chance cs (answer q)) (chance ds (answer r)) }
{}

/// Cases in which a bound is reached: a cell of three values and a value, two cells of two values, and
/// two tests that differ on one tape of three.
pub fn reached_bounds()
    ensures hit { chance ((Coin 0, 3) ∷ []) (λ u. u (Coin 0) == 1) ≡ one_of 3 }
    ensures pair { chance ((Coin 0, 2) ∷ (Coin 1, 2) ∷ []) (some_equal (Coin 0 ∷ Coin 1 ∷ []))
        ≡ birthday_bound 2 2 }
    ensures bad { let cs = (Coin 0, 3) ∷ [] in
        distance (chance cs (λ u. true)) (chance cs (λ u. not (u (Coin 0) == 2)))
        ≡ scaled 3 (chance cs (λ u. u (Coin 0) == 2)) }
{}
