// Laws of the next game of a reduction: the names of answers leave no trace there, its labels are new, and so
// are names with drawn texts.

ghost use Rattle.std.specs.Prelude.{◌≡◌, ◌==◌, ◌*◌, ◌≤◌, ◌^◌, ℕ, suc, List, [], false, length, map, true};
ghost use Rattle.std.specs.List.{IsDistinct, list_any};
ghost use Rattle.cv_scene.specs.Apt.{IsAptGame};
ghost use Rattle.cv_scene.specs.Scenes.{names};
ghost use Rattle.cv_scene.specs.Reductions.{Reduction, context_of_game, matching};
ghost use Rattle.cv_inline.specs.NextGame.{InlinedCalls, next_in};
ghost use Rattle.cv_inline.specs.Draws.{Draw, drawn_texts, labels_from, labels_in};
ghost use Rattle.cv_inline_draws.specs.names.Texts.{is_listed, texts_at};
ghost use Rattle.cv_context_runs.specs.visits.Fine.{has_free_indices, has_label};
ghost use Rattle.cv_context_laws.specs.next_games.Answers.{AreEndless, with_answers};
ghost use Rattle.cv_match_laws.specs.answers.Drawn.{AreDrawnFor, draws, finds};

/// The next game of an apt game's context is the same for all names of the answers that are apart and that the
/// game has not, where no instance stands in an index: each answer is read in its statement alone, and there
/// its result stands.
pub fn next_games_have_no_answers()
    ensures { (r : Reduction) (answer : ℕ → ℕ) (i : InlinedCalls) → IsAptGame r →
        has_free_indices (matching r) r.scene.game ≡ true → AreEndless r.scene.game r.answer →
        AreEndless r.scene.game answer → next_in i [] (context_of_game r).game
        ≡ next_in i [] (context_of_game (with_answers r answer)).game }
{}

/// There is a drawn label for each find, none twice, and none that a find of the game has.
pub fn drawn_labels_are_none_of_the_game()
    ensures many { (r : Reduction) (names labels : List ℕ) → AreDrawnFor r names labels →
        length labels ≡ length (finds r) }
    ensures apart { (r : Reduction) (names labels : List ℕ) → AreDrawnFor r names labels →
        IsDistinct ◌==◌ labels }
    ensures new { (r : Reduction) (names labels : List ℕ) → AreDrawnFor r names labels →
        (l : ℕ) → has_label l r.scene.game ≡ true → list_any (λ k. k == l) labels ≡ false }
{}

/// Where the taken names have all names of the file and of the game, names of a table with texts that are drawn for
/// the next game are drawn names, if none is an answer's.
pub fn names_with_drawn_texts_are_drawn()
    ensures { (r : Reduction) (table : List (List ℕ)) (taken drawn labels : List ℕ) →
        texts_at table drawn ≡ drawn_texts (texts_at table taken)
        (texts_at table (map (λ (d : Draw). d.base) (draws r))) →
        length (draws r) * suc (length taken) ≤ 10 ^ 63 →
        ((y : ℕ) → r.scene.known y ≡ true → is_listed taken y ≡ true) →
        ((y : ℕ) → names y r.scene.game ≡ true → is_listed taken y ≡ true) →
        ((k : ℕ) → list_any (λ y. y == r.answer k) drawn ≡ false) →
        labels ≡ labels_from (labels_in r.scene.game) 1 (finds r) → AreDrawnFor r drawn labels }
{}
