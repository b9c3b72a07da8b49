// Laws of the names, labels and texts that are drawn for a next game: they are new and differ, and whatever the
// right side binds has its own.
ghost use Rattle.std.specs.Prelude.{◌≡◌, ℕ, ◌+◌, ◌*◌, ◌^◌, suc, ◌<◌, ◌≤◌, ◌==◌, true, false, List, length, Some, None};
ghost use Rattle.std.specs.List.{AllByRecursion, IsDistinct, list_any};
ghost use Rattle.cv_meaning.specs.contexts.Groups.{Group};
ghost use Rattle.cv_meaning.specs.contexts.Roles.{Role, TheKeyName, Index};
ghost use Rattle.cv_inline.specs.NextGame.{Calling, callers_of};
ghost use Rattle.cv_inline.specs.Draws.{
  Draw,
  drawn_texts,
  is_among,
  labels_from,
  name_for,
  roles_of,
  same_role,
  same_text,
  texts_from,
};
ghost use Rattle.cv_inline_laws.specs.draws.DrawnNames.{
  AreApart,
  DrawnNames,
  IsCallDrawn,
  drawn_in,
  find_in,
  has_find,
  has_indices,
  is_drawn_for,
  is_new,
  names_of_draws,
  numbers_from,
  role_in,
};

/// There is a label for each find. No label is one of those that are taken, or stands twice.
pub fn drawn_labels_are_new()
    ensures many { (taken : List ℕ) (n : ℕ) (finds : List (ℕ × ℕ)) →
        length (labels_from taken n finds) ≡ length finds }
    ensures free { (taken : List ℕ) (n : ℕ) (finds : List (ℕ × ℕ)) →
        AllByRecursion (λ l. list_any (λ t. t == l) taken ≡ false) (labels_from taken n finds) }
    ensures differ { (taken : List ℕ) (n : ℕ) (finds : List (ℕ × ℕ)) →
        IsDistinct ◌==◌ (labels_from taken n finds) }
{}

/// There is a text for each base. No text is one of those that are taken, or stands twice, as long as the
/// numbers have at most 64 digits. What stands at the end of a taken text counts as a number only up to nine
/// digits, so the drawn texts are new and differ for any lists of names that a file can have.
pub fn drawn_texts_are_new()
    ensures many { (taken : List (List ℕ)) (n : ℕ) (bases : List (List ℕ)) →
        length (texts_from taken n bases) ≡ length bases }
    ensures free { (taken : List (List ℕ)) (n : ℕ) (bases : List (List ℕ)) →
        n + length bases * suc (length taken) ≤ 10 ^ 64 →
        AllByRecursion (λ t. is_among taken t ≡ false) (texts_from taken n bases) }
    ensures differ { (taken : List (List ℕ)) (n : ℕ) (bases : List (List ℕ)) →
        n + length bases * suc (length taken) ≤ 10 ^ 64 →
        IsDistinct same_text (texts_from taken n bases) }
    ensures drawn { (taken bases : List (List ℕ)) →
        length bases * suc (length taken) ≤ 10 ^ 63 →
        (length (drawn_texts taken bases) ≡ length bases)
        × AllByRecursion (λ t. is_among taken t ≡ false) (drawn_texts taken bases)
        × IsDistinct same_text (drawn_texts taken bases) }
{}

/// Names that count up from a number on are as many as what they are for, none below that number and none twice.
pub fn numbers_in_a_row_are_new()
    ensures many { (n : ℕ) (draws : List Draw) → length (numbers_from n draws) ≡ length draws }
    ensures above { (n : ℕ) (draws : List Draw) → AllByRecursion (λ y. n ≤ y) (numbers_from n draws) }
    ensures differ { (n : ℕ) (draws : List Draw) → IsDistinct ◌==◌ (numbers_from n draws) }
{}

/// What a name or a label is drawn for is found again from it, and a name that isn't drawn keeps its role. So
/// names that are drawn for different things differ, from one another and from those of the game.
pub fn drawn_names_are_told_apart()
    ensures roles { (d : DrawnNames) → AreApart d → (role : Role) → is_drawn_for d role ≡ true →
        role_in d (name_for same_role (roles_of d.draws) d.names role) ≡ role }
    ensures drawn { (d : DrawnNames) → AreApart d → (role : Role) → is_drawn_for d role ≡ true →
        is_new d (name_for same_role (roles_of d.draws) d.names role) ≡ true }
    ensures indices { (d : DrawnNames) → AreApart d → (s q o b count k : ℕ) →
        has_indices d s q o b 0 count ≡ true → k < count →
        is_drawn_for d (Index s q o b k) ≡ true }
    ensures finds { (d : DrawnNames) → AreApart d → (s q : ℕ) → has_find d s q ≡ true →
        find_in d ((drawn_in d).label s q) ≡ Some (s, q) }
    ensures other_names { (d : DrawnNames) (y : ℕ) → is_new d y ≡ false →
        role_in d y ≡ d.game_role y }
    ensures other_labels { (d : DrawnNames) (l : ℕ) → list_any (λ k. k == l) d.labels ≡ false →
        find_in d l ≡ None }
    ensures above { (d : DrawnNames) (n y : ℕ) → AllByRecursion (λ x. n ≤ x) d.names →
        is_new d y ≡ true → n ≤ y }
{}

/// All that the right functions of a context's calls bind is drawn: their arguments, what their bodies assign,
/// their finds, and for each branch an index for each replication of each site over which it goes; and so is
/// the key.
pub fn texts_have_their_draws()
    ensures key { (g : Group) (cs : List Calling) (names labels : List ℕ) (role : ℕ → Role) →
        is_drawn_for (names_of_draws g cs names labels role) TheKeyName ≡ true }
    ensures calls { (g : Group) (cs : List Calling) (names labels : List ℕ) (role : ℕ → Role) →
        AllByRecursion (IsCallDrawn (names_of_draws g cs names labels role) (callers_of cs)) cs }
{}
