// Which of the other steps that settle a game lower its measure, and that a body isn't dropped where that leaves an orphan.
#![tactic(auto)]

ghost use Rattle.std.specs.Prelude.{◌≡◌, ℕ, true, false, ◌||◌, List, [], ◌∷◌, Some};
ghost use Rattle.cv_syntax_trees.specs.Declarations.{Declaration};
ghost use Rattle.cv_syntax_trees.specs.Tree.{Tree};
ghost use Rattle.cv_scope_rules.specs.Context.{cell_of};
ghost use Rattle.cv_scope_rules.specs.Phrases.{Inputs, IsWellFormed, binds_none, is_phrase};
ghost use Rattle.cv_scene.specs.Pruning.{Part};
ghost use Rattle.cv_scene.specs.Scenes.{Scene};
ghost use Rattle.cv_scene.specs.Terms.{is_function, is_game};
ghost use Rattle.cv_steps.specs.Rows.{prune_row, unlet_row};
ghost use Rattle.cv_steps.specs.Steps.{Cost, Leads};
ghost use Rattle.cv_steps.specs.Unletting.{Assignment as Definition, is_listed, only_assignment};
ghost use Rattle.cv_rule_birthday.specs.Row.{birthday_row};
ghost use Rattle.cv_rule_birthday.specs.guess.Row.{guess_row};
ghost use Rattle.cv_rule_fresh.specs.collisions.Fresh.{fresh_row};
ghost use Rattle.cv_rule_move.specs.merge.Row.{merge_row};
ghost use Rattle.cv_settling_rules.specs.Assignments.{
  Assignment,
  assignment_of,
  is_hardly_read,
  is_short,
};
ghost use Rattle.cv_settling_rules.specs.Measure.{lowers};
ghost use Rattle.cv_settling_measures.specs.Orphans.{IsOrphan};
ghost use Rattle.cv_settling_descent.specs.Reads.{AreReadsOf};
ghost use Rattle.cv_settling_descent.specs.SmallIndices.{HasSmallIndices};

/// Where the game without a body still reads a variable that has lost its sites, it doesn't pass the test of games. So each that passes is
/// lower.
pub fn orphans_are_refused()
    ensures refused { (s : Scene) (place : ℕ) (part : Part) (by next : Tree) (cost : Cost) (x : ℕ) →
        is_game s.declarations s.game ≡ true → prune_row s place part by ≡ Leads next cost →
        IsOrphan s.game next x → is_game s.declarations next ≡ false }
    ensures lower { (s : Scene) (place : ℕ) (part : Part) (by next : Tree) (cost : Cost) →
        is_game s.declarations s.game ≡ true → prune_row s place part by ≡ Leads next cost →
        is_game s.declarations next ≡ true → lowers s next ≡ true }
{}

/// A variable with one definition, an assignment, that no `defined` list names is read at the indices of its definition alone.
pub fn assignments_are_read_at_their_own_indices()
    ensures { (ds : List Declaration) (game : Tree) (x : ℕ) (d : Definition) →
        IsWellFormed ds game → only_assignment game x ≡ Some d → is_listed x game ≡ false →
        AreReadsOf x (cell_of d.behind.replications x) game }
{}

/// A game without an assignment that may go is lower, where its variable is hardly read, or its term is short.
pub fn dropping_assignments_lowers()
    ensures { (s : Scene) (x : ℕ) (next : Tree) (cost : Cost) (d : Assignment) →
        is_game s.declarations s.game ≡ true → unlet_row s x ≡ Leads next cost →
        assignment_of s.game x ≡ Some d → (is_hardly_read s.game x || is_short x d) ≡ true →
        lowers s next ≡ true }
{}

/// A game with one body in the place of a construct whose bodies are all equal is lower.
pub fn merging_lowers()
    ensures { (s : Scene) (place : ℕ) (next : Tree) (cost : Cost) →
        is_phrase Inputs s.game ≡ true → merge_row s place ≡ Leads next cost →
        lowers s next ≡ true }
{}

/// A game with `false` in the place of an equality is lower: of one with what was known before, and of those of a value that nothing
/// else reads, where there is a place at all.
pub fn equalities_with_fresh_values_lower()
    ensures fresh { (s : Scene) (place : ℕ) (next : Tree) (cost : Cost) →
        is_phrase Inputs s.game ≡ true → fresh_row s place ≡ Leads next cost →
        lowers s next ≡ true }
    ensures guess { (s : Scene) (x place : ℕ) (places : List ℕ) (next : Tree) (cost : Cost) →
        is_phrase Inputs s.game ≡ true → guess_row s x (place ∷ places) ≡ Leads next cost →
        lowers s next ≡ true }
{}

/// A game with comparisons of indices in the place of those of random values is lower, where there is a place at all and no index
/// term is taken for a value of a large type.
pub fn comparing_indices_lowers()
    ensures { (s : Scene) (x place : ℕ) (places : List ℕ) (next : Tree) (cost : Cost) →
        is_phrase Inputs s.game ≡ true → HasSmallIndices s s.game →
        birthday_row s x (place ∷ places) ≡ Leads next cost → lowers s next ≡ true }
{}

/// Where no place is named, the game stays as it is, and isn't lower.
pub fn steps_without_places_lower_nothing()
    ensures birthday { (s : Scene) (x : ℕ) (next : Tree) (cost : Cost) →
        birthday_row s x [] ≡ Leads next cost → lowers s next ≡ false }
    ensures guess { (s : Scene) (x : ℕ) (next : Tree) (cost : Cost) →
        guess_row s x [] ≡ Leads next cost → lowers s next ≡ false }
{}

/// In a game that binds no declared function no index term is taken for a value of a large type.
pub fn indices_are_small()
    ensures { (s : Scene) → is_game s.declarations s.game ≡ true →
        binds_none (is_function s.declarations) s.game ≡ true → HasSmallIndices s s.game }
{}
