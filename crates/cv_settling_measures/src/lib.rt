// Which steps that settle a game lower its measure, and which bodies may not go.
#![tactic(auto)]

ghost use Rattle.std.specs.Prelude.{◌≡◌, ℕ, true, false};
ghost use Rattle.cv_syntax_trees.specs.Tree.{Tree};
ghost use Rattle.cv_scope_rules.specs.Phrases.{Inputs, Term, is_phrase};
ghost use Rattle.cv_scene.specs.Pruning.{Part};
ghost use Rattle.cv_scene.specs.Scenes.{Scene, part_at};
ghost use Rattle.cv_scene.specs.Terms.{is_game};
ghost use Rattle.cv_steps.specs.Rows.{prune_row, rewrite_row, unnew_row};
ghost use Rattle.cv_steps.specs.Steps.{Cost, Leads};
ghost use Rattle.cv_settling_rules.specs.Measure.{is_less, lowers};
ghost use Rattle.cv_settling_measures.specs.Orphans.{HasNoOrphan, IsOrphan, has_orphan};
ghost use Rattle.cv_settling_measures.specs.Parts.{measure_in};

/// Where a variable is chosen and nothing reads it, the game without its choices is lower.
pub fn dropping_choices_lowers()
    ensures { (s : Scene) (x : ℕ) (next : Tree) (cost : Cost) → is_phrase Inputs s.game ≡ true →
        unnew_row s x ≡ Leads next cost → lowers s next ≡ true }
{}

/// A game without a body that may go is lower, where no variable that it reads has lost its sites.
pub fn pruning_lowers()
    ensures { (s : Scene) (place : ℕ) (part : Part) (by next : Tree) (cost : Cost) →
        is_game s.declarations s.game ≡ true → prune_row s place part by ≡ Leads next cost →
        HasNoOrphan s.game next → lowers s next ≡ true }
{}

/// The test of orphans, over the variables of a game, finds one exactly where there is one.
pub fn orphans_are_found()
    ensures none { (game next : Tree) → is_phrase Inputs game ≡ true →
        has_orphan game next ≡ false → HasNoOrphan game next }
    ensures some { (game next : Tree) → has_orphan game next ≡ true →
        (x : ℕ) × IsOrphan game next x }
{}

/// A game with another term at a place is lower exactly where the term itself counts less than the one that stood there.
pub fn rewriting_lowers_as_terms_do()
    ensures { (s : Scene) (place : ℕ) (term by next : Tree) (cost : Cost) →
        is_phrase Inputs s.game ≡ true → is_phrase Term term ≡ true →
        rewrite_row s place term by ≡ Leads next cost →
        lowers s next ≡ is_less (measure_in s term) (measure_in s (part_at s.game place)) }
{}
