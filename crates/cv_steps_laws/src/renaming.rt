// The law of the step that gives a variable another name, and that of games under other names.

ghost use Rattle.std.specs.Prelude.{◌≡◌, ℕ, true};
ghost use Rattle.cv_syntax_trees.specs.Tree.{Tree, depth, size};
ghost use Rattle.cv_meaning.specs.Interpretation.{Setting, is_constant_of};
ghost use Rattle.cv_meaning.specs.Runs.{Adversary};
ghost use Rattle.cv_meaning.specs.Experiments.{Experiment, mode_of};
ghost use Rattle.cv_meaning.specs.Chances.{Same};
ghost use Rattle.cv_meaning.specs.Advantage.{chance_of};
ghost use Rattle.cv_scope_rules.specs.Phrases.{IsWellFormed, binds_none};
ghost use Rattle.cv_scene.specs.Scenes.{KnowsQueries, Scene};
ghost use Rattle.cv_steps.specs.Steps.{Cost, Leads};
ghost use Rattle.cv_steps.specs.Rows.{rename_row};
ghost use Rattle.cv_steps.specs.Chances.{KeepsChances};
ghost use Rattle.cv_steps.specs.Renaming.{renamed};
ghost use Rattle.cv_steps_laws.specs.renaming.Naming.{IsNaming, KeepsTested, with_names};

/// A variable that no query asks for may get another name, which neither the file nor the game has:
/// the runs of both games are one under these names. The next game binds no constant, so the new
/// name is none.
pub fn renaming_keeps_chances()
    ensures { (s : Scene) (x y : ℕ) (next : Tree) (cost : Cost) →
        IsWellFormed s.declarations s.game → KnowsQueries s →
        binds_none (is_constant_of s.declarations) next ≡ true →
        rename_row s x y ≡ Leads next cost → KeepsChances s.declarations s.game next }
{}

/// Other names of variables and indices leave each experiment its chance, where no two become one,
/// and constants and what the adversary tests keep theirs.
pub fn games_under_other_names_have_equal_chances()
    ensures { (g : Setting) (name : ℕ → ℕ) (e : Experiment) (a : Adversary) (game : Tree) →
        IsNaming g name → KeepsTested name (mode_of e) →
        Same (chance_of g e a game) (chance_of g e a (with_names name game)) }
{}

/// A game with another name of a variable has as many nodes as before, on each path too.
pub fn renamed_games_have_the_same_size()
    ensures nodes { (x y : ℕ) (t : Tree) → size (renamed x y t) ≡ size t }
    ensures depths { (x y : ℕ) (t : Tree) → depth (renamed x y t) ≡ depth t }
{}
