// The law of the step that puts the term of an assignment in place of its variable.

ghost use Rattle.std.specs.Prelude.{◌≡◌, ℕ, false, List, Some};
ghost use Rattle.cv_syntax_trees.specs.Declarations.{Declaration};
ghost use Rattle.cv_syntax_trees.specs.Tree.{Tree};
ghost use Rattle.cv_scope_rules.specs.Context.{nothing_known};
ghost use Rattle.cv_scope_rules.specs.Phrases.{IsWellFormed};
ghost use Rattle.cv_scene.specs.Scenes.{Scene};
ghost use Rattle.cv_steps.specs.Steps.{Cost, Leads};
ghost use Rattle.cv_steps.specs.Rows.{unlet_row};
ghost use Rattle.cv_steps.specs.Chances.{KeepsChances};
ghost use Rattle.cv_steps.specs.Unletting.{
  Assignment,
  is_listed,
  only_assignment,
  without_assignment,
};

/// A variable with one definition, an assignment, may go where no query asks for it and no `defined` list
/// names it, with its term in place of each read of it: at each read the equation of the assignment stands
/// above, so both have one value.
pub fn unletting_keeps_chances()
    ensures { (s : Scene) (x : ℕ) (next : Tree) (cost : Cost) →
        IsWellFormed s.declarations s.game → unlet_row s x ≡ Leads next cost →
        KeepsChances s.declarations s.game next }
{}

/// Array scope lets such a variable be read at the indices of its definition alone. So the next game has the
/// term at each read as it was assigned, and nothing has to be put into the term.
pub fn terms_stay_as_they_were_assigned()
    ensures { (ds : List Declaration) (game : Tree) (x : ℕ) (d : Assignment) →
        IsWellFormed ds game → only_assignment game x ≡ Some d → is_listed x game ≡ false →
        without_assignment x d game
        ≡ without_assignment x (record { term = d.term; behind = nothing_known }) game }
{}
