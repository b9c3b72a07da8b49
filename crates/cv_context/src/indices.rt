// Laws of the indices of games: no variable that a `new` chooses is one, and none is used in one.

ghost use Rattle.std.specs.Prelude.{◌≡◌, ℕ, List, [], Some, true};
ghost use Rattle.cv_syntax_trees.specs.Declarations.{Declaration};
ghost use Rattle.cv_syntax_trees.specs.Tree.{Tree};
ghost use Rattle.cv_syntax_trees.specs.declared.sites.sort.Sort.TheVariants.{OfType};
ghost use Rattle.cv_syntax_trees.specs.sites.Sites.{sites_of};
ghost use Rattle.cv_scope_rules.specs.Phrases.{Inputs, IsWellFormed, is_phrase};
ghost use Rattle.cv_scope_rules.specs.Scope.{is_variable};
ghost use Rattle.cv_scope_rules.specs.typing.Parts.{IsTypedGame};
ghost use Rattle.cv_scope_rules.specs.typing.Signature.{OfGame, variable_sort};
ghost use Rattle.cv_typing_runs.specs.Games.{HasKnownNames};
ghost use Rattle.cv_scene.specs.Refusals.{new_of};
ghost use Rattle.cv_context.specs.indices.Indices.{indices_are_new, indices_use_none};

/// A variable whose one definition is a `new` has values of the type that is named there.
pub fn variables_with_one_new_have_its_type()
    ensures { (game : Tree) (x : ℕ) (definition : ℕ × List (ℕ × ℕ)) →
        is_phrase Inputs game ≡ true → new_of game x ≡ Some definition →
        variable_sort (OfGame (sites_of game)) x ≡ Some (OfType definition.0) }
{}

/// In array scope each replication binds an index that none above it binds and that no variable has.
pub fn replications_bind_new_indices()
    ensures { (ds : List Declaration) (game : Tree) → IsWellFormed ds game →
        indices_are_new (is_variable game) [] game ≡ true }
{}

/// A typed game reads no variable with values of a type in an index: index terms are indices.
pub fn indices_are_no_values()
    ensures { (ds : List Declaration) (game : Tree) (x T : ℕ) → IsWellFormed ds game →
        IsTypedGame ds game → HasKnownNames ds game →
        variable_sort (OfGame (sites_of game)) x ≡ Some (OfType T) →
        indices_use_none x game ≡ true }
{}
