// Laws of the names of contexts: their types and roles, and what calls bind.

ghost use Rattle.std.specs.Prelude.{◌≡◌, ℕ, Bool, false, true};
ghost use Rattle.std.specs.List.{AllByRecursion};
ghost use Rattle.cv_syntax_trees.specs.Tree.{second};
ghost use Rattle.cv_meaning.specs.contexts.Sides.{Context};
ghost use Rattle.cv_scope_rules.specs.typing.Parts.{IsTypedGame};
ghost use Rattle.cv_scope_rules.specs.Phrases.{binds_none};
ghost use Rattle.cv_scene.specs.Apt.{IsAptGame};
ghost use Rattle.cv_scene.specs.LeftTerms.{HasLeftTerms};
ghost use Rattle.cv_scene.specs.Reductions.{Reduction, context_of_game, matching};
ghost use Rattle.cv_meaning.specs.contexts.Inlined.{is_own};
ghost use Rattle.cv_inline.specs.NextGame.{Calling, callings_of};
ghost use Rattle.cv_inline_laws.specs.runs.Texts.{Text};
ghost use Rattle.cv_inline_names_laws.specs.cells.Layout.{IsContextText};
ghost use Rattle.cv_context_laws.specs.types.Typed.{HasGameRoles, variable_type};

/// The context of an apt game that typing accepts is as the grammar has it: what stands in a term there defines
/// nothing, each definition has the type that its variable has in the game, the key and answers are gone in the next
/// game, and what is chosen stays, where the roles of names are those of the game.
pub fn contexts_are_laid_out()
    ensures { (r : Reduction) (T : Text) → IsAptGame r →
        HasLeftTerms r.scene.declarations (matching r).group →
        IsTypedGame r.scene.declarations r.scene.game → HasGameRoles T r →
        IsContextText T (variable_type r.scene.game) (context_of_game r).game }
{}

/// In a context the function of each call binds none of the names that the right side doesn't bind: its arguments,
/// and what its body assigns, are others.
pub fn calls_bind_what_their_side_binds()
    ensures { (barred : ℕ → Bool) (c : Context) → binds_none barred (second c.equivalence) ≡ true →
        AllByRecursion (λ (k : Calling). (x : ℕ) → barred x ≡ true → is_own k.caller x ≡ false)
        (callings_of c) }
{}
