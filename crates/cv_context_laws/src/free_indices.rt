// Laws of instances in games: none stands in an index.

ghost use Rattle.std.specs.Prelude.{◌≡◌, None, true};
ghost use Rattle.cv_syntax_trees.specs.Declarations.{Declaration};
ghost use Rattle.cv_syntax_trees.specs.Tree.{Tree};
ghost use Rattle.cv_group_rules.specs.Symbols.{symbols_of};
ghost use Rattle.cv_group_rules.specs.Faults.{IsAccepted};
ghost use Rattle.cv_scope_rules.specs.Phrases.{IsWellFormed};
ghost use Rattle.cv_scope_rules.specs.typing.Parts.{IsTypedGame};
ghost use Rattle.cv_typing_runs.specs.Games.{HasKnownNames};
ghost use Rattle.cv_scene.specs.Refusals.{first_refusal};
ghost use Rattle.cv_scene.specs.Reductions.{Reduction, matching};
ghost use Rattle.cv_match_laws.specs.functions.Forms.{HasLeftForm};
ghost use Rattle.cv_context_runs.specs.visits.Fine.{has_free_indices};

/// No instance stands in the indices of a read, in a typed game that nothing refuses for an accepted
/// equivalence: each instance uses the key, and indices don't.
pub fn indices_have_no_instance()
    ensures { (r : Reduction) → IsWellFormed r.scene.declarations r.scene.game →
        IsTypedGame r.scene.declarations r.scene.game →
        HasKnownNames r.scene.declarations r.scene.game → HasLeftForm r.equivalence →
        IsAccepted (symbols_of r.scene.declarations) r.equivalence →
        first_refusal (matching r) ≡ None →
        has_free_indices (matching r) r.scene.game ≡ true }
{}
