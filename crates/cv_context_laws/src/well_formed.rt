// Laws of contexts: they are well-formed.

ghost use Rattle.std.specs.Prelude.{◌≡◌, true};
ghost use Rattle.cv_scope_rules.specs.Branches.{AreSitesAlike, IsApartByBranches};
ghost use Rattle.cv_scope_rules.specs.Context.{nothing_known};
ghost use Rattle.cv_scope_rules.specs.Phrases.{IsWellFormedContext};
ghost use Rattle.cv_scope_rules.specs.Scope.{names_of};
ghost use Rattle.cv_scope_rules.specs.declared.position.Position.TheVariants.{Anywhere};
ghost use Rattle.cv_scene.specs.Apt.{IsAptGame};
ghost use Rattle.cv_scene.specs.LeftTerms.{HasLeftTerms};
ghost use Rattle.cv_scene.specs.Reductions.{Reduction, context_of_game, matching};
ghost use Rattle.cv_context_laws.specs.shape.Rules.{AreKept};
ghost use Rattle.cv_context_runs.specs.visits.Fine.{has_free_indices};

/// Sites of one name in the context of an apt game have the same replications and the same types. (In the game
/// they have: `scoped_sites_are_apart`; an answer has one site.)
pub fn sites_of_contexts_are_alike()
    ensures { (r : Reduction) → IsAptGame r →
        HasLeftTerms r.scene.declarations (matching r).group →
        AreSitesAlike (context_of_game r).game }
{}

/// Two sites of one name in the context of an apt game stand in different branches of one `if` or `find`.
pub fn sites_of_contexts_are_apart()
    ensures { (r : Reduction) → IsAptGame r →
        HasLeftTerms r.scene.declarations (matching r).group →
        IsApartByBranches (context_of_game r).game }
{}

/// Each node of the context of an apt game keeps the rules of array scope on reads, channels and replications,
/// where no instance stands in an index of the game.
pub fn contexts_keep_the_rules_of_scope()
    ensures { (r : Reduction) → IsAptGame r →
        HasLeftTerms r.scene.declarations (matching r).group →
        has_free_indices (matching r) r.scene.game ≡ true →
        AreKept (names_of r.scene.declarations (context_of_game r).game) Anywhere nothing_known 0
        (context_of_game r).game }
{}

/// So the context of an apt game is well-formed: it is in array scope and in the grammar of contexts, and it
/// binds no constant.
pub fn contexts_are_well_formed()
    ensures { (r : Reduction) → IsAptGame r →
        HasLeftTerms r.scene.declarations (matching r).group →
        has_free_indices (matching r) r.scene.game ≡ true →
        IsWellFormedContext r.scene.declarations (context_of_game r).game }
{}
