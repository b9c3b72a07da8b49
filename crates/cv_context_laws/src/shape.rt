// Laws of the shape of contexts.

ghost use Rattle.std.specs.Prelude.{List};
ghost use Rattle.cv_syntax_trees.specs.Declarations.{Declaration};
ghost use Rattle.cv_syntax_trees.specs.Tree.{Tree};
ghost use Rattle.cv_meaning.specs.Interpretation.{is_constant_of};
ghost use Rattle.cv_scope_rules.specs.declared.position.Position.TheVariants.{Anywhere};
ghost use Rattle.cv_scope_rules.specs.Branches.{
  AreInDifferentBranches,
  AreSitesAlike,
  Each,
  IsApartByBranches,
  IsLike,
  Pairs,
};
ghost use Rattle.cv_scope_rules.specs.Context.{nothing_known};
ghost use Rattle.cv_scope_rules.specs.Phrases.{Inputs, IsWellFormedContext};
ghost use Rattle.cv_scope_rules.specs.Rules.{MayFollow, Names};
ghost use Rattle.cv_scope_rules.specs.Scope.{IsScoped, IsScopedAt, names_of};
ghost use Rattle.cv_scope_rules.specs.Sites.{Site, sites_from};
ghost use Rattle.cv_scope_rules.specs.Standing.{Standing};
ghost use Rattle.cv_scene.specs.Apt.{IsAptGame};
ghost use Rattle.cv_scene.specs.LeftTerms.{HasLeftTerms};
ghost use Rattle.cv_scene.specs.Reductions.{Reduction, context_of_game, matching};
ghost use Rattle.cv_context_laws.specs.shape.Parts.{IsPart};
ghost use Rattle.cv_context_laws.specs.shape.Rules.{AreKept};

/// The context of an apt game, for the left functions of an accepted equivalence, is in the grammar of contexts
/// and binds no constant.
pub fn contexts_are_in_the_grammar()
    ensures { (r : Reduction) → IsAptGame r →
        HasLeftTerms r.scene.declarations (matching r).group →
        IsPart (is_constant_of r.scene.declarations) Inputs (context_of_game r).game }
{}

/// A tree is in array scope where each node keeps by itself the rules of reads, channels and replications, and
/// sites of one name are alike and in different branches, those before the tree included. (In a scoped game
/// they are: `scoped_sites_are_apart`.)
pub fn trees_with_sites_apart_are_scoped()
    ensures tree { (names : Names) (s : Standing) (t : Tree) →
        AreKept names s.position s.known s.place t →
        Each (λ (e : Site) (x : Site). MayFollow s.passed x e) s.sites
        (sites_from s.known.replications s.place t) →
        AreInDifferentBranches s.position s.known.replications s.place t →
        Pairs IsLike (sites_from s.known.replications s.place t) → IsScopedAt names s t }
    ensures game { (ds : List Declaration) (game : Tree) →
        AreKept (names_of ds game) Anywhere nothing_known 0 game → AreSitesAlike game →
        IsApartByBranches game → IsScoped ds game }
{}

/// So the context of an apt game is well-formed where that is known of its nodes and of its sites.
pub fn contexts_with_sites_apart_are_well_formed()
    ensures { (r : Reduction) → IsAptGame r →
        HasLeftTerms r.scene.declarations (matching r).group →
        AreKept (names_of r.scene.declarations (context_of_game r).game) Anywhere nothing_known 0
        (context_of_game r).game → AreSitesAlike (context_of_game r).game →
        IsApartByBranches (context_of_game r).game →
        IsWellFormedContext r.scene.declarations (context_of_game r).game }
{}
