// Laws of the functions of an accepted equivalence.

ghost use Rattle.std.specs.Prelude.{List};
ghost use Rattle.cv_syntax_trees.specs.Declarations.{Declaration};
ghost use Rattle.cv_syntax_trees.specs.Tree.{Tree};
ghost use Rattle.cv_meaning.specs.contexts.Groups.{Left, side_group};
ghost use Rattle.cv_group_rules.specs.Symbols.{symbols_of};
ghost use Rattle.cv_group_rules.specs.Faults.{IsAccepted};
ghost use Rattle.cv_scene.specs.LeftTerms.{HasLeftTerms};
ghost use Rattle.cv_match_laws.specs.functions.Forms.{HasLeftForm};

/// The left bodies of an equivalence that keeps the rules of groups are terms over the names of their functions,
/// which they read, and no two names of a function are the same.
pub fn accepted_equivalences_have_left_terms()
    ensures { (ds : List Declaration) (e : Tree) → HasLeftForm e → IsAccepted (symbols_of ds) e →
        HasLeftTerms ds (side_group Left e) }
{}
