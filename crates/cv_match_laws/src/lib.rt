// Laws of instances, and small games with their sites, refusals and contexts.
#![tactic(auto)]

pub mod answers;
pub mod functions;
pub mod instances;
pub mod names;
pub mod values;

ghost use Rattle.std.specs.Prelude.{◌≡◌, ◌↔◌, [], ◌∷◌, map, None, Some};
ghost use Rattle.cv_syntax_trees.specs.Builders.{leaf};
ghost use Rattle.cv_syntax_trees.specs.Tree.{Tree};
ghost use Rattle.cv_meaning.specs.contexts.Groups.{Function};
ghost use Rattle.cv_scene.specs.Instances.{Instance, IsInstance, Matching, instance_of};
ghost use Rattle.cv_match_laws.specs.Named.{ReadsItsNames};
ghost use Rattle.cv_scene.specs.Sites.{sites_of};
ghost use Rattle.cv_scene.specs.Refusals.{KeyInArgument, NotOneSite, Use, first_refusal};
ghost use Rattle.cv_scene.specs.Contexts.{calls_of, context_of};
ghost use Rattle.cv_match_laws.specs.Worked.{answer, authentication, context, game, keyless, matching, place_of, scene, tested_with_key};

/// In a small protocol there is a site of each function of an equivalence for authentication; where the key is
/// sent, that is a use which no function serves.
pub fn worked_sites()
    ensures sites { map place_of (sites_of (matching (game []))) ≡ (10, 0) ∷ (18, 1) ∷ [] }
    ensures none { first_refusal (matching (game [])) ≡ None }
    ensures sent { first_refusal (matching (game (leaf 40 ∷ []))) ≡ Some (Use 3) }
{}

/// Without a `new` the key has no site. A tag that is made with the key is no argument for the function that tests tags.
pub fn worked_refusals()
    ensures keyless { first_refusal (matching keyless) ≡ Some NotOneSite }
    ensures argument { first_refusal (matching tested_with_key) ≡ Some (KeyInArgument 25) }
{}

/// Its context chooses a key where the game draws it, and calls the functions before the statements of the sites.
pub fn worked_context()
    ensures tree { (context_of (scene (game [])) authentication 40 answer).game ≡ context }
    ensures functions { (context_of (scene (game [])) authentication 40 answer).functions
        ≡ 0 ∷ 1 ∷ [] }
    ensures tags { calls_of (sites_of (matching (game []))) 0 ≡ (4 ∷ []) ∷ [] }
    ensures checks { calls_of (sites_of (matching (game []))) 1 ≡ (5 ∷ []) ∷ [] }
{}

/// Where a function reads each of its names, a term is its instance exactly where the computed test finds one, with these very
/// terms for the names; and there is no other.
pub fn instances_are_decided()
    ensures decided { (M : Matching) (f : Function) (I : Instance) (m : Tree)
        → ReadsItsNames M.group f → (instance_of M f m ≡ Some I) ↔ IsInstance M f I m }
    ensures found { (M : Matching) (f : Function) (I : Instance) (m : Tree)
        → instance_of M f m ≡ Some I → IsInstance M f I m }
    ensures unique { (M : Matching) (f : Function) (I J : Instance) (m : Tree)
        → ReadsItsNames M.group f → IsInstance M f I m → IsInstance M f J m → I ≡ J }
{}
