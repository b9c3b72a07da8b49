// Laws of instances in games, by which games without a refusal are apt.

ghost use Rattle.std.specs.Prelude.{◌≡◌, ℕ, List, None, Some, false, slice_get, true};
ghost use Rattle.cv_syntax_trees.specs.Declarations.{Declaration};
ghost use Rattle.cv_syntax_trees.specs.Tree.{Tree, first};
ghost use Rattle.cv_meaning.specs.Interpretation.{Interpretation};
ghost use Rattle.cv_meaning.specs.Side.{CallNumber};
ghost use Rattle.cv_meaning.specs.contexts.Bodies.{function_called};
ghost use Rattle.cv_meaning.specs.contexts.Groups.{function_at};
ghost use Rattle.cv_scope_rules.specs.Phrases.{Inputs, Message, Term, Terms, is_phrase};
ghost use Rattle.cv_scope_rules.specs.declared.position.Position.TheVariants.{Anywhere};
ghost use Rattle.cv_scene.specs.Instances.{Matching, call_at};
ghost use Rattle.cv_scene.specs.Refusals.{first_coin_use, uses};
ghost use Rattle.cv_scene.specs.Sites.{Site};
ghost use Rattle.cv_scene.specs.LeftTerms.{HasLeftTerms};
ghost use Rattle.cv_scene.specs.Apt.{AreTermsApt, IsSiteApt, has_value};
ghost use Rattle.cv_scene.specs.Reductions.{Reduction, is_coin, matching, oracles, sites};
ghost use Rattle.cv_match_laws.specs.instances.Uses.{uses_outside};
ghost use Rattle.cv_context_runs.specs.instances.Statements.{AreTermsOf, HasOwnSites};

/// Only terms are instances of left functions.
pub fn instances_are_terms()
    ensures { (ds : List Declaration) (M : Matching) (t : Tree) → HasLeftTerms ds M.group →
        has_value t ≡ false → call_at M t ≡ None }
{}

/// The context of a game in the grammar has a call for each site, by its number; so the left side answers it by
/// the site's function, at each tuple.
pub fn each_site_calls_its_function()
    ensures { (r : Reduction) (i : Interpretation) (s : Site) (number : ℕ) (n : CallNumber) →
        HasLeftTerms r.scene.declarations (matching r).group →
        is_phrase Inputs r.scene.game ≡ true → slice_get (sites r) number ≡ Some s →
        function_at (matching r).group s.call.position ≡ Some s.call.function →
        n.site ≡ number → function_called (oracles r i) n ≡ Some s.call.function }
{}

/// Where coins are their sites' own, a game uses the variable of a coin in sites alone, and the key is no coin.
pub fn coins_are_used_in_sites_alone()
    ensures outside { (r : Reduction) (y : ℕ) →
        HasLeftTerms r.scene.declarations (matching r).group →
        first_coin_use (matching r) (sites r) ≡ None → is_coin r y ≡ true →
        uses_outside (matching r) Anywhere y r.scene.game ≡ 0 }
    ensures key { (r : Reduction) → HasLeftTerms r.scene.declarations (matching r).group →
        first_coin_use (matching r) (sites r) ≡ None → is_coin r r.key ≡ false }
{}

/// In a game whose coins are their sites' own and where no argument reads the key, each site is apt below its
/// replications, if the key is not used in the indices of its own read there.
pub fn sites_are_apt()
    ensures { (r : Reduction) (s : Site) (number : ℕ) → HasOwnSites r →
        slice_get (sites r) number ≡ Some s → uses r.key (first s.call.instance.key) ≡ 0 →
        IsSiteApt r s.replications number s }
{}

/// So are the terms of each statement of such a game.
pub fn statements_are_apt()
    ensures term { (r : Reduction) (rs : List (ℕ × ℕ)) (number place : ℕ) (t : Tree) →
        HasOwnSites r → AreTermsOf r rs number place t → is_phrase Term t ≡ true →
        AreTermsApt r rs number t }
    ensures terms { (r : Reduction) (rs : List (ℕ × ℕ)) (number place : ℕ) (t : Tree) →
        HasOwnSites r → AreTermsOf r rs number place t → is_phrase Terms t ≡ true →
        AreTermsApt r rs number t }
    ensures message { (r : Reduction) (rs : List (ℕ × ℕ)) (number place : ℕ) (t : Tree) →
        HasOwnSites r → AreTermsOf r rs number place t → is_phrase Message t ≡ true →
        AreTermsApt r rs number t }
{}
