// Laws of the calls of contexts: they are those of the game's sites, whose answers alone a context reads.

ghost use Rattle.std.specs.Prelude.{◌≡◌, ◌<◌, ℕ, List, Some, [], length, slice_get, true};
ghost use Rattle.cv_syntax_trees.specs.Tree.{Tree};
ghost use Rattle.cv_meaning.specs.Interpretation.{Setting};
ghost use Rattle.cv_scope_rules.specs.Phrases.{Inputs, is_oracle_phrase, is_phrase};
ghost use Rattle.cv_scene.specs.Apt.{IsAptGame};
ghost use Rattle.cv_scene.specs.Contexts.{call_terms, context_of, matching_of};
ghost use Rattle.cv_scene.specs.Reductions.{Reduction, context_of_game, sites};
ghost use Rattle.cv_scene.specs.Scenes.{Scene};
ghost use Rattle.cv_scene.specs.Sites.{Site, sites_of};
ghost use Rattle.cv_inline_draws.specs.callings.Sites.{HasListedKeys};
ghost use Rattle.cv_inline.specs.NextGame.{call_of};
ghost use Rattle.cv_context_laws.specs.calls.Calls.{AreCallsOf};

/// Each call of a game's context is that of the site with its number: below the same replications, with the
/// terms of its instance.
pub fn calls_of_contexts_are_of_sites()
    ensures { (r : Reduction) → is_phrase Inputs r.scene.game ≡ true →
        AreCallsOf r [] (context_of_game r).game }
{}

/// So what is found in the context by the number of a site is the call of this site.
pub fn calls_are_found_by_number()
    ensures { (r : Reduction) (g : Setting) (l : ℕ) (s : Site) → IsAptGame r →
        is_oracle_phrase Inputs (context_of_game r).game ≡ true → l < length (sites r) →
        slice_get (sites r) l ≡ Some s → call_of [] l (context_of_game r).game
        ≡ Some (s.replications, call_terms s.call.instance) }
{}

/// The indices of the key are a list in each call that is found in the context of a game in the grammar.
pub fn keys_of_contexts_are_listed()
    ensures { (r : Reduction) → is_phrase Inputs r.scene.game ≡ true →
        HasListedKeys (context_of_game r).game }
{}

/// A context depends on the answers of its sites alone.
pub fn contexts_read_the_answers_of_their_sites()
    ensures { (s : Scene) (e : Tree) (x : ℕ) (f g : ℕ → ℕ) →
        ((k : ℕ) → k < length (sites_of (matching_of s e x)) → f k ≡ g k) →
        context_of s e x f ≡ context_of s e x g }
{}
