// Laws of the queries of a file: in no game of a sequence of accepted steps do they ask for an index.

ghost use Rattle.std.specs.Prelude.{ℕ, Bool, List};
ghost use Rattle.cv_syntax_trees.specs.Declarations.{Declaration};
ghost use Rattle.cv_syntax_trees.specs.Tree.{Tree};
ghost use Rattle.cv_meaning.specs.Queries.{queries_in};
ghost use Rattle.cv_query_form.specs.Rules.{AreAsked};
ghost use Rattle.cv_scope_rules.specs.Scope.{IsScoped};
ghost use Rattle.cv_scene.specs.Scenes.{Scene};
ghost use Rattle.cv_scene.specs.Pruning.{Part};
ghost use Rattle.cv_derive_laws.specs.stores.Steps.{AreSound};
ghost use Rattle.cv_steps.specs.Asked.{AskForNoIndex};
ghost use Rattle.cv_steps.specs.Elementary.{
  let_step,
  new_step,
  prune_step,
  rename_step,
  rewrite_step,
  split_step,
  unlet_step,
  unnew_step,
};
ghost use Rattle.cv_steps.specs.Sequences.{IsSequence, Passage, scene};
ghost use Rattle.cv_context_right_side.specs.queries.Bound.{BindsNoNewIndex};

/// Queries that may be asked of a game in array scope ask for no index of it: what they ask for has values of a type,
/// and no index is such a variable.
pub fn queries_ask_for_no_index()
    ensures { (s : Scene) → IsScoped s.declarations s.game →
        AreAsked s.game (queries_in s.declarations) → AskForNoIndex s }
{}

/// An elementary step that is accepted binds no index that the game has not.
pub fn elementary_steps_bind_no_new_index()
    ensures split_step { (p : ℕ) (m : Tree) → BindsNoNewIndex (split_step p m) }
    ensures let_step { (p x T : ℕ) (m : Tree) → BindsNoNewIndex (let_step p x T m) }
    ensures new_step { (p x T : ℕ) → BindsNoNewIndex (new_step p x T) }
    ensures unnew_step { (x : ℕ) → BindsNoNewIndex (unnew_step x) }
    ensures rename_step { (x y : ℕ) → BindsNoNewIndex (rename_step x y) }
    ensures unlet_step { (x : ℕ) → BindsNoNewIndex (unlet_step x) }
    ensures rewrite_step { (p : ℕ) (m by : Tree) → BindsNoNewIndex (rewrite_step p m by) }
    ensures prune_step { (p : ℕ) (part : Part) (by : Tree) →
        BindsNoNewIndex (prune_step p part by) }
{}

/// So in each game that accepted steps lead to, where each is sound, the queries ask for no index if they ask for none
/// in the first.
pub fn sequences_ask_for_no_index()
    ensures { (ds : List Declaration) (known : ℕ → Bool) (first : Tree)
        (passages : List Passage) (last : Tree) → AskForNoIndex (scene ds known first) →
        AreSound passages → IsSequence ds known first passages last →
        AskForNoIndex (scene ds known last) }
{}
