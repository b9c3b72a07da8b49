// The law that the eight elementary steps are sound.

ghost use Rattle.std.specs.Prelude.{ℕ};
ghost use Rattle.cv_syntax_trees.specs.Tree.{Tree};
ghost use Rattle.cv_scene.specs.Pruning.{Part};
ghost use Rattle.cv_steps.specs.Elementary.{
  let_step,
  new_step,
  prune_step,
  rename_step,
  rewrite_step,
  split_step,
  unlet_step,
  unnew_step,
};
ghost use Rattle.cv_derive_laws.specs.stores.Steps.{IsSound};

/// Each elementary step that is accepted in a game keeps chances, where derivations are sound: it divides a process by
/// a condition, assigns or chooses a new variable, drops a choice that is read nowhere, gives a variable another name,
/// puts a term in place of its variable, rewrites a term to one that is derived to be equal, or prunes a body at which
/// `false` is derived. It keeps declared sorts and values of choices and tests, and binds no new index.
pub fn elementary_steps_are_sound()
    ensures split_step { (p : ℕ) (m : Tree) → IsSound (split_step p m) }
    ensures let_step { (p x T : ℕ) (m : Tree) → IsSound (let_step p x T m) }
    ensures new_step { (p x T : ℕ) → IsSound (new_step p x T) }
    ensures unnew_step { (x : ℕ) → IsSound (unnew_step x) }
    ensures rename_step { (x y : ℕ) → IsSound (rename_step x y) }
    ensures unlet_step { (x : ℕ) → IsSound (unlet_step x) }
    ensures rewrite_step { (p : ℕ) (m by : Tree) → IsSound (rewrite_step p m by) }
    ensures prune_step { (p : ℕ) (part : Part) (by : Tree) → IsSound (prune_step p part by) }
{}
