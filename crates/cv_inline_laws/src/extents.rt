// Laws of next games: how large they are, told by their contexts.

ghost use Rattle.std.specs.Prelude.{◌≡◌, ℕ, []};
ghost use Rattle.cv_syntax_trees.specs.Tree.{Tree, depth, size};
ghost use Rattle.cv_meaning.specs.contexts.Sides.{Context};
ghost use Rattle.cv_meaning.specs.contexts.Inlined.{Drawn};
ghost use Rattle.cv_inline.specs.NextGame.{inlined_calls_of, next_of};
ghost use Rattle.cv_inline_laws.specs.extents.Extents.{all_nodes, extent, longest_path, of_game};

/// Trees are measured by their sizes and by their depths.
pub fn sizes_and_depths_are_measures()
    ensures nodes { (t : Tree) → extent all_nodes t ≡ size t }
    ensures path { (t : Tree) → extent longest_path t ≡ depth t }
{}

/// A context tells how large and how deep its next game is, without the copies of its statements.
pub fn contexts_tell_extents_of_next_games()
    ensures size { (c : Context) (x : ℕ) (d : Drawn) →
        size (next_of c x d) ≡ of_game all_nodes (inlined_calls_of c x d) 1 [] c.game }
    ensures depth { (c : Context) (x : ℕ) (d : Drawn) →
        depth (next_of c x d) ≡ of_game longest_path (inlined_calls_of c x d) 0 [] c.game }
{}
