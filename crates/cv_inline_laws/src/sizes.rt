// A law of next games: their sizes and depths don't depend on the drawn names.

ghost use Rattle.std.specs.Prelude.{◌≡◌, ℕ};
ghost use Rattle.cv_syntax_trees.specs.Tree.{depth, size};
ghost use Rattle.cv_meaning.specs.contexts.Sides.{Context};
ghost use Rattle.cv_meaning.specs.contexts.Inlined.{Drawn};
ghost use Rattle.cv_inline.specs.NextGame.{next_of};

/// Whatever names and labels are drawn for it, the next game of a context has one size and one depth.
pub fn names_change_no_extents()
    ensures size { (c : Context) (x : ℕ) (d e : Drawn) → size (next_of c x d) ≡ size (next_of c x e) }
    ensures depth { (c : Context) (x : ℕ) (d e : Drawn) → depth (next_of c x d)
        ≡ depth (next_of c x e) }
{}
