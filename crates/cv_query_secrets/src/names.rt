// The names that the indices of a second copy have in a certificate.

ghost use Rattle.std.specs.Prelude.{ℕ};
ghost use Rattle.cv_syntax_trees.specs.Tree.{Tree};
ghost use Rattle.cv_scene.specs.Scenes.{Scene};
ghost use Rattle.cv_derive_laws.specs.reached.Copies.{IsAbove};
ghost use Rattle.cv_query_certificates.specs.Marks.{raise_of};

/// A raised name is none of a constant of the file, of a variable of the game, or of an index at a place. So a term over the indices of
/// one copy has its value where those of a second copy are current too.
pub fn raised_names_are_new()
    ensures { (s : Scene) (certificate : Tree) (place : ℕ) →
        IsAbove s place (raise_of s certificate) }
{}
