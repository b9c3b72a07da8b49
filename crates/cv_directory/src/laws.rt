ghost use Rattle.std.specs.Prelude.{◌≡◌, ℕ, List, map, option_map};
ghost use Rattle.cv_syntax_trees.specs.Tree.{Tree};
ghost use Rattle.cv_directory.specs.Definitions.{definitions_from, first_in, variable_by};
ghost use Rattle.cv_syntax_trees.specs.sites.Sites.{first_site};
ghost use Rattle.cv_directory.specs.Worked.{answers, asked};

/// The first definition of a variable is its first site.
pub fn definitions_are_sites()
    ensures { (x p : ℕ) (rs : List (ℕ × ℕ)) (t : Tree) →
        option_map variable_by (first_in (definitions_from rs p x t)) ≡ first_site x (map (λ (r : ℕ × ℕ). r.1) rs) t }
{}

/// What the directory of a small game says of its variables.
pub fn worked_directories()
    ensures { map (λ a. answers a.0) asked ≡ map (λ a. a.1) asked }
{}
