ghost use Rattle.std.specs.Prelude.{◌≡◌, ℕ, Bool, true};
ghost use Rattle.cv_syntax_trees.specs.Tree.{Tree};
ghost use Rattle.cv_group_rules.specs.Rules.{shapes_agree};
ghost use Rattle.cv_meaning.specs.contexts.KeyTerms.{AreFineKeyTerms};
ghost use Rattle.cv_inline_sites.specs.branches.Moves.{IsList};
ghost use Rattle.cv_inline_draws.specs.callings.RightFunctions.{HasRightFunctions};

/// An accepted equivalence has functions on the right.
pub fn equivalences_have_right_functions()
    ensures { (equivalence : Tree) → shapes_agree equivalence ≡ true
        → HasRightFunctions equivalence }
{}

/// The index terms of the key of an accepted call are a list.
pub fn index_terms_of_keys_are_lists()
    ensures { (is_index plain : ℕ → Bool) (terms : Tree) → AreFineKeyTerms is_index plain terms
        → IsList terms }
{}
