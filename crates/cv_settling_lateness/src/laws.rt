// Laws of variables that come later than a place.
ghost use Rattle.std.specs.Prelude.{◌≡◌, true};
ghost use Rattle.cv_scope_rules.specs.Phrases.{Inputs, is_phrase};
ghost use Rattle.cv_syntax_trees.specs.Tree.{Tree};
ghost use Rattle.cv_settling_lateness.specs.Bodies.{LateAtABody, has_whole_branches};

/// A variable comes later than the body of a branch exactly where it comes later than the `find`, and the branch doesn't bind it. So one
/// question at the `find` serves all its branches. The branches of games have all their parts.
pub fn late_at_a_body()
    ensures late { LateAtABody }
    ensures whole { (game : Tree) → is_phrase Inputs game ≡ true → has_whole_branches game ≡ true }
{}
