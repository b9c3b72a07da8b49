// Laws of what a game binds, beside the key, coins and answers.

ghost use Rattle.std.specs.Prelude.{◌≡◌, ℕ, List, Some, false, true};
ghost use Rattle.cv_syntax_trees.specs.declared.head.Head.{Head};
ghost use Rattle.cv_syntax_trees.specs.declared.head.Head.TheVariants.{Branch, In, Let, New};
ghost use Rattle.cv_syntax_trees.specs.Tree.{Node, Tree, second};
ghost use Rattle.cv_scene.specs.Refusals.{new_of};
ghost use Rattle.cv_scene.specs.Apt.{AreBindersPlain};
ghost use Rattle.cv_scene.specs.Reductions.{Reduction, is_answer, is_plain};
ghost use Rattle.cv_match_laws.specs.names.Bindings.{HasOwnNames, has_news_alone};

/// A variable whose one definition is a `new` is bound by no other node.
pub fn variables_with_one_new_are_bound_by_it_alone()
    ensures { (x : ℕ) (t : Tree) (definition : ℕ × List (ℕ × ℕ)) →
        new_of t x ≡ Some definition → has_news_alone x t ≡ true }
{}

/// Where the key and coins are bound by `new` alone and answers don't occur, inputs, branches and `let` bind
/// plain names, and a `new` binds no answer; and so it is in each subtree.
pub fn what_is_bound_is_plain()
    ensures below { (r : Reduction) (h : Head) (a b : Tree) → HasOwnNames r (Node h a b) →
        HasOwnNames r a × HasOwnNames r b }
    ensures inputs { (r : Reduction) (channel : ℕ) (a b : Tree) →
        HasOwnNames r (Node (In channel) a b) → AreBindersPlain r (second a) }
    ensures branches { (r : Reduction) (a b : Tree) → HasOwnNames r (Node Branch a b) →
        AreBindersPlain r a }
    ensures lets { (r : Reduction) (x T : ℕ) (a b : Tree) → HasOwnNames r (Node (Let x T) a b) →
        is_plain r x ≡ true }
    ensures news { (r : Reduction) (x T : ℕ) (a b : Tree) → HasOwnNames r (Node (New x T) a b) →
        is_answer r x ≡ false }
{}
