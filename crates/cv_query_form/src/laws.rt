ghost use Rattle.std.specs.Prelude.{◌≡◌, ◌↔◌, ℕ, true, List, None, Some, length};
ghost use Rattle.cv_syntax_trees.specs.Tree.{Tree};
ghost use Rattle.cv_meaning.specs.Correspondences.{alternatives_of};
ghost use Rattle.cv_query_form.specs.Rules.{AreAsked, IsFirstRefused, MayBeAsked};
ghost use Rattle.cv_query_form.specs.Tests.{count_of, first_refused, may_be_asked};

/// The test of a query says whether it may be asked, none is refused exactly where all may be, and the number that is
/// computed is that of the first query that may not.
pub fn queries_are_decided()
    ensures query { (game query : Tree) → (may_be_asked game query ≡ true) ↔ MayBeAsked game query }
    ensures all { (game : Tree) (queries : List Tree)
        → (first_refused game queries ≡ None) ↔ AreAsked game queries }
    ensures first { (game : Tree) (queries : List Tree) (k : ℕ)
        → (first_refused game queries ≡ Some k) ↔ IsFirstRefused game queries k }
{}

/// The alternatives of a right side are counted without listing one.
pub fn alternatives_are_counted()
    ensures { (right : Tree) → length (alternatives_of right) ≡ count_of right }
{}
