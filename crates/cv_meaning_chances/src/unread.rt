// Laws of games that serve alike whatever they draw besides: definitions that are read nowhere may go, and
// an `if` with equal bodies serves as one of them.

ghost use Rattle.std.specs.Prelude.{◌≡◌, ℕ, Bool, true};
ghost use Rattle.cv_syntax_trees.specs.declared.head.Head.{Head};
ghost use Rattle.cv_syntax_trees.specs.Tree.{Tree, Node};
ghost use Rattle.cv_meaning.specs.Tapes.{Tape};
ghost use Rattle.cv_meaning.specs.Interpretation.{Setting};
ghost use Rattle.cv_meaning.specs.Runs.{Adversary, Mode};
ghost use Rattle.cv_meaning.specs.Experiments.{Experiment, holds_on, mode_of, run};
ghost use Rattle.cv_meaning.specs.Chances.{Same};
ghost use Rattle.cv_meaning.specs.Advantage.{chance_of};
ghost use Rattle.cv_meaning_runs.specs.Agreement.{IsLocal};
ghost use Rattle.cv_meaning_runs.specs.Listed.{IsTestable, has_no_calls};
ghost use Rattle.cv_meaning_runs.specs.Replacement.{IsReplaced, Process, ServeAlike, if_tree};
ghost use Rattle.cv_meaning.specs.Replaced.{is_output};
ghost use Rattle.cv_meaning_runs.specs.Simulation.{AreAlike};
ghost use Rattle.cv_meaning_chances.specs.unread.Dropping.{
  AgreesOff,
  AreLikeInputs,
  IsDropped,
  IsUntested,
  draws_none,
  reads_none,
};
ghost use Rattle.cv_meaning.specs.Still.{defines, is_still};

/// Where a game is another one without some `new` and `let`, whose variables it reads nowhere and no test
/// asks for, both runs show the adversary the same on every tape, and their stores differ in these
/// variables alone. So each experiment holds in both or in none; and where what is left draws none of
/// these variables, it has one chance in both. A definition that is put before an output process of a game
/// that doesn't read its variable is such a one.
pub fn unread_definitions_may_go()
    ensures runs { (xs : ℕ → Bool) (g : Setting) (m : Mode) (a : Adversary) (game next : Tree)
        (t : Tape) → IsDropped xs Process game next → IsUntested xs m →
        AreAlike (AgreesOff xs) (AreLikeInputs xs) (run g m a game t) (run g m a next t) }
    ensures tests { (xs : ℕ → Bool) (g : Setting) (x : Experiment) (a : Adversary)
        (game next : Tree) (t : Tape) → IsDropped xs Process game next →
        IsUntested xs (mode_of x) → holds_on g x a game t ≡ holds_on g x a next t }
    ensures chances { (xs : ℕ → Bool) (g : Setting) (x : Experiment) (a : Adversary)
        (game next : Tree) → IsLocal g.side → IsTestable (mode_of x) next →
        has_no_calls next ≡ true → draws_none xs next ≡ true → IsDropped xs Process game next →
        IsUntested xs (mode_of x) → Same (chance_of g x a game) (chance_of g x a next) }
    ensures local { (xs : ℕ → Bool) (h : Head) (term process game next : Tree) (place : ℕ) →
        defines xs h ≡ true → is_still term ≡ true → is_output process ≡ true →
        reads_none xs game ≡ true →
        IsReplaced process (Node h term process) place Process 0 game next →
        IsDropped xs Process next game }
{}

/// An `if` with equal bodies serves as one of them, whatever its condition. So each experiment holds in a
/// game with the body and in one with the `if` in its place, or in none of them; and it has one chance in
/// both, since they have the same cells.
pub fn equal_bodies_serve_as_one()
    ensures served { (g : Setting) (t : Tape) (condition body : Tree) (place : ℕ) →
        is_output body ≡ true →
        ServeAlike (λ v. Unit {0}) g t body (if_tree condition body body) place }
    ensures tests { (g : Setting) (x : Experiment) (a : Adversary) (condition body : Tree)
        (place : ℕ) (game next : Tree) (t : Tape) → is_output body ≡ true →
        IsReplaced body (if_tree condition body body) place Process 0 game next →
        holds_on g x a game t ≡ holds_on g x a next t }
    ensures chances { (g : Setting) (x : Experiment) (a : Adversary) (condition body : Tree)
        (place : ℕ) (game next : Tree) → is_output body ≡ true → is_still condition ≡ true →
        IsReplaced body (if_tree condition body body) place Process 0 game next →
        Same (chance_of g x a game) (chance_of g x a next) }
{}
