// Games in which no value of some variables is read, but where a `let` copies one: two runs of one on two tapes.
ghost use Rattle.std.specs.Prelude.{◌≡◌, ℕ, true, List, [], Option};
ghost use Rattle.cv_meaning.specs.Experiments.{Guesses, holds_on, visits_of_run};
ghost use Rattle.cv_meaning.specs.Interpretation.{Setting};
ghost use Rattle.cv_meaning.specs.Runs.{Adversary, Mode};
ghost use Rattle.cv_meaning.specs.Tapes.{Tape};
ghost use Rattle.cv_meaning_runs.specs.Moments.{Moment};
ghost use Rattle.cv_meaning_runs.specs.Replacement.{Process};
ghost use Rattle.cv_meaning_runs.specs.Simulation.{InOrder};
ghost use Rattle.cv_query_certificates.specs.Secrets.{AreUnreadChoices};
ghost use Rattle.cv_costs.specs.quiet.Quiet.{IsQuiet, Kind, only};
ghost use Rattle.cv_costs.specs.quiet.Twins.{AreVisitsRelated, HasTwins};
ghost use Rattle.cv_scope_rules.specs.Phrases.{Inputs, is_phrase};
ghost use Rattle.cv_syntax_trees.specs.Tree.{Tree};

/// Which variables are unread, how their values on two tapes are related, and what is expected of moments.
pub trait Twins {
    ghost kind: { Kind };

    ghost link: { ℕ → List ℕ → Option ℕ → Option ℕ → Type 0 };

    ghost expected: { Moment → Type 0 };
}

/// Two runs of a game that reads no value of some variables, on tapes that choose alike but for these, are
/// visited alike: at the same constructs in the same copies, with memories that agree but for the values of
/// these variables, which are related. So guesses hold on both tapes or on none.
pub fn quiet_games_run_alike<T: Twins>()
    ensures visits { (g : Setting) (m n : Mode) (a : Adversary) (game : Tree) (t u : Tape) →
        HasTwins T.kind T.link T.expected g m n a game t u →
        InOrder (AreVisitsRelated T.kind.unread T.link)
        (visits_of_run g m a game t) (visits_of_run g n a game u) }
    ensures guesses { (g : Setting) (m n : Mode) (a : Adversary) (game : Tree) (t u : Tape) →
        HasTwins T.kind T.link T.expected g m n a game t u →
        holds_on g (Guesses m) a game t ≡ holds_on g (Guesses n) a game u }
{}

/// A game in which no value of a variable is read that `new` alone defines is quiet.
pub fn unread_choices_are_quiet()
    ensures { (x : ℕ) (game : Tree) → is_phrase Inputs game ≡ true → AreUnreadChoices game x →
        IsQuiet (only x) [] Process game }
{}
