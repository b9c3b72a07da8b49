// Each game without a refusal is apt, and no experiment for which a query asks tests its key or coins.

ghost use Rattle.cv_meaning.specs.Advantage.{IsAsked};
ghost use Rattle.cv_meaning.specs.Experiments.{Experiment, mode_of};
ghost use Rattle.cv_meaning.specs.Queries.{queries_in};
ghost use Rattle.cv_scene.specs.Reductions.{Reduction};
ghost use Rattle.cv_scene.specs.Apt.{IsAptGame, IsTestApt};
ghost use Rattle.cv_context_left_side.specs.refusals.Reducible.{IsReducible};
ghost use Rattle.cv_context_left_side.specs.refusals.Worked.{authenticating};

/// A game that nothing refuses for an equivalence and a key is apt, node by node: so its context is served as the
/// game is.
pub fn a_game_without_a_refusal_is_apt()
    ensures { (r : Reduction) → IsReducible r → IsAptGame r }
{}

/// An experiment for which a query of the file asks tests a variable that is neither the key, nor a coin, nor an
/// answer.
pub fn asked_experiments_test_no_key()
    ensures { (r : Reduction) (x : Experiment) → IsReducible r →
        IsAsked (queries_in r.scene.declarations) x → IsTestApt r (mode_of x) }
{}

/// A small protocol in which messages are sent with tags meets the premises for authentication.
pub fn worked_reduction()
    ensures { IsReducible authenticating }
{}
