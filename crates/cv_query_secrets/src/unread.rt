// A secret that is only chosen, or that copies what is only chosen, and that is never read, can't be told from
// random values.

ghost use Rattle.std.specs.Prelude.{◌≡◌, ℕ, Bool, false, true};
ghost use Rattle.cv_syntax_trees.specs.Tree.{Tree};
ghost use Rattle.cv_meaning.specs.Tapes.{Tape};
ghost use Rattle.cv_meaning.specs.Interpretation.{Interpretation, setting_of};
ghost use Rattle.cv_meaning.specs.Runs.{Adversary, Real, Random};
ghost use Rattle.cv_meaning.specs.Experiments.{Guesses, holds_on};
ghost use Rattle.cv_meaning.specs.Chances.{AtMost, zero_chance};
ghost use Rattle.cv_meaning.specs.Advantage.{advantage, chance_of, secrecy, secrecy_query};
ghost use Rattle.cv_scope_rules.specs.Phrases.{IsWellFormed};
ghost use Rattle.cv_scene.specs.Scenes.{Scene};
ghost use Rattle.cv_derive_laws.specs.stores.Holding.{IsReady};
ghost use Rattle.cv_query_certificates.specs.Secrets.{AreUnreadChoices, AreUnreadCopies};
ghost use Rattle.cv_meaning_laws.specs.Worked.{adversary, sessions_game, sized};
ghost use Rattle.cv_query_secrets.specs.unread.Exchanged.{exchanged_on};
ghost use Rattle.cv_query_secrets.specs.unread.Worked.{copies_game, scene_of, tests_copies};

/// A variable whose definitions are all `new`, and of which no value is read. On each tape, the run in which
/// tests tell random values ends with the guess 1 exactly if the run in which they tell the variable's values
/// does on the tape on which the cells of the variable's draws and those of the tests change places.
pub fn unread_choices_change_places_with_tests()
    ensures { (s : Scene) (x : ℕ) → IsWellFormed s.declarations s.game →
        AreUnreadChoices s.game x →
        (i : Interpretation) (one : Bool) (a : Adversary) (t : Tape) →
        holds_on (setting_of s.declarations i) (Guesses (Random one x)) a s.game t
        ≡ holds_on (setting_of s.declarations i) (Guesses (Real one x)) a s.game
        (exchanged_on x t) }
{}

/// So no adversary tells the values of such a variable from random ones, whatever the interpretation, in the
/// form of many tests and in that of one: both runs have the same chance to end with the guess 1, and the
/// query has no advantage.
pub fn unread_choices_are_secret()
    ensures chances { (s : Scene) (x : ℕ) → IsWellFormed s.declarations s.game →
        AreUnreadChoices s.game x → (i : Interpretation) (one : Bool) (a : Adversary) →
        chance_of (setting_of s.declarations i) (Guesses (Real one x)) a s.game
        ≡ chance_of (setting_of s.declarations i) (Guesses (Random one x)) a s.game }
    ensures secrecy { (s : Scene) (x : ℕ) → IsWellFormed s.declarations s.game →
        AreUnreadChoices s.game x → (i : Interpretation) (one : Bool) (a : Adversary) →
        AtMost (secrecy (setting_of s.declarations i) one x a s.game) zero_chance }
    ensures query { (s : Scene) (x : ℕ) → IsWellFormed s.declarations s.game →
        AreUnreadChoices s.game x → (i : Interpretation) (one : Bool) (a : Adversary) →
        AtMost (advantage (setting_of s.declarations i) (secrecy_query one x) a s.game)
        zero_chance }
{}

/// A variable each definition of which is a `let` that copies a value of another one, which is only chosen, of
/// the same type, and read by these copies alone; no value of the variable is read. In the form of one test no
/// adversary tells its values from random ones, whatever the interpretation.
pub fn unread_copies_are_secret_for_one_session()
    ensures chances { (s : Scene) (x : ℕ) → IsReady s.declarations s.game →
        AreUnreadCopies s x → (i : Interpretation) (a : Adversary) →
        chance_of (setting_of s.declarations i) (Guesses (Real true x)) a s.game
        ≡ chance_of (setting_of s.declarations i) (Guesses (Random true x)) a s.game }
    ensures secrecy { (s : Scene) (x : ℕ) → IsReady s.declarations s.game →
        AreUnreadCopies s x → (i : Interpretation) (a : Adversary) →
        AtMost (secrecy (setting_of s.declarations i) true x a s.game) zero_chance }
    ensures query { (s : Scene) (x : ℕ) → IsReady s.declarations s.game →
        AreUnreadCopies s x → (i : Interpretation) (a : Adversary) →
        AtMost (advantage (setting_of s.declarations i) (secrecy_query true x) a s.game)
        zero_chance }
{}

/// The nonces of two sessions are unread choices, and two copies of one nonce are unread copies. Such copies are
/// secret in the form of one test alone: an adversary that tests both tells them from random values.
pub fn worked_secrets()
    ensures chosen { AreUnreadChoices sessions_game 4 }
    ensures copied { AreUnreadCopies (scene_of copies_game) 7 }
    ensures one { advantage (sized 2 2 1) (secrecy_query true 7) (adversary 6 tests_copies)
        copies_game ≡ record { good = 0; all = 64 } }
    ensures many { advantage (sized 2 2 1) (secrecy_query false 7) (adversary 6 tests_copies)
        copies_game ≡ record { good = 32; all = 64 } }
{}
