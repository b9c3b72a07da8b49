// Laws of secrecy by pairs: a variable whose definitions copy values of others, of which no two copy one, can't be told from random values.
ghost use Rattle.std.specs.Prelude.{◌≡◌, ◌∷◌, [], ℕ, false, true};
ghost use Rattle.cv_syntax_trees.specs.declared.head.Head.TheVariants.{Secret, SecretOnce};
ghost use Rattle.cv_syntax_trees.specs.Tree.{Empty, Tree, chain, lone};
ghost use Rattle.cv_meaning.specs.Interpretation.{Interpretation, setting_of};
ghost use Rattle.cv_meaning.specs.Runs.{Adversary, Random, Real};
ghost use Rattle.cv_meaning.specs.Satisfies.{Satisfies};
ghost use Rattle.cv_meaning.specs.Experiments.{Guesses};
ghost use Rattle.cv_meaning.specs.Chances.{AtMost, zero_chance};
ghost use Rattle.cv_meaning.specs.Advantage.{advantage, chance_of, secrecy, secrecy_query};
ghost use Rattle.cv_scene.specs.Scenes.{Scene};
ghost use Rattle.cv_derive_laws.specs.stores.Holding.{IsReady};
ghost use Rattle.cv_query_certificates.specs.Accepted.{IsAccepted};
ghost use Rattle.cv_query_certificates.specs.SecretPairs.{AreSecretPairs};
ghost use Rattle.cv_query_certificates.specs.Secrets.{AreUnreadCopies};
ghost use Rattle.cv_query_certificates.specs.WorkedSecrets.{copied};
ghost use Rattle.cv_query_secrets.specs.unread.Worked.{copies_game, scene_of};
ghost use Rattle.cv_query_secrets.specs.sessions.Worked.{by_session, pair_by};

use crate::copies::terms_have_their_values_at_both_copies;
use crate::names::raised_names_are_new;
use crate::unread::{unread_choices_are_secret, unread_copies_are_secret_for_one_session};
use cv_derive_laws::reached::{derivations_of_visited_copies_hold, visited_copies_stay_reached};
use cv_scope_runs::{cells_are_assigned_once, games_are_contexts};

/// A variable each definition of which is a `let` that copies a value of another one, which is only chosen, of the same type, and read by
/// these copies alone; no value of the variable is read; and pairs tell apart each two copies of one value, or show that they are one. In the
/// form of many tests no adversary tells its values from random ones, whatever the interpretation.
pub fn unread_copies_are_secret_by_pairs()
    ensures chances { (s : Scene) (x : ℕ) (parts : Tree) → IsReady s.declarations s.game →
        AreUnreadCopies s x → AreSecretPairs s x parts → (i : Interpretation) →
        Satisfies s.declarations i → (a : Adversary) →
        chance_of (setting_of s.declarations i) (Guesses (Real false x)) a s.game
        ≡ chance_of (setting_of s.declarations i) (Guesses (Random false x)) a s.game }
    ensures secrecy { (s : Scene) (x : ℕ) (parts : Tree) → IsReady s.declarations s.game →
        AreUnreadCopies s x → AreSecretPairs s x parts → (i : Interpretation) →
        Satisfies s.declarations i → (a : Adversary) →
        AtMost (secrecy (setting_of s.declarations i) false x a s.game) zero_chance }
    ensures query { (s : Scene) (x : ℕ) (parts : Tree) → IsReady s.declarations s.game →
        AreUnreadCopies s x → AreSecretPairs s x parts → (i : Interpretation) →
        Satisfies s.declarations i → (a : Adversary) →
        AtMost (advantage (setting_of s.declarations i) (secrecy_query false x) a s.game)
        zero_chance }
{
    derivations_of_visited_copies_hold();
    terms_have_their_values_at_both_copies();
    raised_names_are_new();
    visited_copies_stay_reached();
    cells_are_assigned_once();
    games_are_contexts();
}

/// So an accepted certificate of secrecy closes its query at no cost, in the form of many tests and in that of one.
pub fn accepted_secrets_have_no_advantage()
    ensures many { (s : Scene) (x : ℕ) (certificate : Tree) → IsReady s.declarations s.game →
        IsAccepted s (lone (Secret x)) certificate → (i : Interpretation) →
        Satisfies s.declarations i → (a : Adversary) →
        AtMost (secrecy (setting_of s.declarations i) false x a s.game) zero_chance }
    ensures one { (s : Scene) (x : ℕ) (certificate : Tree) → IsReady s.declarations s.game →
        IsAccepted s (lone (SecretOnce x)) certificate → (i : Interpretation) → (a : Adversary) →
        AtMost (secrecy (setting_of s.declarations i) true x a s.game) zero_chance }
{
    unread_choices_are_secret();
    unread_copies_are_secret_for_one_session();
    unread_copies_are_secret_by_pairs();
}

/// A session's nonce, which it copies, has the pair that is needed: the sessions of two copies of one nonce are equal, since the nonce
/// has the session's index. Without the pair, or with one that says nothing, the certificate gives too little. Where both sessions copy one
/// nonce nothing says that they are equal.
pub fn worked_pairs()
    ensures unread { AreUnreadCopies copied 4 }
    ensures paired { AreSecretPairs copied 4 (by_session 5) }
    ensures missing { AreSecretPairs copied 4 Empty → ⊥ }
    ensures silent { AreSecretPairs copied 4 (chain (pair_by 5 5 [] ∷ [])) → ⊥ }
    ensures elsewhere { AreSecretPairs copied 4 (by_session 4) → ⊥ }
    ensures shared { AreSecretPairs (scene_of copies_game) 7 (by_session 5) → ⊥ }
{}
