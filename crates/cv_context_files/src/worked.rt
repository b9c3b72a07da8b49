// Worked games beside their contexts with the left side: counts of tapes at small sizes.

ghost use Rattle.std.specs.Prelude.{◌≡◌, None, false};
ghost use Rattle.cv_meaning.specs.Advantage.{chance_of};
ghost use Rattle.cv_meaning.specs.Experiments.{Breaks, Guesses};
ghost use Rattle.cv_meaning.specs.Runs.{Random, Real};
ghost use Rattle.cv_meaning.specs.contexts.ContextAdvantage.{context_chance};
ghost use Rattle.cv_meaning.specs.contexts.Groups.{Left, Right};
ghost use Rattle.cv_meaning_laws.specs.Worked.{adversary};
ghost use Rattle.cv_scene.specs.Reductions.{context_of_game, in_game, matching};
ghost use Rattle.cv_scene.specs.Refusals.{first_refusal};
ghost use Rattle.cv_context_files.specs.worked.Authentication.{accepted_query, authenticated, forges, parity};
ghost use Rattle.cv_context_files.specs.worked.Encryption.{compares, encrypted, encryptions, secret};

/// At sizes of two a forged tag is accepted on one of the two tapes of a protocol with a code for authentication, in
/// the game and in its context with the left side; with the right side it is accepted on none of eight, as its finds
/// have cells.
pub fn a_forged_tag_is_counted()
    ensures none { first_refusal (matching authenticated) ≡ None }
    ensures game { chance_of (in_game authenticated parity) (Breaks accepted_query)
        (adversary 2 forges) authenticated.scene.game ≡ record { good = 1; all = 2 } }
    ensures left { context_chance authenticated.scene.declarations parity
        (context_of_game authenticated) Left (Breaks accepted_query) (adversary 2 forges)
        ≡ record { good = 1; all = 2 } }
    ensures right { context_chance authenticated.scene.declarations parity
        (context_of_game authenticated) Right (Breaks accepted_query) (adversary 2 forges)
        ≡ record { good = 0; all = 8 } }
{}

/// At sizes of two and one session, an adversary that compares a cipher text with what a test tells guesses 1 on half
/// of the tapes of a protocol with encryption, in the game and in its context with the left side: for the secret and
/// for a random value. The coins of the encryption are the game's on one side, and drawn for the call on the other.
pub fn a_told_secret_is_counted()
    ensures none { first_refusal (matching encrypted) ≡ None }
    ensures game { chance_of (in_game encrypted encryptions) (Guesses (Real false secret))
        (adversary 4 compares) encrypted.scene.game ≡ record { good = 8; all = 16 } }
    ensures left { context_chance encrypted.scene.declarations encryptions
        (context_of_game encrypted) Left (Guesses (Real false secret)) (adversary 4 compares)
        ≡ record { good = 8; all = 16 } }
    ensures random { chance_of (in_game encrypted encryptions) (Guesses (Random false secret))
        (adversary 4 compares) encrypted.scene.game ≡ record { good = 8; all = 16 } }
    ensures random_left { context_chance encrypted.scene.declarations encryptions
        (context_of_game encrypted) Left (Guesses (Random false secret)) (adversary 4 compares)
        ≡ record { good = 8; all = 16 } }
{}
