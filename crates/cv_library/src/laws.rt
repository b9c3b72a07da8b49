ghost use Rattle.std.specs.Prelude.{◌≡◌, ◌<◌, ◌^◌, ℕ, List, Ok};
ghost use Rattle.cv_lex.specs.Lexis.{Token};
ghost use Rattle.cv_library.specs.Expansions.{renamed};
ghost use Rattle.cv_library.specs.Givens.{AreGiven, Given, tokens_given};

/// The tokens that are computed are those that are given, and no others are.
pub fn given_tokens_are_computed()
    ensures is { (g : Given) (ts : List Token) → tokens_given g ≡ Ok ts → AreGiven g ts }
    ensures only { (g : Given) (ts : List Token) → AreGiven g ts → tokens_given g ≡ Ok ts }
{}

/// Two uses share no name that was renamed: the name tells the number of its use.
pub fn uses_share_no_names()
    ensures { (j k : ℕ) (name other : List ℕ) → j < 10 ^ 64 → k < 10 ^ 64
        → renamed j name ≡ renamed k other → j ≡ k }
{}
