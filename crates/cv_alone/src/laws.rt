ghost use Rattle.std.specs.Prelude.{◌≡◌, ◌⊎◌, ◌∷◌, [], ℕ, true, false, List, EachIndex, Ok, length, slice_index};
ghost use Rattle.cv_lex.specs.Lexis.{Token, end_token, tokens_of};
ghost use Rattle.cv_alone.specs.Alone.{alone, has_query, is_in_line};
ghost use Rattle.cv_alone.specs.Parts.{tokens_kept, queries_in};
ghost use Rattle.cv_alone.specs.Worked.{first_alone, none_alone, second_alone, small};

/// What is left out is spaces, so that lines and columns stay what they were.
pub fn alone_keeps_places()
    ensures length { (k : ℕ) (bytes : List ℕ) → length (alone k bytes) ≡ length bytes }
    ensures spaces { (k : ℕ) (bytes : List ℕ) → EachIndex bytes (λ i.
        (slice_index (alone k bytes) i ≡ slice_index bytes i)
        ⊎ (slice_index (alone k bytes) i ≡ 32)) }
    ensures line_ends { (k : ℕ) (bytes : List ℕ) → EachIndex bytes (λ i.
        is_in_line (slice_index bytes i) ≡ false
        → slice_index (alone k bytes) i ≡ slice_index bytes i) }
{}

/// The tokens of a file with one query alone are those that aren't left out, where they stood.
pub fn alone_keeps_the_other_tokens()
    ensures query { (k : ℕ) (bytes : List ℕ) (ts : List Token) → tokens_of bytes ≡ Ok ts
        → has_query k ts ≡ true → tokens_of (alone k bytes) ≡ Ok (tokens_kept k ts) }
    ensures one_query { (k : ℕ) (bytes : List ℕ) (ts : List Token) → tokens_of bytes ≡ Ok ts
        → has_query k ts ≡ true → queries_in (tokens_kept k ts) ≡ 1 }
    ensures nothing { (k : ℕ) (bytes : List ℕ) (ts : List Token) → tokens_of bytes ≡ Ok ts
        → has_query k ts ≡ false → tokens_of (alone k bytes) ≡ Ok (end_token (length bytes) ∷ []) }
{}

/// A small file with two queries and a proof block.
pub fn worked_files()
    ensures first { alone 1 small ≡ first_alone }
    ensures second { alone 2 small ≡ second_alone }
    ensures third { alone 3 small ≡ none_alone }
    ensures none { alone 0 small ≡ none_alone }
{}
