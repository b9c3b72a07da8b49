// How deep tokens stand: reading refuses a token for its depth exactly where so many brackets and syntax nodes
// are open, and a token that it refuses by the grammar is one with which nothing goes on at any depth.

ghost use Rattle.std.specs.Prelude.{◌≡◌, ◌↔◌, ℕ, suc, true, Bool, List, ◌∷◌, Err};
ghost use Rattle.cv_parse_notation.specs.Fits.{goes_on, within};
ghost use Rattle.cv_parse_notation.specs.Reads.{Syntax, Nesting};
ghost use Rattle.cv_parse_notation.specs.Spells.{Kind};
ghost use Rattle.cv_parse_notation.specs.Whole.{Dead, IsWhole, reads_whole};
ghost use Rattle.cv_parse_notation.specs.declared.sign.Mark.TheVariants.{Process};
ghost use Rattle.cv_parse_notation.specs.declared.sign.Sign.{Sign};
ghost use Rattle.cv_parse_notation.specs.declared.sign.Sign.TheVariants.{Mark, Number};
ghost use Rattle.cv_parse_grammar.specs.Files.{IsSomeFile, read_whole};
ghost use Rattle.cv_parse_grammar.specs.Rules.{file, heads, rule, tails};
ghost use Rattle.cv_parse_grammar.specs.Terms.{term};
ghost use Rattle.cv_parse_grammar.specs.Worked.{nested};
ghost use Rattle.cv_parse_grammar.specs.depth.Before.{IsBefore, reads_before};
ghost use Rattle.cv_parse_grammar.specs.depth.Depth.{HasDepth, IsTooDeep};
ghost use Rattle.cv_parse_grammar.specs.depth.Files.{IsNestedTooDeep, parentheses_before, process};

/// A token stands at one depth only, where the tokens before it begin a file, a game or a term at all.
pub fn depth_is_unique()
    ensures files { (tokens rest : List Sign) (d e : ℕ) →
        HasDepth heads rule file tokens rest d → HasDepth heads rule file tokens rest e → d ≡ e }
    ensures games { (tokens rest : List Sign) (d e : ℕ) →
        HasDepth heads rule process tokens rest d → HasDepth heads rule process tokens rest e → d ≡ e }
    ensures terms { (tokens rest : List Sign) (d e : ℕ) →
        HasDepth heads rule term tokens rest d → HasDepth heads rule term tokens rest e → d ≡ e }
{}

/// Reading with n levels and one refuses a token for its depth exactly where the depth reaches one more than that,
/// the tokens before it begin what is read, and none of them stands deeper than that many levels.
pub fn nesting_is_depth()
    ensures files { (n : ℕ) (tokens : List Sign) (left : ℕ) →
        read_whole n tokens ≡ Err (Nesting left) ↔ IsTooDeep heads rule file (suc n) tokens left }
    ensures games { (n : ℕ) (tokens : List Sign) (left : ℕ) →
        reads_whole heads rule process n tokens ≡ Err (Nesting left) ↔
        IsTooDeep heads rule process (suc n) tokens left }
    ensures terms { (barred : Kind → Bool) (n : ℕ) (tokens : List Sign) (left : ℕ) →
        reads_before barred heads rule term n tokens ≡ Err (Nesting left) ↔
        IsTooDeep heads rule term (suc n) tokens left }
{}

/// Where reading names a token as a fault of syntax, nothing begins with the tokens through that one, whatever
/// number of levels it may have. What may not stand behind a term holds all that a term could go on with.
pub fn syntax_is_final_at_every_depth()
    ensures files { (n m : ℕ) (tokens : List Sign) (left : ℕ) →
        read_whole n tokens ≡ Err (Syntax left) → Dead (IsSomeFile m) tokens left }
    ensures games { (n m : ℕ) (tokens : List Sign) (left : ℕ) →
        reads_whole heads rule process n tokens ≡ Err (Syntax left) →
        Dead (IsWhole heads rule process m) tokens left }
    ensures terms { (barred : Kind → Bool) → within (goes_on heads tails term) barred ≡ true →
        (n m : ℕ) (tokens : List Sign) (left : ℕ) →
        reads_before barred heads rule term n tokens ≡ Err (Syntax left) →
        Dead (IsBefore barred heads rule term m) tokens left }
{}

/// Behind n opening parentheses the process `0` of a file stands at depth n and one, for it is a node too. So
/// behind 200 of them it stands too deep, and no token before it does.
pub fn worked_depths()
    ensures parentheses { (n : ℕ) (behind : List Sign) →
        HasDepth heads rule file (Mark Process ∷ parentheses_before n (Number 0 ∷ behind))
        (Number 0 ∷ behind) (suc n) }
    ensures refused { IsNestedTooDeep (nested 200) 201 }
{}
