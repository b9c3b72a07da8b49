ghost use Rattle.std.specs.Prelude.{◌≡◌, ◌↔◌, ℕ, List, Ok, Err};
ghost use Rattle.cv_parse_notation.specs.declared.sign.Sign.{Sign};
ghost use Rattle.cv_parse_grammar.specs.Names as names;
ghost use Rattle.cv_syntax.specs.declared.work.BuildError.TheVariants.{Depth, Full, Nodes};
ghost use Rattle.cv_parse.specs.declared.error.ParseError.TheVariants.{Build, NameTwice, NameUnknown, Syntax};
ghost use Rattle.cv_parse.specs.Parsed.{Parsed, parsed};
ghost use Rattle.cv_parse.specs.Says.{HasDepth, HasNodes, HasWeight, IsDead, IsLarge, IsMisnamedAt, Says};

/// What is computed of tokens is what they say, and each refusal has its cause: a token that no file goes
/// through, the first name that breaks its rule, a game that is too large or too deep, or trees that are too
/// heavy for the pool.
pub fn parsing_is_exact()
    ensures says { (limit : ℕ) (signs : List Sign) (p : Parsed) →
        parsed limit signs ≡ Ok p ↔ Says limit signs p }
    ensures syntax { (limit : ℕ) (signs : List Sign) (token : ℕ) →
        parsed limit signs ≡ Err (Syntax token) → IsDead signs token }
    ensures twice { (limit : ℕ) (signs : List Sign) (token : ℕ) →
        parsed limit signs ≡ Err (NameTwice token) → IsMisnamedAt signs names.NameTwice token }
    ensures unknown { (limit : ℕ) (signs : List Sign) (token : ℕ) →
        parsed limit signs ≡ Err (NameUnknown token) → IsMisnamedAt signs names.NameUnknown token }
    ensures nodes { (limit : ℕ) (signs : List Sign) (count : ℕ) →
        parsed limit signs ≡ Err (Build (Nodes count)) → IsLarge signs (HasNodes count) }
    ensures depth { (limit : ℕ) (signs : List Sign) (count : ℕ) →
        parsed limit signs ≡ Err (Build (Depth count)) → IsLarge signs (HasDepth count) }
    ensures full { (limit : ℕ) (signs : List Sign) (need : ℕ) →
        parsed limit signs ≡ Err (Build (Full need)) → IsLarge signs (HasWeight limit need) }
{}
