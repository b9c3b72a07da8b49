// The queries of a file that was read.

ghost use Rattle.std.specs.Prelude.{◌≡◌, ℕ, List, Ok};
ghost use Rattle.cv_parse_notation.specs.declared.sign.Sign.{Sign};
ghost use Rattle.cv_parse.specs.Parsed.{Parsed, parsed};
ghost use Rattle.cv_scope_rules.specs.typing.Parts.{IsTypedFile};
ghost use Rattle.cv_query.specs.kinds.Closed.{HasClosedQueries};

/// A query of a file that is typed says something of functions, of constants and of its own variables alone on
/// its right side.
pub fn files_have_closed_queries()
    ensures { (limit : ℕ) (signs : List Sign) (p : Parsed) → parsed limit signs ≡ Ok p →
        IsTypedFile p.declarations p.game → HasClosedQueries p.declarations }
{}
