// The equivalences of a file, as its grammar gives them.

ghost use Rattle.std.specs.Prelude.{◌≡◌, ℕ, List, Ok};
ghost use Rattle.std.specs.List.{AllByRecursion};
ghost use Rattle.cv_parse_notation.specs.declared.sign.Sign.{Sign};
ghost use Rattle.cv_parse.specs.Parsed.{Parsed, parsed};
ghost use Rattle.cv_group_rules.specs.Faults.{equivalences_in};
ghost use Rattle.cv_match_laws.specs.functions.Forms.{HasLeftForm};

/// The left side of each equivalence of a file, a collision among them, has one key, and a body there that begins
/// as a term is one.
pub fn equivalences_of_files_have_left_forms()
    ensures { (limit : ℕ) (signs : List Sign) (p : Parsed) → parsed limit signs ≡ Ok p →
        AllByRecursion HasLeftForm (equivalences_in p.declarations) }
{}
