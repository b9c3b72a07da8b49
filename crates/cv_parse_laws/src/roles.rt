// What the names of a file are declared as, by the rules of names.

ghost use Rattle.std.specs.Prelude.{◌≡◌, ℕ, List, Ok};
ghost use Rattle.cv_parse_notation.specs.declared.sign.Sign.{Sign};
ghost use Rattle.cv_parse.specs.Parsed.{Parsed, parsed};
ghost use Rattle.cv_typing_runs.specs.Games.{HasArguments, HasConstants, HasDeclaredSorts};

/// The types that `new`, `let` and the binders of inputs name in the game of a file are declared as types or
/// `bool`, and the parameters of its replications and branches as parameters, by the rules of names.
pub fn games_name_declared_sorts()
    ensures { (limit : ℕ) (signs : List Sign) (p : Parsed) →
        parsed limit signs ≡ Ok p → HasDeclaredSorts p.declarations p.game }
{}

/// The arguments of what a file declares are lists of names of types.
pub fn declarations_have_arguments()
    ensures { (limit : ℕ) (signs : List Sign) (p : Parsed) →
        parsed limit signs ≡ Ok p → HasArguments p.declarations }
{}

/// What the declarations of a file name as a constant is a function for typing, too.
pub fn constants_are_functions()
    ensures { (limit : ℕ) (signs : List Sign) (p : Parsed) →
        parsed limit signs ≡ Ok p → HasConstants p.declarations }
{}
