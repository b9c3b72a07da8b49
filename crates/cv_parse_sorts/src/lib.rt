// What a typed file is known to have: closed equations, functions and cells that are there, typed runs, and the names of its queries and
// constants.
#![tactic(auto)]

pub mod queries;

ghost use Rattle.std.specs.Prelude.{◌≡◌, ℕ, List, Ok, length, nat_lt};
ghost use Rattle.cv_lex.specs.Lexis.{Token};
ghost use Rattle.cv_parse_tables.specs.terminals.Signs.{signs_of};
ghost use Rattle.cv_parse.specs.Says.{Says};
ghost use Rattle.cv_scene.specs.Scenes.{KnowsQueries};
ghost use Rattle.cv_match_laws.specs.answers.Answers.{KnowsConstants};
ghost use Rattle.cv_steps.specs.Sequences.{scene};
ghost use Rattle.cv_parse_notation.specs.declared.sign.Sign.{Sign};
ghost use Rattle.cv_parse.specs.Parsed.{Parsed, parsed};
ghost use Rattle.cv_meaning.specs.Interpretation.{Interpretation};
ghost use Rattle.cv_meaning.specs.Runs.{Adversary, Mode};
ghost use Rattle.cv_meaning.specs.Satisfies.{Satisfies};
ghost use Rattle.cv_scope_rules.specs.Scope.{IsScoped};
ghost use Rattle.cv_scope_rules.specs.typing.Parts.{IsTypedFile};
ghost use Rattle.cv_derive_laws.specs.stores.Truth.{HasClosedEquations};
ghost use Rattle.cv_typing_runs.specs.Games.{HasNamedFunctionsAndCells, HasTypedRuns};

/// An equation of a file that is typed says something of functions, of constants and of its own variables
/// alone.
pub fn files_have_closed_equations()
    ensures { (limit : ℕ) (signs : List Sign) (p : Parsed) → parsed limit signs ≡ Ok p →
        IsTypedFile p.declarations p.game → HasClosedEquations p.declarations }
{}

/// What the game of a file applies is a function of its declarations, and each cell of its `defined` lists is of
/// a variable that has a site in the game, by the rules of names.
pub fn games_name_functions_and_cells()
    ensures { (limit : ℕ) (signs : List Sign) (p : Parsed) →
        parsed limit signs ≡ Ok p → HasNamedFunctionsAndCells p.declarations p.game }
{}

/// So in each run of the game of a file that is typed and in array scope, variables hold values of their types, at
/// indices below their parameters: in each interpretation that satisfies the declarations, in each mode, against
/// each adversary, on each tape that an experiment counts.
pub fn games_of_files_have_typed_runs()
    ensures { (limit : ℕ) (signs : List Sign) (p : Parsed) → parsed limit signs ≡ Ok p →
        IsTypedFile p.declarations p.game → IsScoped p.declarations p.game →
        (i : Interpretation) → Satisfies p.declarations i → (m : Mode) (a : Adversary) →
        HasTypedRuns p.declarations p.game i m a }
{}

/// A file has the names for whose secrecy its queries ask, by their numbers.
pub fn files_know_their_queries()
    ensures { (limit : ℕ) (tokens : List Token) (said : Parsed) →
        Says limit (signs_of tokens).signs said → KnowsQueries
        (scene said.declarations (λ x. nat_lt x (length (signs_of tokens).names)) said.game) }
{}

/// A file has the names of its constants, by their numbers.
pub fn files_know_their_constants()
    ensures { (limit : ℕ) (tokens : List Token) (said : Parsed) →
        Says limit (signs_of tokens).signs said → KnowsConstants
        (scene said.declarations (λ x. nat_lt x (length (signs_of tokens).names)) said.game) }
{}
