// Games that typing and array scope accept have typed runs.
#![tactic(auto)]

ghost use Rattle.std.specs.Prelude.{List, []};
ghost use Rattle.cv_syntax_trees.specs.Declarations.{Declaration};
ghost use Rattle.cv_syntax_trees.specs.Tree.{Tree};
ghost use Rattle.cv_meaning.specs.Interpretation.{Interpretation};
ghost use Rattle.cv_meaning.specs.Runs.{Adversary, Mode};
ghost use Rattle.cv_meaning.specs.Satisfies.{Satisfies};
ghost use Rattle.cv_meaning_laws.specs.adequacy.Typed.{HasTypedRestrictions, IsModel, IsTyped};
ghost use Rattle.cv_scope_rules.specs.Phrases.{IsWellFormed};
ghost use Rattle.cv_scope_rules.specs.typing.Parts.{IsTypedGame};
ghost use Rattle.cv_typing_runs.specs.Worked.{declared, found_game, nameless_game};
ghost use Rattle.cv_typing_runs.specs.Games.{HasArguments, HasConstants, HasDeclaredSorts, HasKnownNames, HasNamedFunctionsAndCells, HasTypedRuns, context_of};

/// A well-formed game that typing accepts, whose names are known, is typed in the context of its first sites, and
/// each of its restrictions is of the type of its variable.
pub fn accepted_games_are_typed()
    ensures typed { (ds : List Declaration) (game : Tree) → HasArguments ds → IsWellFormed ds game →
        IsTypedGame ds game → HasKnownNames ds game → IsTyped (context_of ds game) [] game }
    ensures restrictions { (ds : List Declaration) (game : Tree) →
        IsTypedGame ds game → HasTypedRestrictions (context_of ds game) game }
{}

/// An interpretation that satisfies the declarations is a model of the context of a game whose types and
/// parameters are declared.
pub fn declared_sorts_have_values()
    ensures { (ds : List Declaration) (game : Tree) (i : Interpretation) →
        Satisfies ds i → HasDeclaredSorts ds game → IsModel (context_of ds game) i }
{}

/// So in each run of such a game, on each tape that is counted, variables have values of their types, and at
/// indices below their parameters alone.
pub fn typed_games_have_typed_runs()
    ensures { (ds : List Declaration) (game : Tree) → HasArguments ds → IsWellFormed ds game →
        IsTypedGame ds game → HasKnownNames ds game → HasDeclaredSorts ds game →
        (i : Interpretation) → Satisfies ds i → (m : Mode) (a : Adversary) →
        HasTypedRuns ds game i m a }
{}

/// In array scope the names that a game reads are known, where the cells of its `defined` lists are of variables
/// and what it applies is a function.
pub fn names_in_scope_are_known()
    ensures { (ds : List Declaration) (game : Tree) → HasConstants ds → IsWellFormed ds game →
        HasNamedFunctionsAndCells ds game → HasKnownNames ds game }
{}

/// A game with a replicated `find` meets the premises. That names are known is needed: a game that names in a
/// `defined` list what is nowhere defined is accepted by typing and in array scope, and is not typed.
pub fn worked_games()
    ensures typed { IsTypedGame declared found_game }
    ensures well_formed { IsWellFormed declared found_game }
    ensures arguments { HasArguments declared }
    ensures names { HasKnownNames declared found_game }
    ensures constants { HasConstants declared }
    ensures cells { HasNamedFunctionsAndCells declared found_game }
    ensures sorts { HasDeclaredSorts declared found_game }
    ensures accepted { IsTypedGame declared nameless_game }
    ensures in_scope { IsWellFormed declared nameless_game }
    ensures unknown { ¬ HasKnownNames declared nameless_game }
    ensures untyped { ¬ IsTyped (context_of declared nameless_game) [] nameless_game }
{}
