ghost use Rattle.std.specs.Prelude.{◌≡◌, ◌+◌, ◌≤◌, ◌++◌, ◌↔◌, ◌≢◌, false, ℕ, List, length, Ok, Err};
ghost use Rattle.cv_syntax_trees.specs.Tree.{Tree};
ghost use Rattle.cv_syntax.specs.declared.decls.Decl.{Decl};
ghost use Rattle.cv_parse_notation.specs.declared.sign.Sign.{Sign};
ghost use Rattle.cv_parse_notation.specs.Spells.{next_is};
ghost use Rattle.cv_parse_grammar.specs.Files.{levels};
ghost use Rattle.cv_parse_grammar.specs.Names as names;
ghost use Rattle.cv_syntax.specs.declared.work.BuildError.TheVariants.{Depth, Full, Nodes, OutOfMemory};
ghost use Rattle.cv_parse.specs.declared.error.ParseError.TheVariants.{Build, NameTwice, NameUnknown, Nesting, Syntax};
ghost use Rattle.cv_scope_rules.specs.Phrases.{Term};
ghost use Rattle.cv_print_bytes.specs.terminals.Levels.{term_levels};
ghost use Rattle.cv_print_bytes.specs.terminals.Signs.{term_signs};
ghost use Rattle.cv_print_bytes.specs.terminals.Written.{IsWritten};
ghost use Rattle.cv_parse.specs.Games.{game_of, nodes_of};
ghost use Rattle.cv_print_back.specs.GameSays.{HasDepth, HasNodes, IsDeadGame, IsDeadTerm, IsLargeGame, IsLargeTerm, IsMisnamedGame, IsNestedGame, IsNestedTerm, SaysGame, SaysTerm, Takes};
ghost use Rattle.cv_parse.specs.Terms.{goes_on, term_of};
ghost use Rattle.cv_print_back.specs.Texts.{IsGameBack, IsProperGame, IsProperTerm, IsTermBack};

/// What is computed of a game's tokens is what they say, and each refusal has its cause: a token that no game
/// goes through, the first token that stands too deep, the first name that breaks its rule, or a game that is too
/// large, too deep or too much for the pool. A refusal for want of memory alone is never computed.
pub fn reading_games_is_exact()
    ensures says { (limit live : ℕ) (ds : List Decl) (signs : List Sign) (t : Tree) →
        game_of limit live ds signs ≡ Ok t ↔ SaysGame limit live ds signs t }
    ensures syntax { (limit live : ℕ) (ds : List Decl) (signs : List Sign) (token : ℕ) →
        game_of limit live ds signs ≡ Err (Syntax token) → IsDeadGame signs token }
    ensures nesting { (limit live : ℕ) (ds : List Decl) (signs : List Sign) (token : ℕ) →
        game_of limit live ds signs ≡ Err (Nesting token) → IsNestedGame signs token }
    ensures twice { (limit live : ℕ) (ds : List Decl) (signs : List Sign) (token : ℕ) →
        game_of limit live ds signs ≡ Err (NameTwice token) → IsMisnamedGame ds signs names.NameTwice token }
    ensures unknown { (limit live : ℕ) (ds : List Decl) (signs : List Sign) (token : ℕ) →
        game_of limit live ds signs ≡ Err (NameUnknown token) → IsMisnamedGame ds signs names.NameUnknown token }
    ensures nodes { (limit live : ℕ) (ds : List Decl) (signs : List Sign) (count : ℕ) →
        game_of limit live ds signs ≡ Err (Build (Nodes count)) → IsLargeGame ds signs (HasNodes count) }
    ensures depth { (limit live : ℕ) (ds : List Decl) (signs : List Sign) (count : ℕ) →
        game_of limit live ds signs ≡ Err (Build (Depth count)) → IsLargeGame ds signs (HasDepth count) }
    ensures full { (limit live : ℕ) (ds : List Decl) (signs : List Sign) (need : ℕ) →
        game_of limit live ds signs ≡ Err (Build (Full need)) → IsLargeGame ds signs (Takes limit live need) }
    ensures memory { (limit live : ℕ) (ds : List Decl) (signs : List Sign) →
        game_of limit live ds signs ≢ Err (Build OutOfMemory) }
{}

/// What is computed of a term's tokens is what they say, and it is refused for a token that no term goes through, for the
/// first token that stands too deep, and for want of room only where they spell a term for which the pool has none. A refusal for want of memory alone is never computed.
pub fn reading_terms_is_exact()
    ensures says { (limit live from : ℕ) (signs : List Sign) (t : Tree) (next : ℕ) →
        term_of limit live from signs ≡ Ok (t, next) ↔ SaysTerm limit live from signs t next }
    ensures syntax { (limit live from : ℕ) (signs : List Sign) (token : ℕ) →
        term_of limit live from signs ≡ Err (Syntax token) → IsDeadTerm from signs token }
    ensures nesting { (limit live from : ℕ) (signs : List Sign) (token : ℕ) →
        term_of limit live from signs ≡ Err (Nesting token) → IsNestedTerm from signs token }
    ensures full { (limit live from : ℕ) (signs : List Sign) (need : ℕ) →
        term_of limit live from signs ≡ Err (Build (Full need)) → IsLargeTerm limit live signs need }
    ensures memory { (limit live from : ℕ) (signs : List Sign) →
        term_of limit live from signs ≢ Err (Build OutOfMemory) }
{}

/// The text of a game is read as the game, by the names that it is written with.
pub fn games_come_back()
    ensures { (limit live : ℕ) (names : List (List ℕ)) (ds : List Decl) (t : Tree) →
        IsProperGame limit live names ds t → IsGameBack limit live names ds t }
{}

/// The text of a term is read as the term, by the names that it is written with. Its signs are read so also in
/// front of others, but for those that no term of a step stands before.
pub fn terms_come_back()
    ensures texts { (limit live : ℕ) (names : List (List ℕ)) (t : Tree) →
        IsProperTerm limit live names t → IsTermBack limit live names t }
    ensures in_front { (limit live from : ℕ) (t : Tree) (rest : List Sign) →
        IsWritten Term t → term_levels t ≤ levels → live + nodes_of t ≤ limit → next_is goes_on rest ≡ false →
        term_of limit live from (term_signs t ++ rest) ≡ Ok (t, from + length (term_signs t)) }
{}
