ghost use Rattle.std.specs.Prelude.{◌≡◌, ◌+◌, ◌*◌, ◌≤◌, ℕ, List, [], Err, None};
ghost use Rattle.cv_pool.specs.KindTree.{KindTree};
ghost use Rattle.cv_syntax.specs.declared.decls.Decl.{Decl};
ghost use Rattle.cv_syntax_trees.specs.Tree.{Tree, depth};
ghost use Rattle.cv_parse_notation.specs.declared.sign.Sign.{Sign};
ghost use Rattle.cv_parse_grammar.specs.Whole.{IsRead};
ghost use Rattle.cv_parse.specs.declared.error.ParseError.TheVariants.{Nesting};
ghost use Rattle.cv_parse.specs.Games.{game_of};
ghost use Rattle.cv_parse.specs.Parsed.{Parsed};
ghost use Rattle.cv_parse.specs.Says.{Says};
ghost use Rattle.cv_print_bytes.specs.terminals.Levels.{levels_of};
ghost use Rattle.cv_print_bytes.specs.terminals.Signs.{game_signs};
ghost use Rattle.cv_print_back.specs.files.Back.{ComesBack, Declares, ForEachFile, IsFileText, IsFlat, IsShallow, NamesObey};
ghost use Rattle.cv_print_back.specs.files.Worked.{abreast, small_content, small_declared, small_file, small_game, small_names, stops};

/// The names of the game of every file obey their rules where the game is read back behind what the
/// file declares. Neither types nor array scope are asked for.
pub fn names_of_games_obey()
    ensures { (limit : ℕ) (signs : List Sign) (p : Parsed) →
        Says limit signs p →
        (trees : List KindTree) (ds : List Decl) → Declares trees ds p → NamesObey ds p.game }
{}

/// So the text of the game of every file is read back as the game, by the names of the file, where the
/// text is no deeper than a file may be. A game that is less than half as deep as a game may be has
/// such a text.
pub fn games_of_files_come_back()
    ensures flat { ForEachFile (λ names ds p. IsFlat p.game → ComesBack names ds p.game) }
    ensures shallow { ForEachFile (λ names ds p. IsShallow p.game → ComesBack names ds p.game) }
{}

/// The text of a game is at most twice as deep as the game, and one level.
pub fn texts_are_flat()
    ensures { (t : Tree) → levels_of t ≤ 2 * depth t + 1 }
{}

/// A small file with a replication, a search, plain reads and an event: it is a file with its
/// declarations, and the text of its game is read back as the game.
pub fn a_small_file()
    ensures file { IsFileText 10000 small_file small_names small_content }
    ensures declared { Declares [] small_declared small_content }
    ensures back { ComesBack small_names small_declared small_game }
{}

/// A file of 101 processes `0` side by side, without parentheses, whose game is 101 nodes deep: as its
/// text has parentheses, it is one level too deep to be read back.
pub fn a_file_with_a_deep_text()
    ensures file { IsRead (abreast 100) [] None (stops 100) }
    ensures depth { depth (stops 100) ≡ 101 }
    ensures levels { levels_of (stops 100) ≡ 200 }
    ensures refused { (limit live : ℕ) →
        game_of limit live [] (game_signs (stops 100)) ≡ Err (Nesting 300) }
{}
