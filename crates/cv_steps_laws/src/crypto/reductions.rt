// Laws that join the table of drawn names with the next games of reductions.

ghost use Rattle.std.specs.Prelude.{◌≡◌, ◌<◌, ◌≤◌, ◌^◌, ◌||◌, ℕ, List, length, nat_lt};
ghost use Rattle.cv_syntax_trees.specs.Declarations.{Declaration};
ghost use Rattle.cv_syntax_trees.specs.Tree.{Tree};
ghost use Rattle.cv_scene.specs.Reductions.{Reduction};
ghost use Rattle.cv_scene.specs.Scenes.{names};
ghost use Rattle.cv_meaning.specs.contexts.Inlined.{Drawn};
ghost use Rattle.cv_inline_draws.specs.names.Fresh.{IsDrawnFor};
ghost use Rattle.cv_inline_draws.specs.names.Texts.{is_listed};
ghost use Rattle.cv_inline_draws.specs.taken_names.Taken.{taken_names};
ghost use Rattle.cv_match_laws.specs.answers.Answers.{file_scene};
ghost use Rattle.cv_match_laws.specs.answers.Drawn.{draws, finds};
ghost use Rattle.cv_steps_laws.specs.crypto.reductions.Tables.{
  AreTaken,
  GivesNextGame,
  HasNamesBelow,
  labels,
  step_of_file,
};

/// What is drawn for a reduction gives its next game, where all names of file and game were taken and no answer
/// is a name of the table. A table has at most 2^32 names.
pub fn drawn_tables_give_next_games()
    ensures { (r : Reduction) (before after : List (List ℕ)) (taken : List ℕ) (d : Drawn) →
        AreTaken r.scene (length before) taken → length after ≤ 2 ^ 32 →
        length taken ≤ 2 ^ 64 → ((k : ℕ) → length after ≤ r.answer k) →
        IsDrawnFor before after taken (draws r) (finds r) (labels r) d → GivesNextGame r d }
{}

/// The taken names are those of the file and of the game, and no others.
pub fn taken_names_are_of_file_and_game()
    ensures listed { (own : ℕ) (game : Tree) (x : ℕ) →
        is_listed (taken_names own game) x ≡ nat_lt x own || names x game }
    ensures taken { (ds : List Declaration) (own count : ℕ) (game : Tree) → own ≤ count →
        HasNamesBelow count game →
        AreTaken (file_scene ds own game) count (taken_names own game) }
{}

/// So what is drawn for a step of a file gives its next game, where the names of file and game are taken and the
/// answers stand above all names of the table.
pub fn steps_of_files_have_drawn_tables()
    ensures { (ds : List Declaration) (own more : ℕ) (game e : Tree) (x : ℕ)
        (before after : List (List ℕ)) (d : Drawn) →
        own ≤ length before → HasNamesBelow (length before) game → length after ≤ more →
        length after ≤ 2 ^ 32 → length (taken_names own game) ≤ 2 ^ 64 →
        IsDrawnFor before after (taken_names own game) (draws (step_of_file ds own more game e x))
        (finds (step_of_file ds own more game e x)) (labels (step_of_file ds own more game e x)) d →
        GivesNextGame (step_of_file ds own more game e x) d }
{}
