// Laws of the answers' names in contexts: numbers above all names of file and game.

ghost use Rattle.std.specs.Prelude.{◌≡◌, ◌==◌, ◌<◌, ◌≤◌, ℕ, List, false, nat_lt};
ghost use Rattle.std.specs.List.{AllByRecursion, list_any};
ghost use Rattle.cv_syntax_trees.specs.Declarations.{Declaration};
ghost use Rattle.cv_syntax_trees.specs.Tree.{Tree};
ghost use Rattle.cv_scene.specs.Scenes.{KnowsQueries};
ghost use Rattle.cv_scene.specs.Contexts.{AreAnswers};
ghost use Rattle.cv_match_laws.specs.answers.Answers.{KnowsConstants, answer_above, file_scene};

/// The numbers from the least one above all names of a file and of a game serve as answers, however many sites there
/// are, where the file has its constants and the names for whose secrecy its queries ask.
pub fn answers_above_are_answers()
    ensures { (ds : List Declaration) (own : ℕ) (game : Tree) (sites : ℕ) →
        KnowsQueries (file_scene ds own game) → KnowsConstants (file_scene ds own game) →
        AreAnswers (file_scene ds own game) sites (answer_above own game) }
{}

/// So do the numbers above these and more names, none of which is then an answer.
pub fn answers_above_more_names_are_answers()
    ensures answers { (ds : List Declaration) (own more : ℕ) (game : Tree) (sites : ℕ) → own ≤ more →
        KnowsQueries (file_scene ds own game) → KnowsConstants (file_scene ds own game) →
        AreAnswers (file_scene ds own game) sites (answer_above more game) }
    ensures others { (more : ℕ) (game : Tree) (names : List ℕ) (k : ℕ) →
        AllByRecursion (λ y. y < more) names →
        list_any (λ y. y == answer_above more game k) names ≡ false }
{}
