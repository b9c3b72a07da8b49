// The text of the game of a file is read back as the game.

mod laws;

pub use laws::{
    a_file_with_a_deep_text, a_small_file, games_of_files_come_back, names_of_games_obey,
    texts_are_flat,
};
