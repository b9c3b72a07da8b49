use cv_parse_grammar::Role;
use cv_parse_notation::{Mark, ScriptWord};
use cv_syntax::Head;

/// A phrase of files that may stand in a row. Behind a bare name of it the mark of a second copy may
/// stand.
#[derive(Clone, Copy)]
pub enum Outer {
    /// A term.
    Term,
    /// Terms with commas between them, as a list.
    Terms,
    /// A term one level down.
    InnerTerm,
    /// Terms in square brackets one level down, as a list.
    InnerSubscript,
    /// A cell: a name, with terms in square brackets where they are there.
    Cell,
    /// A cell one level down.
    InnerCell,
}

/// A piece of a row of a table. Rows go by their numbers, and speak of rows with smaller numbers;
/// only a phrase one level down may be of any row.
#[derive(Clone, Copy)]
pub enum Piece {
    /// A word or symbol, of which nothing is kept.
    Sign(Mark),
    /// This word of a script, of which nothing is kept.
    ScriptWord(ScriptWord),
    /// No token: the blank that is printed between two tokens.
    Blank,
    /// A name, which is used so.
    Word(Role),
    /// A number.
    Number,
    /// A phrase of files.
    Phrase(Outer),
    /// A phrase one level down: its trees as one.
    Deeper(u16),
    /// A note about names, which is no token, and of which nothing is kept.
    Note(Role),
    /// What the row reads, where it can begin. Where near, it is never left to what stands behind.
    May(bool, u16),
    /// What the row reads, as often as it can begin.
    Many(bool, u16),
    /// What the first row reads, or the second where the first can't begin.
    Either(u16, u16),
    /// What the first of so many rows that can begin reads, from a row on.
    OneOf(u16, u16),
    /// The list of the row's trees.
    Chain(u16),
    /// A node over the row's trees.
    Over(Head, u16),
    /// What the row reads, which opens a level.
    Level(u16),
}
