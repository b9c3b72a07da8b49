use cv_parse_grammar::Role;
use cv_parse_notation::Mark;
use cv_syntax::Make;

/// What the next token may be.
#[derive(Clone, Copy)]
pub enum Ahead {
    /// This word or symbol.
    Mark(Mark),
    /// A name.
    Word,
    /// The number 0.
    Zero,
    /// The word `find`.
    Find,
    /// What a term begins with.
    Term,
    /// What an input process begins with.
    Input,
    /// What an output process begins with.
    Output,
    /// What the body of a function begins with.
    Body,
    /// What a branch of `find` begins with.
    Branch,
    /// What the arguments of a function of the right side begin with, or a `new` before them.
    Arguments,
}

/// A head that takes a name.
#[derive(Clone, Copy)]
pub enum Naming {
    Leaf,
    Primed,
    Read,
    Apply,
    Name,
    In,
    Out,
    Event,
    Find,
    Occurs,
    OccursOnce,
    Secret,
    SecretOnce,
    Oracle,
    Equivalence,
}

/// A head that takes two names.
#[derive(Clone, Copy)]
pub enum Pairing {
    Binder,
    New,
    Let,
    Repl,
    Bound,
}

/// What a list is made of.
#[derive(Clone, Copy)]
pub enum Closing {
    /// Trees.
    Trees,
    /// Pairs of names that wait.
    Binders,
    /// Names that wait.
    Names,
    /// Parts and names that stay apart.
    Apart,
    /// Trees, of which one or another is taken.
    Alternatives,
}

/// A piece of a row. Rows go by their numbers, and speak of rows with smaller numbers; only a phrase
/// one level down may be of any row.
#[derive(Clone, Copy)]
pub enum Piece {
    /// A word or symbol.
    Sign(Mark),
    /// A name, which is used so, and waits for a head.
    Word(Role),
    /// The number 0.
    Zero,
    /// The word `find`: its number waits as a name.
    Find,
    /// A number, in place of the name that waits last.
    Instead,
    /// This number waits as a name, which is no token.
    Value(u64),
    /// The name that waits last waits twice.
    Again,
    /// The two names that wait last go before the four before them, the last of which counts such pairs.
    Before,
    /// A node with the bounds of a function, and so many empty trees: the four numbers that wait last are
    /// two names, whether they are an index and its bound, and how many empty trees.
    Bounds,
    /// A note about names, which is no token.
    Note(Role),
    /// A part of a tree, which is no token.
    Part(Make),
    /// A node with a head of the name that waits.
    Named(Naming),
    /// A node with a head of the name that waits: of the first kind where this word or symbol stands,
    /// which is taken, and else of the second.
    Marked(Mark, Naming, Naming),
    /// A node with a head of the two names that wait.
    Paired(Pairing),
    /// What a row reads.
    Row(u16),
    /// What a row reads, which opens a level, and begins so.
    Level(Ahead, u16),
    /// What a row reads one level down, which begins so.
    Deeper(Ahead, u16),
    /// What the first row reads where the next token is such, or else the second.
    Choice(Ahead, u16, u16),
    /// What a row reads, once and again behind each such symbol: a list.
    List(Closing, Mark, u16),
    /// What a row reads behind each such symbol: a list, which may be empty.
    Many(Closing, Mark, u16),
}
