ghost use Rattle.std.specs.Prelude.{◌≡◌};
ghost use Rattle.cv_scope_rules.specs.Context.{first_position, item_position, rest_position, second_position};

use cv_syntax::Head;

/// What a tree is for the node above it.
#[derive(Clone, Copy, Debug, PartialEq, Eq)]
pub enum Position {
    /// A construct, a term, or what holds names and binders.
    Anywhere,
    /// The two bodies of an `if`.
    Bodies,
    /// The list of the else body.
    ElseBody,
    /// The branches of a `find`.
    Branches,
    /// The cells, the condition and the body of a branch.
    Guards,
    /// The condition and the body of a branch.
    Guarded,
    /// A `defined` list.
    Cells,
    /// A cell of a `defined` list.
    OneCell,
}

impl Position {
    /// The position of the item of a list.
    fn item(self) -> Position
        ensures { result ≡ item_position self }
    {
        match self {
            Position::Guards => Position::Cells,
            Position::Cells => Position::OneCell,
            _ => Position::Anywhere,
        }
    }

    /// The position of the rest of a list.
    fn rest(self) -> Position
        ensures { result ≡ rest_position self }
    {
        match self {
            Position::Bodies => Position::ElseBody,
            Position::Branches => Position::Branches,
            Position::Guards => Position::Guarded,
            Position::Cells => Position::Cells,
            _ => Position::Anywhere,
        }
    }

    /// The position of a node's first child.
    pub fn first(self, head: Head) -> Position
        ensures { result ≡ first_position self head }
    {
        match head {
            Head::Cons => self.item(),
            Head::Find(_) => Position::Branches,
            _ => Position::Anywhere,
        }
    }

    /// The position of a node's second child.
    pub fn second(self, head: Head) -> Position
        ensures { result ≡ second_position self head }
    {
        match head {
            Head::Cons => self.rest(),
            Head::If => Position::Bodies,
            Head::Branch => Position::Guards,
            _ => Position::Anywhere,
        }
    }
}
