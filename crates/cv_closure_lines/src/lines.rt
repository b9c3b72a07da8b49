use cv_closure::{TermId, Terms};

/// What a line of a derivation says, over the terms of its table.
#[derive(Clone, Copy)]
pub enum Claim {
    /// The term is true.
    Holds(TermId),
    /// The cell is defined.
    Defined(TermId),
}

/// Why a line is right. Numbers of lines and of facts count from 1, lines within the derivation.
#[derive(Drop)]
pub enum Reason {
    /// It is the fact of this number at the place.
    Fact(u64),
    /// The cell is directly defined at the place.
    Here,
    /// The cell is directly defined at the only site of the line's cell.
    Of(u64),
    /// It is the fact of the second number at the only site of the first line's cell.
    Site(u64, u64),
    /// It is the equation of this number, with these terms for its variables.
    Equation(u64, Vec<TermId>),
    /// Both sides are one term.
    Refl,
    /// It is the line turned round.
    Sym(u64),
    /// It is the first line's left side and the second line's right side, which meet.
    Trans(u64, u64),
    /// Both sides have one head, and these lines say that their arguments are equal.
    Cong(Vec<u64>),
    /// The second line says that it is equal to the first line.
    Mp(u64, u64),
    /// It is the left side of a conjunction.
    Left(u64),
    /// It is the right side of a conjunction.
    Right(u64),
    /// A function that is `[data]` has one value at equal arguments alone.
    Data,
    /// It is the line again.
    Again(u64),
    /// It is an equation of truth values, or `true`.
    Bool,
    /// The first line's cell is one of a variable that comes later than the place, at current indices, as the other lines say.
    Late(u64, Vec<u64>),
    /// It is the fact of this number at the place of the second copy.
    OtherFact(u64),
    /// The cell is directly defined at the place of the second copy.
    OtherHere,
    /// It is the equation of this number that is given for two copies.
    Same(u64),
    /// The first line says that two cells are equal, of an array whose values are taken to differ, and the next two that they are
    /// defined; it is the equation of their indices at a place, from 1.
    Distinct(u64, u64, u64, u64),
}

/// A line of a derivation.
#[derive(Drop)]
pub struct Line {
    pub claim: Claim,
    pub by: Reason,
}

/// Lines with the table of their terms. There are no blocks of cases.
#[derive(Drop)]
pub struct Derivation {
    pub terms: Terms,
    pub lines: Vec<Line>,
}
