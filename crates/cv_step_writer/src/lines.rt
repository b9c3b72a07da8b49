use cv_syntax::NodeId;

/// Why a line of a derivation is right, as the text of a reason names it. Numbers are those of facts, of lines and of
/// equations, from 1; terms stand in the pool.
#[derive(Drop)]
pub enum Reason {
    Fact(u64),
    Here,
    Of(u64),
    Site(u64, u64),
    Equation(u64, Vec<NodeId>),
    Refl,
    Sym(u64),
    Trans(u64, u64),
    Cong(Vec<u64>),
    Mp(u64, u64),
    And(u64, u64),
    Left(u64),
    Right(u64),
    Contra(u64, u64),
    Exfalso(u64),
    Data,
    Given,
    Again(u64),
    Bool,
    OtherFact(u64),
    OtherHere,
    Same(u64),
    Distinct(u64, u64, u64, u64),
    /// The line of the cell, and those of its indices.
    Late(u64, Vec<u64>),
}

/// A line of a derivation, over terms and cells that stand in the pool.
#[derive(Drop)]
pub enum Line {
    /// A term is true.
    Holds {
        term: NodeId,
        by: Reason,
    },
    /// Two terms are equal: the line of the term `(left = right)`.
    Equal {
        left: NodeId,
        right: NodeId,
        by: Reason,
    },
    /// A cell is defined.
    Defined {
        cell: NodeId,
        by: Reason,
    },
    /// A conclusion by cases of a condition, with the blocks where it holds and where it doesn't: derivations that
    /// stand in the pool.
    Cases {
        condition: NodeId,
        first: Option<NodeId>,
        second: Option<NodeId>,
        conclusion: NodeId,
    },
}
