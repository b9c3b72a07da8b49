use cv_syntax_trees::sites::Sort;

/// Where `new`, `let`, tests and finds stand.
#[derive(Clone, Copy, Debug, PartialEq, Eq)]
pub enum Form {
    /// In a process.
    InProcess,
    /// In a body of an equivalence, whose results are values of this sort where one is known.
    InBody(Option<Sort>),
}
