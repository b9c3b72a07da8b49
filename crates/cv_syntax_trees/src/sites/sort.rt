ghost use Rattle.std.specs.Prelude.{◌≡◌};
ghost use Rattle.cv_syntax_trees.specs.sites.Sorts as sorts;

/// What a term or a variable has as its values.
#[derive(Clone, Copy, Debug, PartialEq, Eq)]
pub enum Sort {
    /// The values of a type.
    OfType(u32),
    /// The indices of a parameter.
    BelowParameter(u32),
}

/// Whether two sorts are the same.
pub fn same_sort(a: Sort, b: Sort) -> bool
    ensures { result ≡ sorts.same_sort a b }
{
    match (a, b) {
        (Sort::OfType(t), Sort::OfType(u)) => t == u,
        (Sort::BelowParameter(n), Sort::BelowParameter(m)) => n == m,
        _ => false,
    }
}

/// Whether a definition gives another sort than one that is known.
pub fn differs_from(known: Option<Sort>, sort: Sort) -> bool
    ensures { result ≡ sorts.differs_from known sort }
{
    match known {
        Some(known) => !same_sort(known, sort),
        None => false,
    }
}
