ghost use Rattle.std.specs.Prelude.{◌≡◌, [], ◌∷◌, Some, codes};
ghost use Rattle.cv_report.specs.contexts.Contexts.{context_text};
ghost use Rattle.cv_report.specs.contexts.Worked.{checks, names, sessions};

/// Worked lines of contexts: a function without sites has `0`, a place below no replication `1`, and a parameter that stands
/// above a place more than once its exponent; parameters stand in the order of their declarations, whatever their numbers.
pub fn worked_contexts()
    ensures none { context_text names (0 ∷ 1 ∷ []) 1 (Some checks)
        ≡ codes "context C1: key k, keys 1, calls Omac 0, Ochk N\n" }
    ensures powers { context_text names (0 ∷ 1 ∷ []) 12 (Some sessions)
        ≡ codes "context C12: key k, keys N, calls Omac N^2 + N*M, Ochk N^2*M + 1\n" }
    ensures order { context_text names (1 ∷ 0 ∷ []) 12 (Some sessions)
        ≡ codes "context C12: key k, keys N, calls Omac N^2 + M*N, Ochk M*N^2 + 1\n" }
{}
