ghost use Rattle.std.specs.Prelude.{◌≡◌, ◌≤◌, OnErr, OnOk, length, take};

use cv_syntax::{Mark, Names, Pool};

/// An outcome, after which the pool is as it was before where it is a refusal. Nodes are given back here alone.
pub fn settle<T: Drop, E: Copy>(
    pool: &mut Pool,
    before: Mark,
    outcome: Result<T, E>,
) -> Result<T, E>
    requires { before.0 ≤ length pool.old.trees }
    ensures same { result ≡ outcome }
    ensures ok { OnOk result (pool.new ≡ pool.old) }
    ensures back { OnErr result (pool.new.trees ≡ take before.0 pool.old.trees) }
    ensures limit { pool.new.limit ≡ pool.old.limit }
{
    if outcome.is_err() {
        pool.release(before);
    }
    outcome
}

/// Gives back the names that were added before an outcome that is a refusal.
pub fn settle_names<T, E>(names: &mut Names, before: u32, outcome: &Result<T, E>)
    requires { before ≤ length names.old }
    ensures ok { OnOk outcome.now (names.new ≡ names.old) }
    ensures back { OnErr outcome.now (names.new ≡ take before names.old) }
{
    if outcome.is_err() {
        names.keep(before);
    }
}
