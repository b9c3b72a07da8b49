ghost use Rattle.std.specs.Prelude.{◌≡◌, ◌≤◌, [], length, take};

use crate::{Mark, Work};

/// Makes the names of a work its own: those that come later are drawn or of a proof block.
pub fn own_all_names(work: &mut Work)
    ensures own { work.new.decls.own ≡ length work.old.names }
    ensures list { work.new.decls.list ≡ work.old.decls.list }
    ensures names { work.new.names ≡ work.old.names }
    ensures pool { work.new.pool ≡ work.old.pool }
{
    work.decls.set_own(work.names.len());
}

/// Empties a work after a refusal: its pool goes back to a mark, and it has as many own names as are given.
pub fn empty_again(work: &mut Work, before: Mark, own: u32)
    requires { before.0 ≤ length work.old.pool.trees }
    ensures names { work.new.names ≡ [] }
    ensures list { work.new.decls.list ≡ [] }
    ensures own { work.new.decls.own ≡ own }
    ensures trees { work.new.pool.trees ≡ take before.0 work.old.pool.trees }
    ensures limit { work.new.pool.limit ≡ work.old.pool.limit }
{
    work.names.keep(0);
    work.decls.keep(0);
    work.decls.set_own(own);
    work.pool.release(before);
}
