ghost use Rattle.std.specs.Prelude.{◌≡◌, ◌<◌, ◌↔◌, All, IfOk, IsTrue, Some, length};
ghost use Rattle.cv_syntax.specs.PoolTrees.{tree_at};
ghost use Rattle.cv_kernel_crypto.specs.Stages.{AreTakenNames};

use cv_inline_draws::taken_names::taken_names;
use cv_steps_laws::crypto::reductions::taken_names_are_of_file_and_game;
use cv_syntax::{NodeId, Work};
use std::alloc::{AllocError, Global};

/// The first name of an answer. No table of names is to have more names.
pub(crate) const FIRST_ANSWER: u32 = 2_147_483_648;

/// Whether numbers are below a count.
fn are_below(count: u32, numbers: &[u32]) -> bool
    ensures { IsTrue result ↔ All (λ x. x < count) numbers.now }
{
    numbers.iter().all(|x| *x < count)
}

/// The names of a file and of a game. Where one of them isn't in the table, or the table has more names than there
/// are below the answers, it is told as want of memory.
pub(crate) fn names_for(alloc: Global, work: &Work, game: NodeId) -> Result<Vec<u32>, AllocError>
    requires { game.0 < length work.now.pool.trees }
    ensures { IfOk result (λ taken. AreTakenNames work.now.names work.now.decls.own
        (tree_at work.now.pool.trees (Some game)) taken.items) }
{
    let own = work.decls.own();
    let count = work.names.len();
    if own > count {
        return Err(AllocError);
    }
    if count > FIRST_ANSWER {
        return Err(AllocError);
    }
    let taken = taken_names(alloc, &work.pool, own, Some(game))?;
    taken_names_are_of_file_and_game();
    if !are_below(count, taken.as_slice()) {
        return Err(AllocError);
    }
    Ok(taken)
}
