// Which steps that are found count as moves.
#![tactic(auto)]

ghost use Rattle.std.specs.Prelude.{◌≡◌, ◌<◌, Some, length};
ghost use Rattle.cv_syntax.specs.PoolTrees.{tree_at};
ghost use Rattle.cv_moves.specs.Moves.{is_move as is_move_tree};

use cv_syntax::{Head, NodeId, Pool, read_node};

/// Whether a step counts as a move, an `unlet` where it is advised.
#[tactic(auto, using(cv_syntax::proofs::Trees::opened))]
pub fn is_move(pool: &Pool, step: NodeId, advised: bool) -> bool
    requires { step.0 < length pool.now.trees }
    ensures { result ≡ is_move_tree advised (tree_at pool.now.trees (Some step)) }
{
    match read_node(pool, step).head {
        Head::CryptoStep | Head::ArrayRenameStep => true,
        Head::UnletStep => advised,
        _ => false,
    }
}
