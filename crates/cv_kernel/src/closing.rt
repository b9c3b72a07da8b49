ghost use Rattle.std.specs.Prelude.{◌≡◌, ◌<◌, ℕ, IfSome, List, Some, length, option_map};
ghost use Rattle.cv_pool.specs.KindTree.{KindTree};
ghost use Rattle.cv_pool.specs.Nodes.{ChildBelow};
ghost use Rattle.cv_syntax.specs.PoolTrees.{tree_at};
ghost use Rattle.cv_script.specs.Views.{AreLive, items_of_view};
ghost use Rattle.cv_kernel.specs.ClosingTrees.{closing_tree};
ghost use Rattle.cv_kernel.specs.Closings as closings;
ghost use Rattle.cv_kernel.specs.Closings.{closing_in, closing_of_items};
ghost use Rattle.cv_kernel.specs.Steps.{AreShort, IsShort};

use cv_script::{Step, StepView, view};
use cv_syntax::{Head, NodeId, Pool, read_node};

/// A query by its number, from 1, and a certificate for it.
#[derive(Clone, Copy)]
pub struct Closing {
    pub query: u64,
    pub certificate: Option<NodeId>,
}

/// The query that a step with these items closes, with its certificate, where it is such a step.
pub(crate) fn closing_by(view: StepView) -> Option<Closing>
    ensures closing { (trees : List KindTree) → option_map (closing_tree trees) result
        ≡ closing_of_items (items_of_view trees view) }
    ensures live { (n : ℕ) → AreLive n view → IfSome result (λ c. ChildBelow n c.certificate) }
    ensures short { (trees : List KindTree) → AreShort (items_of_view trees view)
        → IfSome result (λ c. IsShort (tree_at trees c.certificate)) }
{
    match view {
        StepView::Success { query, by } => Some(Closing {
            query,
            certificate: by,
        }),
        _ => None,
    }
}

/// The query that a step closes, with its certificate, where it is such a step.
pub fn closing_of(pool: &Pool, step: Step) -> Option<Closing>
    requires { step.0.0 < length pool.now.trees }
    ensures closing { option_map (closing_tree pool.now.trees) result
        ≡ closing_in (tree_at pool.now.trees (Some step.0)) }
    ensures live { IfSome result (λ c. ChildBelow (length pool.now.trees) c.certificate) }
{
    closing_by(view(pool, step)?)
}

/// Whether it is a certificate of secrecy.
#[tactic(auto, using(cv_syntax::proofs::Trees::opened))]
pub fn is_secret(pool: &Pool, certificate: Option<NodeId>) -> bool
    requires { ChildBelow (length pool.now.trees) certificate }
    ensures { result ≡ closings.is_secret (tree_at pool.now.trees certificate) }
{
    match certificate {
        Some(n) => matches!(read_node(pool, n).head, Head::SecretCertificate),
        None => false,
    }
}
