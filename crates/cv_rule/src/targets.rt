ghost use Rattle.std.specs.Prelude.{◌≡◌, ◌<◌, length};
ghost use Rattle.cv_pool.specs.Nodes.{ChildBelow};
ghost use Rattle.cv_syntax.specs.PoolTrees.{tree_at};
ghost use Rattle.cv_scene.specs.lines.Ends as ends;
ghost use Rattle.cv_scene.specs.lines.Targets.{equality, falsity};

use cv_derive_lines::{Claim, last_claim};
use cv_derive_reasons::inferences::{is_alone, is_over};
use cv_syntax::{Head, NodeId, Pool};

/// Whether a derivation ends with the line that two terms are equal.
pub(crate) fn ends_with_equality(
    pool: &Pool,
    by: Option<NodeId>,
    old: Option<NodeId>,
    new: Option<NodeId>,
) -> bool
    requires by { ChildBelow (length pool.now.trees) by }
    requires old { ChildBelow (length pool.now.trees) old }
    requires new { ChildBelow (length pool.now.trees) new }
    ensures { result ≡ ends.ends_with (tree_at pool.now.trees by)
        (equality (tree_at pool.now.trees old) (tree_at pool.now.trees new)) }
{
    match last_claim(pool, by) {
        Some(Claim::Holds(term)) => is_over(pool, Head::Eq, old, new, term),
        Some(Claim::IsDefined(_)) => false,
        None => false,
    }
}

/// Whether a derivation ends with the line `false`.
pub(crate) fn ends_with_falsity(pool: &Pool, by: Option<NodeId>) -> bool
    requires { ChildBelow (length pool.now.trees) by }
    ensures { result ≡ ends.ends_with (tree_at pool.now.trees by) falsity }
{
    match last_claim(pool, by) {
        Some(Claim::Holds(term)) => is_alone(pool, Head::No, term),
        Some(Claim::IsDefined(_)) => false,
        None => false,
    }
}
