ghost use Rattle.std.specs.Prelude.{◌≡◌, ◌<◌, IfSome, length, option_map};
ghost use Rattle.cv_pool.specs.Nodes.{ChildBelow};
ghost use Rattle.cv_syntax.specs.PoolTrees.{tree_at};
ghost use Rattle.cv_rule_pick.specs.Looks.{IsLiveBranch, arm_of, guarded_by};
ghost use Rattle.cv_rule_pick.specs.Picking.{only_arm};

use cv_derive_reasons::inferences::sides;
use cv_syntax::children::{is_empty, read_child};
use cv_syntax::{Head, NodeId, Pool};

/// The only branch of a `find`, by its parts.
#[derive(Clone, Copy)]
pub(crate) struct OnlyBranch {
    pub(crate) binders: Option<NodeId>,
    pub(crate) cells: Option<NodeId>,
    pub(crate) condition: Option<NodeId>,
    pub(crate) body: Option<NodeId>,
}

/// A branch with these binders, by what stands behind them.
fn guarded(pool: &Pool, binders: Option<NodeId>, rest: Option<NodeId>) -> Option<OnlyBranch>
    requires binders { ChildBelow (length pool.now.trees) binders }
    requires rest { ChildBelow (length pool.now.trees) rest }
    ensures branch { option_map (arm_of pool.now.trees) result
        ≡ guarded_by (tree_at pool.now.trees binders) (tree_at pool.now.trees rest) }
    ensures live { IfSome result (IsLiveBranch (length pool.now.trees)) }
{
    let (cells, behind) = sides(pool, Head::Cons, rest)?;
    let (condition, body) = sides(pool, Head::Cons, behind)?;
    Some(OnlyBranch {
        binders,
        cells,
        condition,
        body,
    })
}

/// The only branch of a `find`.
pub(crate) fn only_branch(pool: &Pool, construct: Option<NodeId>) -> Option<OnlyBranch>
    requires { ChildBelow (length pool.now.trees) construct }
    ensures branch { option_map (arm_of pool.now.trees) result
        ≡ only_arm (tree_at pool.now.trees construct) }
    ensures live { IfSome result (IsLiveBranch (length pool.now.trees)) }
{
    let find = read_child(pool, construct)?;
    let Head::Find(_) = find.head else {
        return None;
    };
    let (branch, more) = sides(pool, Head::Cons, find.first)?;
    if !is_empty(pool, more) {
        return None;
    }
    let (binders, rest) = sides(pool, Head::Branch, branch)?;
    guarded(pool, binders, rest)
}
