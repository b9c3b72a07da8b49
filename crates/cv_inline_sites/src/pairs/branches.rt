ghost use Rattle.std.specs.Prelude.{◌≡◌, ◌≤◌, ◌<◌, IfSome, length, option_map};
ghost use Rattle.cv_pool.specs.Nodes.{ChildBelow};
ghost use Rattle.cv_syntax.specs.PoolTrees.{tree_at};
ghost use Rattle.cv_syntax.specs.Walks.{above};
ghost use Rattle.cv_inline_sites.specs.pairs.Branches as branches;
ghost use Rattle.cv_inline_sites.specs.pairs.Branches.{IsLiveBranch, branch_in, first_branch, two_in};

use cv_syntax::{Head, NodeId, Pool, read_node};

/// The first branch of a list, and the rest of the list.
#[derive(Clone, Copy)]
pub struct Branch {
    pub index: u32,
    pub bound: u32,
    pub binders: Option<NodeId>,
    pub cells: Option<NodeId>,
    pub condition: Option<NodeId>,
    pub body: Option<NodeId>,
    pub more: Option<NodeId>,
}

/// Two children.
#[derive(Clone, Copy)]
struct Two {
    pub first: Option<NodeId>,
    pub second: Option<NodeId>,
}

/// The first item of a list, and the rest.
#[tactic(auto, using(cv_syntax::proofs::Trees::empty_at))]
fn item(pool: &Pool, list: Option<NodeId>) -> Option<Two>
    requires { ChildBelow (length pool.now.trees) list }
    ensures trees { option_map (two_in pool.now.trees) result
        ≡ branches.item (tree_at pool.now.trees list) }
    ensures first { IfSome result (λ t. ChildBelow (length pool.now.trees) t.first) }
    ensures second { IfSome result (λ t. ChildBelow (length pool.now.trees) t.second) }
    ensures below { IfSome result (λ t. above t.second < above list) }
    ensures below_first { IfSome result (λ t. above t.first < above list) }
{
    let Some(n) = list else {
        return None;
    };
    let node = read_node(pool, n);
    match node.head {
        Head::Cons => Some(Two {
            first: node.first,
            second: node.second,
        }),
        _ => None,
    }
}

/// The indices of a branch, and what stands under them.
#[tactic(auto, using(cv_syntax::proofs::Trees::empty_at))]
fn parts(pool: &Pool, branch: Option<NodeId>) -> Option<Two>
    requires { ChildBelow (length pool.now.trees) branch }
    ensures trees { option_map (two_in pool.now.trees) result
        ≡ branches.parts (tree_at pool.now.trees branch) }
    ensures first { IfSome result (λ t. ChildBelow (length pool.now.trees) t.first) }
    ensures second { IfSome result (λ t. ChildBelow (length pool.now.trees) t.second) }
    ensures below { IfSome result (λ t. above t.second < above branch) }
{
    let Some(n) = branch else {
        return None;
    };
    let node = read_node(pool, n);
    match node.head {
        Head::Branch => Some(Two {
            first: node.first,
            second: node.second,
        }),
        _ => None,
    }
}

/// The first of the indices of a branch, with its bound.
#[tactic(auto, using(cv_syntax::proofs::Trees::empty_at))]
fn binder(pool: &Pool, binders: Option<NodeId>) -> Option<(u32, u32)>
    requires { ChildBelow (length pool.now.trees) binders }
    ensures { result ≡ branches.binder (tree_at pool.now.trees binders) }
{
    let Some(n) = binders else {
        return None;
    };
    match read_node(pool, n).head {
        Head::Binder(u, n) => Some((u, n)),
        _ => None,
    }
}

/// The first branch of a list of branches.
pub(crate) fn first_branch(pool: &Pool, list: Option<NodeId>) -> Option<Branch>
    requires { ChildBelow (length pool.now.trees) list }
    ensures trees { option_map (branch_in pool.now.trees) result
        ≡ first_branch (tree_at pool.now.trees list) }
    ensures live { IfSome result (λ b. IsLiveBranch (length pool.now.trees) b) }
    ensures below { IfSome result (λ b. above b.more < above list) }
    ensures inner { IfSome result (λ b. above b.body < above list) }
{
    let branches = item(pool, list)?;
    let branch = parts(pool, branches.first)?;
    let (index, bound) = binder(pool, branch.first)?;
    let guard = item(pool, branch.second)?;
    let guarded = item(pool, guard.second)?;
    Some(Branch {
        index,
        bound,
        binders: branch.first,
        cells: guard.first,
        condition: guarded.first,
        body: guarded.second,
        more: branches.second,
    })
}
