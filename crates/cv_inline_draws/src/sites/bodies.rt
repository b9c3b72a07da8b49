ghost use Rattle.std.specs.Prelude.{◌≡◌, ◌++◌, ◌∷◌, ◌<◌, [], ℕ, All, IfNone, IfOk, IfSome, List, flat_map};
ghost use Rattle.cv_syntax.specs.PoolTrees.{tree_at};
ghost use Rattle.cv_syntax.specs.Walks.{above};
ghost use Rattle.cv_meaning.specs.contexts.Inlined.{Caller};
ghost use Rattle.cv_inline.specs.Draws.{branches_draws};
ghost use Rattle.cv_inline_draws.specs.sites.Parts as parts;
ghost use Rattle.cv_inline_draws.specs.sites.Parts.{draws_at, draws_below, if_draws};
ghost use Rattle.cv_inline_sites.specs.listing.Subtrees.{IsBelow, IsNodeAt, IsWithin};

use cv_inline_sites::listing::{Parent, Subtree, node_at};
use cv_syntax::{Head, Pool};
use std::alloc::{AllocError, Global};

/// The body of a branch, and the list behind the branch.
#[derive(Clone, Copy)]
struct Branch {
    body: Subtree,
    behind: Subtree,
}

fn is_cons(head: Head) -> bool
    ensures { result ≡ parts.is_cons head }
{
    match head {
        Head::Cons => true,
        _ => false,
    }
}

fn is_branch(head: Head) -> bool
    ensures { result ≡ parts.is_branch head }
{
    match head {
        Head::Branch => true,
        _ => false,
    }
}

/// Whether these are the heads of a list's item, of its branch, of the branch's list and of its condition.
fn have_form(item: Head, branch: Head, cells: Head, condition: Head) -> bool
    ensures { result ≡ parts.have_form item branch cells condition }
{
    is_cons(item) && (is_branch(branch) && (is_cons(cells) && is_cons(condition)))
}

/// The first branch of a list.
fn branch_at(pool: &Pool, list: Subtree) -> Option<Branch>
    requires { IsWithin pool.now.trees list }
    ensures branch { IfSome result (λ b. (ss : List Caller) (c : ℕ) →
        branches_draws ss c list.place (tree_at pool.now.trees list.root)
        ≡ draws_at pool.now.trees ss c b.body
        ++ branches_draws ss c b.behind.place (tree_at pool.now.trees b.behind.root)) }
    ensures none { IfNone result ((ss : List Caller) (c : ℕ) →
        branches_draws ss c list.place (tree_at pool.now.trees list.root) ≡ []) }
    ensures body { IfSome result (λ b. IsBelow pool.now.trees (above list.root) b.body) }
    ensures behind { IfSome result (λ b. IsBelow pool.now.trees (above list.root) b.behind) }
{
    let item = node_at(pool, list)?;
    let branch = node_at(pool, item.first)?;
    let cells = node_at(pool, branch.second)?;
    let condition = node_at(pool, cells.second)?;
    if have_form(item.head, branch.head, cells.head, condition.head) {
        return Some(Branch {
            body: condition.second,
            behind: item.second,
        });
    }
    None
}

/// The bodies of the branches of a list.
fn bodies_of_branches(alloc: Global, pool: &Pool, list: Subtree) -> Result<Vec<Subtree>, AllocError>
    requires { IsWithin pool.now.trees list }
    ensures draws { IfOk result (λ bodies. (ss : List Caller) (c : ℕ) →
        flat_map (draws_at pool.now.trees ss c) bodies.items
        ≡ branches_draws ss c list.place (tree_at pool.now.trees list.root)) }
    ensures below { IfOk result (λ bodies.
        All (IsBelow pool.now.trees (above list.root)) bodies.items) }
{
    let mut bodies = Vec::new(alloc);
    let mut at = list;
    'branches: while let Some(branch) = branch_at(pool, at) {
        bodies.push(branch.body)?;
        at = branch.behind;
    }
    Ok(bodies)
}

/// The bodies of a `find`.
fn bodies_of_find(alloc: Global, pool: &Pool, node: Parent) -> Result<Vec<Subtree>, AllocError>
    requires first { IsWithin pool.now.trees node.first }
    requires second { IsWithin pool.now.trees node.second }
    ensures draws { IfOk result (λ bodies. (ss : List Caller) (c : ℕ) →
        flat_map (draws_at pool.now.trees ss c) bodies.items
        ≡ branches_draws ss c node.first.place (tree_at pool.now.trees node.first.root)
        ++ draws_at pool.now.trees ss c node.second) }
    ensures below { IfOk result (λ bodies. (bound : ℕ) → above node.first.root < bound
        → above node.second.root < bound → All (IsBelow pool.now.trees bound) bodies.items) }
{
    let mut bodies = bodies_of_branches(alloc, pool, node.first)?;
    bodies.push(node.second)?;
    Ok(bodies)
}

/// The two bodies of an `if`.
#[derive(Clone, Copy)]
struct Two {
    then: Subtree,
    other: Subtree,
}

/// The two bodies in the list of an `if`.
fn two_bodies(pool: &Pool, list: Subtree) -> Option<Two>
    requires { IsWithin pool.now.trees list }
    ensures two { IfSome result (λ b. (ss : List Caller) (c : ℕ) →
        if_draws ss c list.place (tree_at pool.now.trees list.root)
        ≡ draws_at pool.now.trees ss c b.then ++ draws_at pool.now.trees ss c b.other) }
    ensures none { IfNone result ((ss : List Caller) (c : ℕ) →
        if_draws ss c list.place (tree_at pool.now.trees list.root) ≡ []) }
    ensures then { IfSome result (λ b. IsBelow pool.now.trees (above list.root) b.then) }
    ensures other { IfSome result (λ b. IsBelow pool.now.trees (above list.root) b.other) }
{
    let then = node_at(pool, list)?;
    let other = node_at(pool, then.second)?;
    Some(Two {
        then: then.first,
        other: other.first,
    })
}

/// A list of two bodies.
fn both(alloc: Global, two: Two) -> Result<Vec<Subtree>, AllocError>
    ensures { IfOk result (λ bodies. bodies.items ≡ two.then ∷ two.other ∷ []) }
{
    let mut bodies = Vec::new(alloc);
    bodies.push(two.then)?;
    bodies.push(two.other)?;
    Ok(bodies)
}

/// The bodies of an `if`, of the list in which they stand.
fn bodies_of_if(alloc: Global, pool: &Pool, list: Subtree) -> Result<Vec<Subtree>, AllocError>
    requires { IsWithin pool.now.trees list }
    ensures draws { IfOk result (λ bodies. (ss : List Caller) (c : ℕ) →
        flat_map (draws_at pool.now.trees ss c) bodies.items
        ≡ if_draws ss c list.place (tree_at pool.now.trees list.root)) }
    ensures below { IfOk result (λ bodies.
        All (IsBelow pool.now.trees (above list.root)) bodies.items) }
{
    match two_bodies(pool, list) {
        Some(two) => both(alloc, two),
        None => Ok(Vec::new(alloc)),
    }
}

/// The bodies that stand directly below a body.
pub(crate) fn bodies_below(
    alloc: Global,
    pool: &Pool,
    body: Subtree,
) -> Result<Vec<Subtree>, AllocError>
    requires { IsWithin pool.now.trees body }
    ensures draws { IfOk result (λ bodies. (ss : List Caller) (c : ℕ) →
        flat_map (draws_at pool.now.trees ss c) bodies.items
        ≡ draws_below ss c body.place (tree_at pool.now.trees body.root)) }
    ensures below { IfOk result (λ bodies.
        All (IsBelow pool.now.trees (above body.root)) bodies.items) }
{
    let Some(node) = node_at(pool, body) else {
        return Ok(Vec::new(alloc));
    };
    match node.head {
        Head::New(_, _) => only(alloc, node.second),
        Head::Let(_, _) => only(alloc, node.second),
        Head::If => bodies_of_if(alloc, pool, node.second),
        Head::Find(_) => bodies_of_find(alloc, pool, node),
        _ => Ok(Vec::new(alloc)),
    }
}

/// A list of one body.
fn only(alloc: Global, body: Subtree) -> Result<Vec<Subtree>, AllocError>
    ensures { IfOk result (λ bodies. bodies.items ≡ body ∷ []) }
{
    let mut bodies = Vec::new(alloc);
    bodies.push(body)?;
    Ok(bodies)
}
