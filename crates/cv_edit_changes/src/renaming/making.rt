ghost use Rattle.std.specs.Prelude.{◌≡◌, ◌+◌, ◌<◌, ◌≤◌, ◌⊎◌, ◌↔◌, ℕ, IfOk, IsErrOf, IsTrue, None, OnErr, OnOk, Some, false, length};
ghost use Rattle.cv_pool.specs.Nodes.{ChildBelow};
ghost use Rattle.cv_pool.specs.PoolView.{Grows};
ghost use Rattle.cv_syntax_trees.specs.Tree.{Node};
ghost use Rattle.cv_syntax.specs.PoolTrees.{tree_at};
ghost use Rattle.cv_scene.specs.Scenes as scenes;
ghost use Rattle.cv_scene.specs.Scenes.{names};
ghost use Rattle.cv_steps.specs.Renaming as renaming;
ghost use Rattle.cv_steps.specs.Renaming.{renamed};
ghost use Rattle.cv_edit_changes.specs.renaming.Chains.{IsRead, Stays};
ghost use Rattle.cv_edit_changes.specs.renaming.Needs.{need_renaming, nodes_renaming};

use crate::renaming::chain::{Link, chain};
use crate::renaming::counting::count_renaming;
use crate::renaming::heads::{head_names, renamed_head};
use cv_pool::PoolError;
use cv_syntax::{NodeId, Pool, kind_of};
use std::alloc::{AllocError, Global};

/// Whether a node stays as it is over these children.
fn stays(x: u32, link: Link, first: Option<NodeId>, second: Option<NodeId>) -> bool
    ensures { IsTrue result ↔ Stays x link first second }
{
    first == link.node.first && second == link.node.second && !head_names(x, link.node.head)
}

/// A node with another name in the place of a variable's, over these children: itself, where nothing else is there.
#[tactic(auto, using(cv_pool::proofs::Growth::growth))]
fn remade(
    pool: &mut Pool,
    x: u32,
    y: u32,
    link: Link,
    first: Option<NodeId>,
    second: Option<NodeId>,
) -> NodeId
    requires read { IsRead pool.old.trees link }
    requires spare { Stays x link first second ⊎ (0 < pool.old.spare) }
    requires first { ChildBelow (length pool.old.trees) first }
    requires second { ChildBelow (length pool.old.trees) second }
    ensures tree { tree_at pool.new.trees (Some result)
        ≡ Node (renaming.renamed_head x y link.node.head) (tree_at pool.old.trees first)
        (tree_at pool.old.trees second) }
    ensures live { result.0 < length pool.new.trees }
    ensures same { Stays x link first second
        → (result ≡ link.id) × (pool.new ≡ pool.old) }
    ensures grows { Grows pool.old pool.new }
    ensures spare { pool.old.spare ≤ pool.new.spare + 1 }
    ensures few { length pool.new.trees ≤ length pool.old.trees + 1 }
{
    if stays(x, link, first, second) {
        return link.id;
    }
    pool.node(kind_of(renamed_head(x, y, link.node.head)), first, second)
}

/// Makes a tree with another name in the place of a variable's. What doesn't have the name stays.
#[tactic(auto, using(cv_pool::proofs::Growth::growth))]
fn rename(
    alloc: Global,
    pool: &mut Pool,
    x: u32,
    y: u32,
    start: Option<NodeId>,
) -> Result<Option<NodeId>, AllocError>
    requires live { ChildBelow (length pool.old.trees) start }
    requires spare { nodes_renaming x (tree_at pool.old.trees start) ≤ pool.old.spare }
    ensures tree { IfOk result (λ n. tree_at pool.new.trees n
        ≡ renamed x y (tree_at pool.old.trees start)) }
    ensures live { IfOk result (λ n. ChildBelow (length pool.new.trees) n) }
    ensures same { IfOk result (λ n. names x (tree_at pool.old.trees start) ≡ false
        → n ≡ start) }
    ensures none { IfOk result (λ n. n ≡ None → start ≡ None) }
    ensures grows { Grows pool.old pool.new }
    ensures spare { OnOk result (pool.old.spare
        ≤ pool.new.spare + nodes_renaming x (tree_at pool.old.trees start)) }
    ensures few { OnOk result (length pool.new.trees
        ≤ length pool.old.trees + nodes_renaming x (tree_at pool.old.trees start)) }
{
    let mut left = chain(alloc, pool, start)?;
    let mut next = None;
    'up: while let Some(link) = left.pop() {
        let first = rename(alloc, pool, x, y, link.node.first)?;
        next = Some(remade(pool, x, y, link, first, next));
    }
    Ok(next)
}

/// Makes the game with another name in the place of a variable's. The pool is asked at once for room for each node that has
/// the name, or a node below that has it; more than a pool can have are never made.
pub fn make_renaming(
    alloc: Global,
    pool: &mut Pool,
    game: NodeId,
    x: u32,
    y: u32,
) -> Result<NodeId, PoolError>
    requires live { game.0 < length pool.old.trees }
    requires limit { pool.old.limit < 4294967295 }
    ensures tree { IfOk result (λ n. tree_at pool.new.trees (Some n)
        ≡ renamed x y (tree_at pool.old.trees (Some game))) }
    ensures live { IfOk result (λ n. n.0 < length pool.new.trees) }
    ensures grows { OnOk result (Grows pool.old pool.new) }
    ensures full { (n : ℕ) → IsErrOf result (PoolError.Full n)
        → (n ≡ need_renaming x (tree_at pool.old.trees (Some game)))
        × (pool.old.limit < length pool.old.trees + n) }
    ensures accepted { OnOk result (length pool.old.trees
        + need_renaming x (tree_at pool.old.trees (Some game)) ≤ pool.old.limit) }
    ensures kept { OnErr result (pool.new.trees ≡ pool.old.trees) }
    ensures limit { pool.new.limit ≡ pool.old.limit }
    ensures few { length pool.new.trees ≤ length pool.old.trees
        + need_renaming x (tree_at pool.old.trees (Some game)) }
{
    pool.reserve(count_renaming(pool, x, Some(game)))?;
    let mark = pool.mark();
    match rename(alloc, pool, x, y, Some(game)) {
        Ok(next) => Ok(next.unwrap_or(game)),
        Err(AllocError) => {
            pool.release(mark);
            Err(PoolError::OutOfMemory)
        }
    }
}
