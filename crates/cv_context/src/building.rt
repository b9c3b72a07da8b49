ghost use Rattle.std.specs.Prelude.{◌≡◌, ◌+◌, ◌<◌, ◌≤◌, ◌^◌, ℕ, All, IfOk, IsErrOf, OnErr, OnOk, Some, length};
ghost use Rattle.cv_pool.specs.PoolView.{Grows};
ghost use Rattle.cv_syntax.specs.Postorder.{postorder};
ghost use Rattle.cv_syntax_trees.specs.Tree.{Tree, size};
ghost use Rattle.cv_syntax.specs.PoolTrees.{tree_at};
ghost use Rattle.cv_scene.specs.Scenes.{Scene};
ghost use Rattle.cv_scene.specs.Contexts.{context_of};
ghost use Rattle.cv_context.specs.Roles.{AreSitesOf, IsLiveCall, name_at};
ghost use Rattle.cv_syntax.specs.limits.Limits.{nodes_of};

use crate::calls::calls_of;
use crate::roles::roles_of;
use crate::walk::{Next, put};
use cv_match_terms::patterns::Site;
use cv_scope_rules::Position;
use cv_syntax::limits::plant_tree;
use cv_syntax::{Make, NodeId, Pool, PoolError};
use std::alloc::{AllocError, Global};

/// The parts of the context of a game.
fn parts(
    alloc: Global,
    pool: &Pool,
    key: u32,
    answers: &[u32],
    sites: &[Site],
    game: NodeId,
) -> Result<Vec<Make>, AllocError>
    requires live { game.0 < length pool.now.trees }
    requires fits { size (tree_at pool.now.trees (Some game)) < 2 ^ 32 }
    requires calls { All (IsLiveCall (length pool.now.trees)) sites.now }
    requires many { length sites.now < 2 ^ 32 }
    ensures { (s : Scene) (e : Tree)
        → AreSitesOf pool.now.trees s e key sites.now (Some game) → IfOk result
        (λ makes. makes.items ≡ postorder (context_of s e key (name_at answers.now)).game) }
{
    let roles = roles_of(alloc, pool, key, answers, sites)?;
    let calls = calls_of(alloc, sites)?;
    let mut makes = Vec::new(alloc);
    let mut passed = Vec::new(alloc);
    put(
        &mut makes,
        pool,
        &roles,
        calls.as_slice(),
        &mut passed,
        false,
        Position::Anywhere,
        Next { place: 0, site: 0 },
        Some(game),
    )?;
    Ok(makes)
}

/// Makes the context of a game for an equivalence and a key, where a search answered the sites, in preorder, and each has a name
/// for its answer. One reservation asks for all nodes of its tree. Where it fails, the pool has the trees that it had.
pub fn context(
    alloc: Global,
    pool: &mut Pool,
    key: u32,
    answers: &[u32],
    sites: &[Site],
    game: NodeId,
) -> Result<NodeId, PoolError>
    requires live { game.0 < length pool.old.trees }
    requires fits { size (tree_at pool.old.trees (Some game)) < 2 ^ 32 }
    requires calls { All (IsLiveCall (length pool.old.trees)) sites.now }
    requires many { length sites.now < 2 ^ 32 }
    ensures tree { (s : Scene) (e : Tree)
        → AreSitesOf pool.old.trees s e key sites.now (Some game)
        → IfOk result (λ n. tree_at pool.new.trees (Some n)
        ≡ (context_of s e key (name_at answers.now)).game) }
    ensures live { IfOk result (λ n. n.0 < length pool.new.trees) }
    ensures grows { OnOk result (Grows pool.old pool.new) }
    ensures room { (s : Scene) (e : Tree)
        → AreSitesOf pool.old.trees s e key sites.now (Some game)
        → OnOk result (length pool.old.trees
        + nodes_of (context_of s e key (name_at answers.now)).game ≤ pool.old.limit) }
    ensures full { (n : ℕ) → IsErrOf result (PoolError.Full n) → (s : Scene) (e : Tree)
        → AreSitesOf pool.old.trees s e key sites.now (Some game)
        → (n ≡ nodes_of (context_of s e key (name_at answers.now)).game)
        × (pool.old.limit < length pool.old.trees + n) }
    ensures kept { OnErr result (pool.new.trees ≡ pool.old.trees) }
    ensures limit { pool.new.limit ≡ pool.old.limit }
{
    match parts(alloc, pool, key, answers, sites, game) {
        Ok(makes) => plant_tree(alloc, pool, makes.as_slice()),
        Err(AllocError) => Err(PoolError::OutOfMemory),
    }
}
