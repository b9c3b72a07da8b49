ghost use Rattle.std.specs.Prelude.{◌≡◌, ◌+◌, ◌<◌, ◌≤◌, ◌^◌, ℕ, All, IfOk, IsErrOf, OnErr, OnOk, Some, length, map};
ghost use Rattle.cv_pool.specs.PoolView.{Grows};
ghost use Rattle.cv_syntax_trees.specs.Tree.{Tree, size};
ghost use Rattle.cv_syntax.specs.PoolTrees.{tree_at};
ghost use Rattle.cv_match_terms.specs.declared.patterns.site.Site.{Site};
ghost use Rattle.cv_scene.specs.Scenes.{Scene};
ghost use Rattle.cv_scene.specs.Reductions.{context_of_game};
ghost use Rattle.cv_context.specs.Roles.{AreSitesOf, IsLiveCall, name_at};
ghost use Rattle.cv_match_laws.specs.answers.Answers.{above_names};
ghost use Rattle.cv_steps_laws.specs.crypto.Steps.{first_answer, reduction_of};
ghost use Rattle.cv_syntax.specs.limits.Limits.{nodes_of};

use crate::naming::FIRST_ANSWER;
use cv_context::context;
use cv_match_terms::patterns::Site;
use cv_syntax::{NodeId, Pool, PoolError};
use std::alloc::{AllocError, Global};

/// The names of the answers of so many sites.
fn answers_for(alloc: Global, count: usize) -> Result<Vec<u32>, AllocError>
    requires { count < first_answer }
    ensures { IfOk result (λ answers. (k : ℕ) → k < count →
        name_at answers.items k ≡ first_answer + k) }
{
    let mut answers = Vec::new(alloc);
    for k in 0..count {
        answers.push(FIRST_ANSWER + k as u32)?;
    }
    Ok(answers)
}

/// The positions of the functions of sites.
pub(crate) fn functions_of(alloc: Global, sites: &[Site]) -> Result<Vec<u32>, AllocError>
    ensures { IfOk result (λ functions.
        functions.items ≡ map (λ (s : Site). s.function) sites.now) }
{
    let mut functions = Vec::new(alloc);
    for site in sites {
        functions.push(site.function)?;
    }
    Ok(functions)
}

/// Makes the context of a game whose names are below those of the answers. Where it fails, the pool has the trees that it had.
pub(crate) fn context_for(
    alloc: Global,
    pool: &mut Pool,
    game: NodeId,
    key: u32,
    sites: &[Site],
) -> Result<NodeId, PoolError>
    requires live { game.0 < length pool.old.trees }
    requires fits { size (tree_at pool.old.trees (Some game)) < 2 ^ 32 }
    requires calls { All (IsLiveCall (length pool.old.trees)) sites.now }
    requires many { length sites.now < first_answer }
    ensures tree { (s : Scene) (e : Tree) → AreSitesOf pool.old.trees s e key sites.now (Some game)
        → above_names s.game ≤ first_answer → IfOk result (λ n. tree_at pool.new.trees (Some n)
        ≡ (context_of_game (reduction_of s e key)).game) }
    ensures live { IfOk result (λ n. n.0 < length pool.new.trees) }
    ensures grows { OnOk result (Grows pool.old pool.new) }
    ensures full { (n : ℕ) → IsErrOf result (PoolError.Full n) → (s : Scene) (e : Tree)
        → AreSitesOf pool.old.trees s e key sites.now (Some game)
        → above_names s.game ≤ first_answer
        → (n ≡ nodes_of (context_of_game (reduction_of s e key)).game)
        × (pool.old.limit < length pool.old.trees + n) }
    ensures kept { OnErr result (pool.new.trees ≡ pool.old.trees) }
    ensures limit { pool.new.limit ≡ pool.old.limit }
{
    match answers_for(alloc, sites.len()) {
        Ok(answers) => context(alloc, pool, key, answers.as_slice(), sites, game),
        Err(AllocError) => Err(PoolError::OutOfMemory),
    }
}
