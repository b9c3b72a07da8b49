ghost use Rattle.std.specs.Prelude.{◌≡◌, ◌<◌, ◌^◌, All, IfErr, IfOk, Some, length};
ghost use Rattle.cv_syntax_trees.specs.Tree.{size};
ghost use Rattle.cv_syntax.specs.PoolTrees.{tree_at};
ghost use Rattle.cv_directory.specs.Live.{IsLive};
ghost use Rattle.cv_syntax_trees.specs.sites.Sites.{sites_of};
ghost use Rattle.cv_scope_rules.specs.typing.Signature.{OfGame};
ghost use Rattle.cv_typing.specs.Tables.{arrays_of};
ghost use Rattle.cv_scene_view.specs.Kept.{scene_of};
ghost use Rattle.cv_steps_laws.specs.crypto.Conditions.{failure_of};
ghost use Rattle.cv_kernel_crypto.specs.Applied.{HasEquivalences};
ghost use Rattle.cv_kernel_crypto.specs.Faults.{IsRefused};
ghost use Rattle.cv_kernel_crypto.specs.Stages.{AreInstances, IsMet};

use crate::fault::{CryptoFault, refused};
use crate::naming::FIRST_ANSWER;
use cv_match::matches;
use cv_match_terms::patterns::Site;
use cv_scene_view::is_known;
use cv_syntax::children::room_left;
use cv_syntax::{BuildError, Game, NameId, NodeId, Work};
use cv_typing::Arrays;
use std::alloc::Global;

/// The equivalence of a step, by its node, with its sites in a game.
#[derive(Drop)]
pub struct Instances {
    pub(crate) tree: NodeId,
    pub(crate) sites: Vec<Site>,
}

/// The equivalence of a step with its sites in a game with these variables, by the names of the equivalence and of the variable
/// for its key; or the first condition that fails. An equivalence with more nodes than there are names below the answers is told
/// as want of memory, and so are as many sites.
pub(crate) fn instances_for(
    alloc: Global,
    work: &Work,
    game: NodeId,
    arrays: &Arrays,
    equivalence: u32,
    key: u32,
) -> Result<Instances, CryptoFault>
    requires live { game.0 < length work.now.pool.trees }
    requires fits { size (tree_at work.now.pool.trees (Some game)) < 2 ^ 32 }
    requires arrays { arrays_of arrays.now
        ≡ OfGame (sites_of (tree_at work.now.pool.trees (Some game))) }
    requires declared { All (IsLive (length work.now.pool.trees)) work.now.decls.list }
    requires equivalences { HasEquivalences (scene_of work.now.pool work.now.decls game) }
    ensures fault { IfErr result (IsRefused (failure_of
        (scene_of work.now.pool work.now.decls game) equivalence key)) }
    ensures found { IfOk result (AreInstances work.now.pool.trees
        (scene_of work.now.pool work.now.decls game) game key) }
    ensures met { IfOk result (IsMet work.now.pool.trees
        (scene_of work.now.pool work.now.decls game) equivalence key) }
{
    let name = NameId(equivalence);
    let Some(tree) = work.decls.equiv(name) else {
        return Err(refused(0, 0));
    };
    let Some(_) = room_left(&work.pool, Some(tree), FIRST_ANSWER) else {
        return Err(CryptoFault::Build(BuildError::OutOfMemory));
    };
    if !is_known(work, game, key) {
        return Err(refused(0, 0));
    }
    let found = matches(alloc, work, Game { root: game }, arrays, name, NameId(key))?;
    if found.sites.len() >= FIRST_ANSWER as usize {
        return Err(CryptoFault::Build(BuildError::OutOfMemory));
    }
    Ok(Instances {
        tree,
        sites: found.sites,
    })
}
