ghost use Rattle.std.specs.Prelude.{◌≡◌, ◌<◌, ◌^◌, All, IfErr, IfOk, Some, length, option_map};
ghost use Rattle.cv_syntax.specs.Declarations.{declarations};
ghost use Rattle.cv_syntax_trees.specs.Tree.{size};
ghost use Rattle.cv_syntax.specs.PoolTrees.{tree_at};
ghost use Rattle.cv_directory.specs.Live.{IsLive};
ghost use Rattle.cv_syntax_trees.specs.sites.Sites.{sites_of};
ghost use Rattle.cv_scope_rules.specs.typing.Signature.{OfGame};
ghost use Rattle.cv_typing.specs.Tables.{arrays_of};
ghost use Rattle.cv_scope_rules.specs.Phrases.{IsWellFormed};
ghost use Rattle.cv_scene_view.specs.Kept.{scene_of};
ghost use Rattle.cv_context.specs.products.Shapes as shapes;
ghost use Rattle.cv_context.specs.products.ShapesInCode.{shape_in};
ghost use Rattle.cv_steps_laws.specs.crypto.Conditions.{equivalence_of, failure_of};
ghost use Rattle.cv_kernel_crypto.specs.Applied.{HasEquivalences};
ghost use Rattle.cv_kernel_crypto.specs.Faults.{IsRefused};
ghost use Rattle.cv_kernel_crypto.specs.Stages.{AreInstances, IsMet};

use crate::fault::CryptoFault;
use crate::instances::{Instances, instances_for};
use cv_context::products::{Shape, shape_of};
use cv_syntax::{BuildError, NodeId, Work};
use cv_typing::Arrays;
use std::alloc::Global;

/// What a cryptographic step is made from: its equivalence with the sites in a game, and the shape of its context.
#[derive(Drop)]
pub struct Basis {
    pub instances: Instances,
    pub shape: Shape,
}

/// Looks for what a cryptographic step is made from in a game of a file, which has these variables: for the equivalence of this
/// name, where the variable of the other name stands for its key; or answers the first condition that fails.
pub fn plan(
    alloc: Global,
    work: &Work,
    game: NodeId,
    arrays: &Arrays,
    equivalence: u32,
    key: u32,
) -> Result<Basis, CryptoFault>
    requires live { game.0 < length work.now.pool.trees }
    requires fits { size (tree_at work.now.pool.trees (Some game)) < 2 ^ 32 }
    requires formed { IsWellFormed (declarations work.now.pool.trees work.now.decls.list)
        (tree_at work.now.pool.trees (Some game)) }
    requires arrays { arrays_of arrays.now
        ≡ OfGame (sites_of (tree_at work.now.pool.trees (Some game))) }
    requires declared { All (IsLive (length work.now.pool.trees)) work.now.decls.list }
    requires equivalences { HasEquivalences (scene_of work.now.pool work.now.decls game) }
    ensures fault { IfErr result (IsRefused (failure_of
        (scene_of work.now.pool work.now.decls game) equivalence key)) }
    ensures found { IfOk result (λ b. AreInstances work.now.pool.trees
        (scene_of work.now.pool work.now.decls game) game key b.instances) }
    ensures met { IfOk result (λ b. IsMet work.now.pool.trees
        (scene_of work.now.pool work.now.decls game) equivalence key b.instances) }
    ensures shape { IfOk result (λ b. option_map
        (λ t. shapes.shape_of (scene_of work.now.pool work.now.decls game) t key)
        (equivalence_of (scene_of work.now.pool work.now.decls game) equivalence)
        ≡ Some (shape_in b.shape)) }
{
    let instances = instances_for(alloc, work, game, arrays, equivalence, key)?;
    let Arrays::OfGame(directory) = arrays else {
        return Err(CryptoFault::Build(BuildError::OutOfMemory));
    };
    let sites = instances.sites.as_slice();
    let tree = Some(instances.tree);
    let shape = shape_of(alloc, &work.pool, directory, tree, key, sites)?;
    Ok(Basis { instances, shape })
}
