ghost use Rattle.std.specs.Prelude.{◌≡◌, ◌+◌, ◌<◌, ◌≤◌, ◌^◌, ℕ, All, IfOk, IfSome, OnErr, OnOk, Some, length, take};
ghost use Rattle.cv_pool.specs.PoolView.{Grows};
ghost use Rattle.cv_syntax.specs.Declarations.{declarations};
ghost use Rattle.cv_syntax_trees.specs.Tree.{size};
ghost use Rattle.cv_syntax.specs.PoolTrees.{tree_at};
ghost use Rattle.cv_directory.specs.Definitions.{entries_of, large_in};
ghost use Rattle.cv_directory.specs.Live.{IsLive};
ghost use Rattle.cv_syntax_trees.specs.sites.Sites.{sites_of};
ghost use Rattle.cv_directory.specs.Tables.{entries_in};
ghost use Rattle.cv_scope_rules.specs.typing.Signature.{OfGame};
ghost use Rattle.cv_typing.specs.Tables.{arrays_of, directory_in};
ghost use Rattle.cv_scope_rules.specs.Phrases.{IsWellFormed};
ghost use Rattle.cv_scene_view.specs.Kept.{scene_of};
ghost use Rattle.cv_kernel_crypto.specs.Applied.{DrawsNext, IsAnswer, IsFew};
ghost use Rattle.cv_kernel_crypto.specs.Stages.{AreInstances, AreTakenNames, IsBuilt, IsMet};

use crate::contexts::context_for;
use crate::fault::CryptoFault;
use crate::games::{Next, settle, settle_names};
use crate::inlining::inlining_for;
use crate::instances::Instances;
use crate::naming::names_for;
use crate::room::{check_room, room_behind};
use crate::testing::tested;
use cv_bound::costs::advantage;
use cv_inline_walk::next_game;
use cv_syntax::{NodeId, Work};
use std::alloc::Global;

/// Makes the context and the next game of a step, where the next game is within the limits and the pool has room for both.
fn build(
    alloc: Global,
    work: &mut Work,
    game: NodeId,
    key: u32,
    found: &Instances,
    taken: &[u32],
) -> Result<NodeId, CryptoFault>
    requires live { game.0 < length work.old.pool.trees }
    requires fits { size (tree_at work.old.pool.trees (Some game)) < 2 ^ 32 }
    requires formed { IsWellFormed (declarations work.old.pool.trees work.old.decls.list)
        (tree_at work.old.pool.trees (Some game)) }
    requires found { AreInstances work.old.pool.trees
        (scene_of work.old.pool work.old.decls game) game key found.now }
    requires taken { AreTakenNames work.old.names work.old.decls.own
        (tree_at work.old.pool.trees (Some game)) taken.now }
    ensures built { (e : ℕ) → IsMet work.old.pool.trees
        (scene_of work.old.pool work.old.decls game) e key found.now →
        IsBuilt work.old.pool.limit (length work.old.pool.trees)
        (scene_of work.old.pool work.old.decls game) e key work.new.pool.trees result }
    ensures drawn { (e : ℕ) → IsMet work.old.pool.trees
        (scene_of work.old.pool work.old.decls game) e key found.now →
        IfOk result (λ n. DrawsNext work.old.names work.new.names work.old.decls.own
        (scene_of work.old.pool work.old.decls game) e key
        (tree_at work.new.pool.trees (Some n))) }
    ensures live { IfOk result (λ n. n.0 < length work.new.pool.trees) }
    ensures grows { Grows work.old.pool work.new.pool }
    ensures names { take (length work.old.names) work.new.names ≡ work.old.names }
    ensures decls { work.new.decls ≡ work.old.decls }
{
    let before = work.pool.live();
    let sites = found.sites.as_slice();
    let context = context_for(alloc, &mut work.pool, game, key, sites)?;
    let room = room_behind(&work.pool, before, context)?;
    let inlining = inlining_for(
        alloc,
        &work.pool,
        &mut work.names,
        game,
        found,
        context,
        taken,
    )?;
    let root = next_game(
        alloc,
        &mut work.pool,
        &inlining.drawing,
        key,
        inlining.right_key,
        inlining.callings.as_slice(),
        context,
    )?;
    check_room(&mut work.pool, room, root)?;
    Ok(root)
}

/// Answers a step; where it isn't accepted, nodes and names may stay behind.
fn attempt(
    alloc: Global,
    work: &mut Work,
    game: NodeId,
    equivalence: u32,
    key: u32,
    found: &Instances,
    step: u32,
) -> Result<Next, CryptoFault>
    requires live { game.0 < length work.old.pool.trees }
    requires small { size (tree_at work.old.pool.trees (Some game)) ≤ 50000 }
    requires formed { IsWellFormed (declarations work.old.pool.trees work.old.decls.list)
        (tree_at work.old.pool.trees (Some game)) }
    requires declared { All (IsLive (length work.old.pool.trees)) work.old.decls.list }
    requires found { AreInstances work.old.pool.trees
        (scene_of work.old.pool work.old.decls game) game key found.now }
    requires met { IsMet work.old.pool.trees (scene_of work.old.pool work.old.decls game)
        equivalence key found.now }
    ensures answer { IsAnswer work.old.pool.limit (length work.old.pool.trees)
        (scene_of work.old.pool work.old.decls game) equivalence key step work.new.pool.trees
        result }
    ensures drawn { IfOk result (λ next. DrawsNext work.old.names work.new.names
        work.old.decls.own (scene_of work.old.pool work.old.decls game) equivalence key
        (tree_at work.new.pool.trees (Some next.game.root))) }
    ensures live { IfOk result (λ next. next.game.root.0 < length work.new.pool.trees) }
    ensures small { IfOk result (λ next.
        size (tree_at work.new.pool.trees (Some next.game.root)) ≤ 50000) }
    ensures arrays { IfOk result (λ next. arrays_of next.arrays
        ≡ OfGame (sites_of (tree_at work.new.pool.trees (Some next.game.root)))) }
    ensures entries { IfOk result (λ next. IfSome (directory_in next.arrays)
        (λ d. entries_in work.new.pool.trees d ≡ entries_of (large_in work.new.decls.list)
        (tree_at work.new.pool.trees (Some next.game.root)))) }
    ensures few { IfOk result (λ next. IsFew (length work.old.pool.trees)
        (scene_of work.old.pool work.old.decls game) equivalence key
        (length work.new.pool.trees)
        (tree_at work.new.pool.trees (Some next.game.root))) }
    ensures grows { Grows work.old.pool work.new.pool }
    ensures names { take (length work.old.names) work.new.names ≡ work.old.names }
    ensures decls { work.new.decls ≡ work.old.decls }
{
    let taken = names_for(alloc, work, game)?;
    let root = build(alloc, work, game, key, found, taken.as_slice())?;
    tested(alloc, work, root, advantage(step, equivalence))
}

/// Applies a cryptographic step in a game of a file, for the equivalence of this name with the sites that were found, where the
/// variable of the other name stands for its key: its conditions hold up to those of the next game. Its context is made, names are
/// drawn, the next game is measured and made, and tested last. The step costs the advantage of its context. Where it isn't accepted,
/// pool and names are as before.
pub fn apply(
    alloc: Global,
    work: &mut Work,
    game: NodeId,
    equivalence: u32,
    key: u32,
    found: &Instances,
    step: u32,
) -> Result<Next, CryptoFault>
    requires live { game.0 < length work.old.pool.trees }
    requires small { size (tree_at work.old.pool.trees (Some game)) ≤ 50000 }
    requires formed { IsWellFormed (declarations work.old.pool.trees work.old.decls.list)
        (tree_at work.old.pool.trees (Some game)) }
    requires declared { All (IsLive (length work.old.pool.trees)) work.old.decls.list }
    requires found { AreInstances work.old.pool.trees
        (scene_of work.old.pool work.old.decls game) game key found.now }
    requires met { IsMet work.old.pool.trees (scene_of work.old.pool work.old.decls game)
        equivalence key found.now }
    ensures answer { IsAnswer work.old.pool.limit (length work.old.pool.trees)
        (scene_of work.old.pool work.old.decls game) equivalence key step work.new.pool.trees
        result }
    ensures drawn { IfOk result (λ next. DrawsNext work.old.names work.new.names
        work.old.decls.own (scene_of work.old.pool work.old.decls game) equivalence key
        (tree_at work.new.pool.trees (Some next.game.root))) }
    ensures live { IfOk result (λ next. next.game.root.0 < length work.new.pool.trees) }
    ensures small { IfOk result (λ next.
        size (tree_at work.new.pool.trees (Some next.game.root)) ≤ 50000) }
    ensures arrays { IfOk result (λ next. arrays_of next.arrays
        ≡ OfGame (sites_of (tree_at work.new.pool.trees (Some next.game.root)))) }
    ensures entries { IfOk result (λ next. IfSome (directory_in next.arrays)
        (λ d. entries_in work.new.pool.trees d ≡ entries_of (large_in work.new.decls.list)
        (tree_at work.new.pool.trees (Some next.game.root)))) }
    ensures few { IfOk result (λ next. IsFew (length work.old.pool.trees)
        (scene_of work.old.pool work.old.decls game) equivalence key
        (length work.new.pool.trees)
        (tree_at work.new.pool.trees (Some next.game.root))) }
    ensures grows { Grows work.old.pool work.new.pool }
    ensures kept { OnErr result (work.new.pool.trees ≡ work.old.pool.trees) }
    ensures names { take (length work.old.names) work.new.names ≡ work.old.names }
    ensures back { OnErr result (work.new.names ≡ work.old.names) }
    ensures decls { work.new.decls ≡ work.old.decls }
{
    let nodes = work.pool.mark();
    let names = work.names.len();
    let outcome = attempt(alloc, work, game, equivalence, key, found, step);
    settle_names(&mut work.names, names, &outcome);
    settle(&mut work.pool, nodes, outcome)
}
