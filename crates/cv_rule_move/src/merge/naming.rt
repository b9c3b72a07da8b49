ghost use Rattle.std.specs.Prelude.{◌≡◌, ◌+◌, ◌<◌, ◌^◌, ◌&&◌, All, IfErr, IfOk, OnOk, None, Some, length, not};
ghost use Rattle.cv_pool.specs.Nodes.{ChildBelow};
ghost use Rattle.cv_syntax_trees.specs.Tree.{Node, size};
ghost use Rattle.cv_syntax.specs.NameSets.{is_in};
ghost use Rattle.cv_syntax.specs.PoolTrees.{tree_at};
ghost use Rattle.cv_directory.specs.Live.{IsLive};
ghost use Rattle.cv_scene_view.specs.Kept.{scene_of};
ghost use Rattle.cv_rule_move.specs.merge.Looks.{first_besides, is_skipped};
ghost use Rattle.cv_costs.specs.names.Naming as spec;

use cv_costs::names::{is_one_queried, names_one, own_names};
use cv_syntax::{NodeId, Opened, Pool, Work, read_node};
use std::alloc::{AllocError, Global};
use std::collections::HashSet;

/// Places of a construct that are passed over: those before its first body, and those behind it.
#[derive(Clone, Copy)]
pub(crate) struct Skip {
    pub(crate) from: u32,
    pub(crate) body: u32,
    pub(crate) behind_body: u32,
    pub(crate) behind: u32,
}

/// Whether a place is passed over.
fn is_skipped(skip: Skip, place: u32) -> bool
    ensures { result ≡ is_skipped skip place }
{
    if skip.from <= place && place < skip.body {
        return true;
    }
    skip.behind_body <= place && place < skip.behind
}

/// Whether a node names one of these variables at a place that isn't passed over.
fn is_named(pool: &Pool, names: &HashSet<u32>, skip: Skip, place: u32, node: Opened) -> bool
    requires { ChildBelow (length pool.now.trees) node.first }
    ensures { result ≡ (spec.names_one (is_in names.now) node.head
        (tree_at pool.now.trees node.first) && not (is_skipped skip place)) }
{
    names_one(pool, names, node) && !is_skipped(skip, place)
}

/// The place behind a tree that stands at a place, where it names none of these variables but at places that are
/// passed over; or the first place that does.
fn naming(
    pool: &Pool,
    names: &HashSet<u32>,
    skip: Skip,
    from: u32,
    tree: Option<NodeId>,
) -> Result<u32, u32>
    requires live { ChildBelow (length pool.now.trees) tree }
    requires fits { from + size (tree_at pool.now.trees tree) < 2 ^ 32 }
    ensures none { OnOk result (spec.first_naming (is_in names.now) (is_skipped skip) from
        (tree_at pool.now.trees tree) ≡ None) }
    ensures next { IfOk result (λ next. next ≡ from + size (tree_at pool.now.trees tree)) }
    ensures found { IfErr result (λ p. spec.first_naming (is_in names.now) (is_skipped skip) from
        (tree_at pool.now.trees tree) ≡ Some p) }
{
    let mut place = from;
    let mut at = tree;
    'tree: while let Some(k) = at {
        let node = read_node(pool, k);
        if is_named(pool, names, skip, place, node) {
            return Err(place);
        }
        match naming(pool, names, skip, place + node.head.weight(), node.first) {
            Ok(next) => place = next,
            Err(found) => return Err(found),
        }
        at = node.second;
    }
    Ok(place)
}

/// The first place of a game where an index variable of a construct is named, but for places that are passed over;
/// 0, where a query names one.
pub(crate) fn first_besides(
    alloc: Global,
    work: &Work,
    game: NodeId,
    construct: Opened,
    skip: Skip,
) -> Result<Option<u32>, AllocError>
    requires live { game.0 < length work.now.pool.trees }
    requires construct { ChildBelow (length work.now.pool.trees) construct.first }
    requires fits { size (tree_at work.now.pool.trees (Some game)) < 2 ^ 32 }
    requires declared { All (IsLive (length work.now.pool.trees)) work.now.decls.list }
    ensures { IfOk result (λ found. found ≡ first_besides
        (scene_of work.now.pool work.now.decls game) (Node construct.head
        (tree_at work.now.pool.trees construct.first)
        (tree_at work.now.pool.trees construct.second))
        (is_skipped skip)) }
{
    let names = own_names(alloc, &work.pool, construct)?;
    if is_one_queried(work, game, &names) {
        return Ok(Some(0));
    }
    match naming(&work.pool, &names, skip, 0, Some(game)) {
        Ok(_) => Ok(None),
        Err(found) => Ok(Some(found)),
    }
}
