ghost use Rattle.std.specs.Prelude.{◌≡◌, ◌+◌, ◌<◌, ◌^◌, IfErr, IfOk, None, OnOk, Some, length};
ghost use Rattle.cv_pool.specs.Nodes.{ChildBelow};
ghost use Rattle.cv_syntax_trees.specs.Tree.{size};
ghost use Rattle.cv_syntax.specs.PoolTrees.{tree_at};
ghost use Rattle.cv_scene.specs.Sites as instances;
ghost use Rattle.cv_match_terms.specs.patterns.Searches.{IsReady};
ghost use Rattle.cv_match.specs.instances.Matchings.{matching_by};
ghost use Rattle.cv_match.specs.instances.Walks.{use_unless};

use crate::instances::calls::is_call;
use cv_match_terms::patterns::Search;
use cv_match_terms::uses::is_reading;
use cv_path::size_below;
use cv_scope_rules::Position;
use cv_syntax::{NodeId, Work, read_node};

/// Whether the first child there is a `defined` list or a condition.
pub(crate) fn is_guard(position: Position) -> bool
    ensures { result ≡ instances.is_guard position }
{
    match position {
        Position::Guards | Position::Guarded => true,
        _ => false,
    }
}

/// The place behind a part of a game that doesn't read the key outside instances, lists and conditions; or the first place that
/// does.
pub fn outside_use(
    work: &Work,
    search: &Search,
    skip: bool,
    position: Position,
    from: u32,
    tree: Option<NodeId>,
) -> Result<u32, u32>
    requires ready { IsReady work.now.pool search.now }
    requires live { ChildBelow (length work.now.pool.trees) tree }
    requires fits { from + size (tree_at work.now.pool.trees tree) < 2 ^ 32 }
    ensures none { OnOk result (use_unless skip
        (matching_by work.now.pool work.now.decls search.now) position from
        (tree_at work.now.pool.trees tree) ≡ None) }
    ensures next { IfOk result (λ next. next ≡ from + size (tree_at work.now.pool.trees tree)) }
    ensures found { IfErr result (λ p. use_unless skip
        (matching_by work.now.pool work.now.decls search.now) position from
        (tree_at work.now.pool.trees tree) ≡ Some p) }
{
    if skip {
        return Ok(from + size_below(&work.pool, tree));
    }
    let mut place = from;
    let mut here = position;
    let mut at = tree;
    'tree: while let Some(k) = at {
        let node = read_node(&work.pool, k);
        if is_call(work, search, k) {
            return Ok(place + size_below(&work.pool, at));
        }
        if is_reading(search.key, node.head) {
            return Err(place);
        }
        let first = place + node.head.weight();
        match outside_use(
            work,
            search,
            is_guard(here),
            here.first(node.head),
            first,
            node.first,
        ) {
            Ok(next) => place = next,
            Err(found) => return Err(found),
        }
        here = here.second(node.head);
        at = node.second;
    }
    Ok(place)
}
