ghost use Rattle.std.specs.Prelude.{◌≡◌, ◌<◌, ◌∷◌, [], IfSome, IfNone, Some, length};
ghost use Rattle.cv_pool.specs.Nodes.{ChildBelow};
ghost use Rattle.cv_syntax_trees.specs.Tree.{first, second};
ghost use Rattle.cv_syntax.specs.PoolTrees.{tree_at};
ghost use Rattle.cv_print_tables.specs.Items.{listed, items_at};
ghost use Rattle.cv_print_tables.specs.Prints.{first_head, node_items};

use cv_syntax::children::{first_of, second_of};
use cv_syntax::{Head, NodeId, Pool, read_node};

/// Trees that are printed one behind another.
#[derive(Clone, Copy)]
pub(crate) enum Items {
    /// The items of a list.
    Chain(Option<NodeId>),
    /// So many trees in one.
    Single(usize, Option<NodeId>),
}

/// The next tree, and the items behind it.
#[tactic(auto, using(crate::proofs::Lists::list_laws))]
pub(crate) fn next(pool: &Pool, items: Items) -> Option<(Option<NodeId>, Items)>
    requires { ChildBelow (length pool.now.trees) (items_at items) }
    ensures tree { IfSome result (λ r. ChildBelow (length pool.now.trees) r.0) }
    ensures rest { IfSome result (λ r. ChildBelow (length pool.now.trees) (items_at r.1)) }
    ensures some { IfSome result (λ r. listed pool.now.trees items
        ≡ tree_at pool.now.trees r.0 ∷ listed pool.now.trees r.1) }
    ensures none { IfNone result (listed pool.now.trees items ≡ []) }
{
    match items {
        Items::Chain(None) | Items::Single(0, _) => None,
        Items::Chain(Some(n)) => {
            let node = read_node(pool, n);
            Some((node.first, Items::Chain(node.second)))
        }
        Items::Single(1, at) => Some((at, Items::Single(0, None))),
        Items::Single(count, at) => Some((
            first_of(pool, at),
            Items::Single(count - 1, second_of(pool, at)),
        )),
    }
}

/// How many items there are.
#[tactic(auto, using(crate::proofs::Lists::list_laws))]
pub(crate) fn count(pool: &Pool, items: Items) -> usize
    requires { ChildBelow (length pool.now.trees) (items_at items) }
    ensures { result ≡ length (listed pool.now.trees items) }
{
    let mut at = match items {
        Items::Chain(at) => at,
        Items::Single(count, _) => return count,
    };
    let mut found = 0;
    'chain: while let Some(n) = at {
        found += 1;
        at = read_node(pool, n).second;
    }
    found
}

/// The items of a node over so many.
#[tactic(auto, using(crate::proofs::Lists::list_laws))]
pub(crate) fn items_of(pool: &Pool, count: usize, node: Option<NodeId>) -> Items
    requires { ChildBelow (length pool.now.trees) node }
    ensures live { ChildBelow (length pool.now.trees) (items_at result) }
    ensures items { listed pool.now.trees result ≡ node_items count (tree_at pool.now.trees node) }
{
    match count {
        0 => Items::Single(0, None),
        1 => Items::Single(1, first_of(pool, node)),
        _ => Items::Single(count, node),
    }
}

/// The head of the next tree, where there is a tree with a head.
#[tactic(auto, using(crate::proofs::Lists::list_laws))]
pub(crate) fn next_head(pool: &Pool, items: Items) -> Option<Head>
    requires { ChildBelow (length pool.now.trees) (items_at items) }
    ensures { result ≡ first_head (listed pool.now.trees items) }
{
    let (tree, _) = next(pool, items)?;
    Some(read_node(pool, tree?).head)
}
