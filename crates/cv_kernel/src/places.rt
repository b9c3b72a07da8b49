// The places that a step lists.
ghost use Rattle.std.specs.Prelude.{◌≡◌, ◌∷◌, [], IfNone, IfOk, IfSome, length, true};
ghost use Rattle.cv_pool.specs.Nodes.{ChildBelow};
ghost use Rattle.cv_syntax.specs.PoolTrees.{tree_at};
ghost use Rattle.cv_kernel.specs.Places.{has_long, listed_numbers, number_item};

use cv_syntax::children::read_child;
use cv_syntax::{Head, NodeId, Pool, read_node};
use std::alloc::{AllocError, Global};

/// The number that an item of a list is, if it is one.
fn number_of(pool: &Pool, item: Option<NodeId>) -> Option<u64>
    requires { ChildBelow (length pool.now.trees) item }
    ensures some { IfSome result (λ v. number_item (tree_at pool.now.trees item) ≡ v ∷ []) }
    ensures none { IfNone result (number_item (tree_at pool.now.trees item) ≡ []) }
{
    let Some(node) = read_child(pool, item) else {
        return None;
    };
    match node.head {
        Head::Number(v) => Some(v),
        _ => None,
    }
}

/// The places of a list of numbers, unless one of these has more than 32 bits: no game has such a place.
pub(crate) fn places_in(
    alloc: Global,
    pool: &Pool,
    list: Option<NodeId>,
) -> Result<Option<Vec<u32>>, AllocError>
    requires { ChildBelow (length pool.now.trees) list }
    ensures some { IfOk result (λ o. IfSome o (λ places. places.items
        ≡ listed_numbers (tree_at pool.now.trees list))) }
    ensures none { IfOk result (λ o. IfNone o
        (has_long (listed_numbers (tree_at pool.now.trees list)) ≡ true)) }
{
    let mut places = Vec::new(alloc);
    let mut at = list;
    'items: while let Some(n) = at {
        let link = read_node(pool, n);
        if let Some(v) = number_of(pool, link.first) {
            if v > 4_294_967_295 {
                return Ok(None);
            }
            places.push(v as u32)?;
        }
        at = link.second;
    }
    Ok(Some(places))
}
