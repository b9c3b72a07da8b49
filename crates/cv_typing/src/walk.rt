ghost use Rattle.std.specs.Prelude.{◌≡◌, ◌<◌, ◌+◌, ◌^◌, None, Ok, length, IfOk, IfErr, OnOk};
ghost use Rattle.cv_pool.specs.Nodes.{ChildBelow};
ghost use Rattle.cv_syntax_trees.specs.Tree.{size};
ghost use Rattle.cv_syntax.specs.PoolTrees.{tree_at};
ghost use Rattle.cv_typing.specs.Lookups.{HasLiveArguments, IsLiveWant, signature_in, want_of};
ghost use Rattle.cv_scope_rules.specs.typing.Refusals.{IsRefusalOf};
ghost use Rattle.cv_typing.specs.Tables.{above_of};
ghost use Rattle.cv_scope_rules.specs.typing.Typing.{first_fault};

use crate::above::{bind_names, unbind};
use crate::arrays::Arrays;
use crate::below::{binds, wants_below};
use crate::faults::own_fault;
use cv_scope_rules::typing::{TypeFault, Want};
use cv_syntax::{Decls, NodeId, Pool, read_node};
use cv_syntax_trees::sites::Sort;
use std::alloc::Global;
use std::collections::HashMap;

/// The place behind a tree that is typed where it stands, or its first fault. The names above are as they were.
pub fn walk(
    alloc: Global,
    pool: &Pool,
    decls: &Decls,
    arrays: &Arrays,
    above: &mut HashMap<u32, Sort>,
    asked: Want,
    from: u32,
    tree: Option<NodeId>,
) -> Result<u32, TypeFault>
    requires live { ChildBelow (length pool.now.trees) tree }
    requires want { IsLiveWant (length pool.now.trees) asked }
    requires arguments { HasLiveArguments (length pool.now.trees) decls.now.list }
    requires fits { from + size (tree_at pool.now.trees tree) < 2 ^ 32 }
    ensures typed { OnOk result (first_fault
        (signature_in pool.now.trees decls.now.list arrays.now) (above_of above.old)
        (want_of pool.now.trees arrays.now asked) from (tree_at pool.now.trees tree) ≡ None) }
    ensures next { IfOk result (λ next. next ≡ from + size (tree_at pool.now.trees tree)) }
    ensures kept { OnOk result (above_of above.new ≡ above_of above.old) }
    ensures fault { IfErr result (IsRefusalOf
        (first_fault (signature_in pool.now.trees decls.now.list arrays.now) (above_of above.old)
        (want_of pool.now.trees arrays.now asked) from (tree_at pool.now.trees tree))) }
{
    let mut place = from;
    let mut want = asked;
    let mut at = tree;
    'tree: while let Some(k) = at {
        let node = read_node(pool, k);
        if let Some(fault) = own_fault(pool, decls, arrays, above, want, node) {
            return Err(fault.at(place));
        }
        let below = wants_below(pool, decls, arrays, above, want, node);
        place += node.head.weight();
        place = walk(
            alloc, pool, decls, arrays, above, below.0, place, node.first,
        )?;
        if binds(want, node.head) {
            let bound = bind_names(alloc, pool, above, node.head, node.first)?;
            let next = walk(
                alloc,
                pool,
                decls,
                arrays,
                above,
                below.1,
                place,
                node.second,
            )?;
            unbind(above, bound)?;
            return Ok(next);
        }
        want = below.1;
        at = node.second;
    }
    Ok(place)
}
