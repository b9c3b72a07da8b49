ghost use Rattle.std.specs.Prelude.{◌≡◌, ◌+◌, ◌<◌, ◌≤◌, ◌^◌, ◌++◌, All, IfOk, OnOk, length};
ghost use Rattle.cv_pool.specs.Nodes.{ChildBelow};
ghost use Rattle.cv_syntax.specs.Postorder.{postorder};
ghost use Rattle.cv_syntax_trees.specs.Tree.{size};
ghost use Rattle.cv_syntax.specs.PoolTrees.{tree_at};
ghost use Rattle.cv_scope_rules.specs.Context.{replications_below};
ghost use Rattle.cv_scene.specs.Sites as instances;
ghost use Rattle.cv_context.specs.nodes.Calls.{IsLive};
ghost use Rattle.cv_context.specs.Written.{is_site, part_unless};

use crate::nodes::{Call, Roles, answer, push_cell, put_node};
use cv_path::size_below;
use cv_scope_rules::Position;
use cv_syntax::parts::{close, push_tree};
use cv_syntax::{Head, Make, NodeId, Pool, read_node};
use std::alloc::AllocError;

/// Where a walk stands: the place of the next node, and the number of the next site.
#[derive(Clone, Copy)]
pub struct Next {
    pub place: u32,
    pub site: u32,
}

/// Whether the next site stands at the next node.
fn is_site(calls: &[Call], next: Next, head: Head) -> bool
    ensures { result ≡ is_site calls.now next.site next.place head }
{
    head.weight() == 1
        && match calls.get(next.site as usize) {
            Some(call) => call.place == next.place,
            None => false,
        }
}

/// Whether the first child there is a `defined` list or a condition.
fn is_guard(position: Position) -> bool
    ensures { result ≡ instances.is_guard position }
{
    match position {
        Position::Guards | Position::Guarded => true,
        _ => false,
    }
}

/// Notes the index of a replication with its parameter.
fn pass_replication(passed: &mut Vec<(u32, u32)>, head: Head) -> Result<(), AllocError>
    ensures { OnOk result (passed.new.items ≡ replications_below head passed.old.items) }
{
    match head {
        Head::Repl(i, n) => {
            passed.push((i, n))?;
            Ok(())
        }
        _ => Ok(()),
    }
}

/// Makes what stands in the context for a part of the game below replications, and says what is next behind the part.
pub fn put(
    makes: &mut Vec<Make>,
    pool: &Pool,
    roles: &Roles,
    calls: &[Call],
    passed: &mut Vec<(u32, u32)>,
    skip: bool,
    position: Position,
    from: Next,
    tree: Option<NodeId>,
) -> Result<Next, AllocError>
    requires live { ChildBelow (length pool.now.trees) tree }
    requires fits { from.place + size (tree_at pool.now.trees tree) < 2 ^ 32 }
    requires calls { All (IsLive (length pool.now.trees)) calls.now }
    requires many { length calls.now < 2 ^ 32 }
    requires few { from.site ≤ length calls.now }
    ensures makes { OnOk result (makes.new.items ≡ makes.old.items ++ postorder
        (part_unless skip pool.now.trees roles.now calls.now position passed.old.items
        from.site from.place (tree_at pool.now.trees tree)).tree) }
    ensures site { IfOk result (λ n. n.site
        ≡ (part_unless skip pool.now.trees roles.now calls.now position passed.old.items
        from.site from.place (tree_at pool.now.trees tree)).next) }
    ensures place { IfOk result (λ n. n.place
        ≡ from.place + size (tree_at pool.now.trees tree)) }
    ensures few { IfOk result (λ n. n.site ≤ length calls.now) }
    ensures order { IfOk result (λ n. from.site ≤ n.site) }
    ensures passed { OnOk result (passed.new.items ≡ passed.old.items) }
{
    if skip {
        push_tree(makes, pool, tree)?;
        let place = from.place + size_below(pool, tree);
        return Ok(Next {
            place,
            site: from.site,
        });
    }
    let outside = passed.len();
    let mut heads = Vec::new(*makes.allocator());
    let mut next = from;
    let mut here = position;
    let mut at = tree;
    'tree: while let Some(k) = at {
        let node = read_node(pool, k);
        if is_site(calls, next, node.head) {
            push_cell(makes, passed.as_slice(), answer(roles, next.site))?;
            close(makes, heads)?;
            passed.truncate(outside);
            let place = next.place + size_below(pool, at);
            return Ok(Next {
                place,
                site: next.site + 1,
            });
        }
        let mut inner = Vec::new(*makes.allocator());
        let below = Next {
            place: next.place + node.head.weight(),
            site: next.site,
        };
        let behind = put(
            &mut inner,
            pool,
            roles,
            calls,
            passed,
            is_guard(here),
            here.first(node.head),
            below,
            node.first,
        )?;
        put_node(
            makes,
            &mut heads,
            pool,
            roles,
            calls,
            node.head,
            next.site,
            behind.site,
            inner.as_slice(),
        )?;
        pass_replication(passed, node.head)?;
        next = behind;
        here = here.second(node.head);
        at = node.second;
    }
    makes.push(Make::Nothing)?;
    close(makes, heads)?;
    passed.truncate(outside);
    Ok(next)
}
