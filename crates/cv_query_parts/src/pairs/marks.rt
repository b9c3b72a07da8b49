ghost use Rattle.std.specs.Prelude.{◌≡◌, ◌+◌, ◌++◌, ◌<◌, ◌≤◌, ◌^◌, IfErr, IfOk, List, OnOk, Some, length};
ghost use Rattle.std.specs.Option.{option_copied};
ghost use Rattle.cv_pool.specs.KindTree.{KindTree};
ghost use Rattle.cv_pool.specs.Nodes.{ChildBelow};
ghost use Rattle.cv_syntax.specs.Declarations.{declarations};
ghost use Rattle.cv_syntax.specs.Postorder.{postorder};
ghost use Rattle.cv_syntax.specs.PoolTrees.{tree_at};
ghost use Rattle.cv_scene.specs.Pairs.{second_indices};
ghost use Rattle.cv_scene_view.specs.Kept.{scene_of};
ghost use Rattle.cv_query_certificates.specs.Marks as marks;
ghost use Rattle.cv_query_parts.specs.pairs.Ends.{end_by};

use cv_syntax::parts::close;
use cv_syntax::{Decl, Decls, Head, Make, NodeId, Pool, Work, read_node};
use std::alloc::{AllocError, Global};

/// The first number above the name of a variable or of an index that a node has.
fn head_end(head: Head) -> u64
    ensures { result ≡ marks.head_end head }
{
    match head {
        Head::Repl(x, _) => u64::from(x) + 1,
        Head::Name(x) => u64::from(x) + 1,
        Head::New(x, _) => u64::from(x) + 1,
        Head::Let(x, _) => u64::from(x) + 1,
        Head::Binder(x, _) => u64::from(x) + 1,
        Head::Leaf(x) => u64::from(x) + 1,
        Head::Primed(x) => u64::from(x) + 1,
        Head::Read(x) => u64::from(x) + 1,
        Head::Key(x) => u64::from(x) + 1,
        Head::Call(x, _) => u64::from(x) + 1,
        _ => 0,
    }
}

/// The first number above all of them in a tree.
fn names_end(pool: &Pool, tree: Option<NodeId>) -> u64
    requires { ChildBelow (length pool.now.trees) tree }
    ensures { result ≡ marks.names_end (tree_at pool.now.trees tree) }
{
    let mut end = 0;
    let mut at = tree;
    'chain: while let Some(n) = at {
        let node = read_node(pool, n);
        end = end
            .max(head_end(node.head))
            .max(names_end(pool, node.first));
        at = node.second;
    }
    end
}

/// The first number above the name that a declaration has, if it has one.
fn decl_end(decl: Option<&Decl>) -> u64
    ensures { result ≡ end_by (option_copied decl.entry) }
{
    match decl {
        Some(Decl::Name { id, .. }) => u64::from(id.0) + 1,
        _ => 0,
    }
}

/// The first number above the names that are declared.
fn declared_end(decls: &Decls) -> u64
    ensures { (trees : List KindTree) → result
        ≡ marks.declared_end (declarations trees decls.now.list) }
{
    let mut end = 0;
    'decls: for k in 0..decls.len() {
        end = end.max(decl_end(decls.get(k)));
    }
    end
}

/// What is added to the names of the second copy, for a certificate with these parts. A pool has no names from 2 ^ 32 on.
pub fn raise_of(work: &Work, game: NodeId, parts: Option<NodeId>) -> Result<u32, AllocError>
    requires game { game.0 < length work.now.pool.trees }
    requires parts { ChildBelow (length work.now.pool.trees) parts }
    ensures raise { IfOk result (λ k. k
        ≡ marks.raise_of (scene_of work.now.pool work.now.decls game)
        (tree_at work.now.pool.trees parts)) }
    ensures large { IfErr result (λ error. 2 ^ 32
        ≤ marks.raise_of (scene_of work.now.pool work.now.decls game)
        (tree_at work.now.pool.trees parts)) }
{
    let named = names_end(&work.pool, Some(game)).max(names_end(&work.pool, parts));
    let raise = declared_end(&work.decls).max(named);
    if raise > 4_294_967_295 {
        return Err(AllocError);
    }
    Ok(raise as u32)
}

/// A name that is raised by a number. A pool has no names from 2 ^ 32 on.
pub(crate) fn raised(k: u32, i: u32) -> Result<u32, AllocError>
    ensures name { IfOk result (λ j. j ≡ i + k) }
    ensures large { IfErr result (λ error. 2 ^ 32 ≤ i + k) }
{
    if k > u32::MAX - i {
        return Err(AllocError);
    }
    Ok(i + k)
}

/// Indices with their parameters under their names in the second copy.
pub fn raised_rows(
    alloc: Global,
    k: u32,
    rows: &[(u32, u32)],
) -> Result<Vec<(u32, u32)>, AllocError>
    ensures { IfOk result (λ seconds. seconds.items ≡ second_indices k rows.now) }
{
    let mut seconds = Vec::new(alloc);
    'rows: for n in 0..rows.len() {
        let row = rows[n];
        seconds.push((raised(k, row.0)?, row.1))?;
    }
    Ok(seconds)
}

/// A node whose marked name is raised.
fn plain_head(k: u32, head: Head) -> Result<Head, AllocError>
    ensures { IfOk result (λ h. h ≡ marks.plain_head k head) }
{
    match head {
        Head::Primed(i) => Ok(Head::Leaf(raised(k, i)?)),
        _ => Ok(head),
    }
}

/// Makes a copy of a tree whose marked names are raised.
pub(crate) fn push_plain(
    makes: &mut Vec<Make>,
    pool: &Pool,
    k: u32,
    tree: Option<NodeId>,
) -> Result<(), AllocError>
    requires { ChildBelow (length pool.now.trees) tree }
    ensures { OnOk result (makes.new.items
        ≡ makes.old.items ++ postorder (marks.plain k (tree_at pool.now.trees tree))) }
{
    let mut heads = Vec::new(*makes.allocator());
    let mut at = tree;
    'chain: while let Some(n) = at {
        let node = read_node(pool, n);
        push_plain(makes, pool, k, node.first)?;
        heads.push(plain_head(k, node.head)?)?;
        at = node.second;
    }
    makes.push(Make::Nothing)?;
    close(makes, heads)
}
