ghost use Rattle.std.specs.Prelude.{◌≡◌, ◌++◌, ◌<◌, ◌^◌, All, IfOk, OnOk, Some, length, map};
ghost use Rattle.cv_pool.specs.Nodes.{ChildBelow};
ghost use Rattle.cv_syntax_trees.specs.declared.head.Head.TheVariants as head;
ghost use Rattle.cv_syntax_trees.specs.Tree.{Node, chain, lone, size};
ghost use Rattle.cv_syntax.specs.Postorder.{postorder};
ghost use Rattle.cv_syntax.specs.PoolTrees.{tree_at};
ghost use Rattle.cv_scene.specs.Late.{index_term};
ghost use Rattle.cv_scene.specs.Pairs.{of_second, second_indices};
ghost use Rattle.cv_scene.specs.Terms.{replications_at};
ghost use Rattle.cv_scene_view.specs.Kept.{scene_of};
ghost use Rattle.cv_query_certificates.specs.Pairs.{equations_between};
ghost use Rattle.cv_query_parts.specs.pairs.Lists.{is_row, lists_of, second_head, second_name};
ghost use Rattle.cv_query_parts.specs.pairs.Routes.{IsIndexBelow, index_tree};
ghost use Rattle.cv_query_parts.specs.pairs.Walks.{IsMet, needed_of};

use crate::pairs::marks::{push_plain, raised, raised_rows};
use crate::pairs::routes::{Index, indices_of};
use crate::pairs::walk::Pairing;
use cv_syntax::parts::{close, close_list, push_leaf, push_tree};
use cv_syntax::{Head, Make, NodeId, Pool, Work, read_node};
use std::alloc::{AllocError, Global};

/// The names of a second copy: its indices, and the number by which they are raised.
#[derive(Clone, Copy)]
pub struct Names<'a> {
    pub raise: u32,
    pub rows: &'a [(u32, u32)],
}

/// Whether a name is that of an index.
fn is_index(rows: &[(u32, u32)], x: u32) -> bool
    ensures { result ≡ is_row rows.now x }
{
    rows.iter().any(|row| row.0 == x)
}

/// A name in the second copy, if it is that of an index.
fn second_of(names: &Names, x: u32) -> Result<Option<u32>, AllocError>
    ensures { IfOk result (λ y. y ≡ second_name names.now.raise names.now.rows.now x) }
{
    if is_index(names.rows, x) {
        return Ok(Some(raised(names.raise, x)?));
    }
    Ok(None)
}

/// The name in the second copy of a node, where it is a name.
fn second_for(names: &Names, head: Head) -> Result<Option<u32>, AllocError>
    ensures { IfOk result (λ y. y ≡ second_head names.now.raise names.now.rows.now head) }
{
    match head {
        Head::Leaf(x) => second_of(names, x),
        _ => Ok(None),
    }
}

/// Makes a copy of a tree over the names of the second copy.
fn push_second(
    makes: &mut Vec<Make>,
    pool: &Pool,
    names: &Names,
    tree: Option<NodeId>,
) -> Result<(), AllocError>
    requires { ChildBelow (length pool.now.trees) tree }
    ensures { OnOk result (makes.new.items ≡ makes.old.items
        ++ postorder (of_second names.now.raise names.now.rows.now
        (tree_at pool.now.trees tree))) }
{
    let mut heads = Vec::new(*makes.allocator());
    let mut at = tree;
    'chain: while let Some(n) = at {
        let node = read_node(pool, n);
        if let Some(x) = second_for(names, node.head)? {
            push_leaf(makes, Head::Leaf(x))?;
            return close(makes, heads);
        }
        push_second(makes, pool, names, node.first)?;
        heads.push(node.head)?;
        at = node.second;
    }
    makes.push(Make::Nothing)?;
    close(makes, heads)
}

/// Makes the index of a replication in the second copy.
fn push_second_leaf(makes: &mut Vec<Make>, names: &Names, i: u32) -> Result<(), AllocError>
    ensures { OnOk result (makes.new.items ≡ makes.old.items
        ++ postorder (of_second names.now.raise names.now.rows.now (lone (head.Leaf i)))) }
{
    match second_of(names, i)? {
        Some(name) => push_leaf(makes, Head::Leaf(name)),
        None => push_leaf(makes, Head::Leaf(i)),
    }
}

/// Makes an index of the second copy.
fn push_second_index(
    makes: &mut Vec<Make>,
    pool: &Pool,
    names: &Names,
    index: Index,
) -> Result<(), AllocError>
    requires { IsIndexBelow (length pool.now.trees) index }
    ensures { OnOk result (makes.new.items ≡ makes.old.items
        ++ postorder (of_second names.now.raise names.now.rows.now
        (index_tree pool.now.trees index))) }
{
    match index {
        Index::Own(i) => push_second_leaf(makes, names, i),
        Index::Term(term) => push_second(makes, pool, names, term),
    }
}

/// Makes an index.
fn push_index(makes: &mut Vec<Make>, pool: &Pool, index: Index) -> Result<(), AllocError>
    requires { IsIndexBelow (length pool.now.trees) index }
    ensures { OnOk result (makes.new.items
        ≡ makes.old.items ++ postorder (index_tree pool.now.trees index)) }
{
    match index {
        Index::Own(i) => push_leaf(makes, Head::Leaf(i)),
        Index::Term(term) => push_tree(makes, pool, term),
    }
}

/// Makes the equation of an index and of one of the second copy.
fn push_equation(
    makes: &mut Vec<Make>,
    pool: &Pool,
    names: &Names,
    one: Index,
    other: Index,
) -> Result<(), AllocError>
    requires one { IsIndexBelow (length pool.now.trees) one }
    requires other { IsIndexBelow (length pool.now.trees) other }
    ensures { OnOk result (makes.new.items ≡ makes.old.items
        ++ postorder (Node head.Eq (index_tree pool.now.trees one)
        (of_second names.now.raise names.now.rows.now (index_tree pool.now.trees other)))) }
{
    push_index(makes, pool, one)?;
    push_second_index(makes, pool, names, other)?;
    makes.push(Make::Over(Head::Eq))?;
    Ok(())
}

/// Makes the equations of indices and of those of the second copy, one by one.
pub(crate) fn push_equations(
    makes: &mut Vec<Make>,
    pool: &Pool,
    names: &Names,
    ones: &[Index],
    others: &[Index],
) -> Result<(), AllocError>
    requires ones { All (IsIndexBelow (length pool.now.trees)) ones.now }
    requires others { All (IsIndexBelow (length pool.now.trees)) others.now }
    ensures { OnOk result (makes.new.items ≡ makes.old.items
        ++ postorder (chain (equations_between (map (index_tree pool.now.trees) ones.now)
        (map (of_second names.now.raise names.now.rows.now)
        (map (index_tree pool.now.trees) others.now))))) }
{
    let count = ones.len().min(others.len());
    'indices: for k in 0..count {
        push_equation(makes, pool, names, ones[k], others[k])?;
    }
    close_list(makes, count)
}

/// Makes the equations that are given for a pair.
fn push_given(
    alloc: Global,
    makes: &mut Vec<Make>,
    work: &Work,
    game: NodeId,
    names: &Names,
    pairing: Pairing,
) -> Result<(), AllocError>
    requires live { game.0 < length work.now.pool.trees }
    requires fits { size (tree_at work.now.pool.trees (Some game)) < 2 ^ 32 }
    requires met { IsMet work.now.pool.trees pairing }
    requires rows { names.now.rows.now
        ≡ replications_at (scene_of work.now.pool work.now.decls game) pairing.second }
    ensures { OnOk result (makes.new.items ≡ makes.old.items ++ postorder (chain
        (needed_of (scene_of work.now.pool work.now.decls game) names.now.raise
        work.now.pool.trees pairing).given)) }
{
    let ones = indices_of(alloc, work, game, pairing.one)?;
    let others = indices_of(alloc, work, game, pairing.other)?;
    push_equations(makes, &work.pool, names, ones.as_slice(), others.as_slice())
}

/// Makes the list of indices.
pub(crate) fn push_indices(makes: &mut Vec<Make>, rows: &[(u32, u32)]) -> Result<(), AllocError>
    ensures { OnOk result (makes.new.items
        ≡ makes.old.items ++ postorder (chain (map index_term rows.now))) }
{
    'rows: for k in 0..rows.len() {
        push_leaf(makes, Head::Leaf(rows[k].0))?;
    }
    close_list(makes, rows.len())
}

/// Makes the lists of indices of the second copy, and of others in both copies.
fn push_rows(
    alloc: Global,
    makes: &mut Vec<Make>,
    names: &Names,
    same: &[(u32, u32)],
) -> Result<(), AllocError>
    ensures { OnOk result (makes.new.items ≡ makes.old.items
        ++ (postorder (chain (map index_term (second_indices names.now.raise names.now.rows.now)))
        ++ (postorder (chain (map index_term same.now))
        ++ postorder (chain (map index_term (second_indices names.now.raise same.now)))))) }
{
    let seconds = raised_rows(alloc, names.raise, names.rows)?;
    let others = raised_rows(alloc, names.raise, same)?;
    push_indices(makes, seconds.as_slice())?;
    push_indices(makes, same)?;
    push_indices(makes, others.as_slice())
}

/// Lists what is made to test a pair: the equations that are given, the indices of the second copy, the indices that may be the same in
/// both copies, these of the second copy, and the derivation over the names of both.
pub fn lists_for(
    alloc: Global,
    work: &Work,
    game: NodeId,
    names: &Names,
    same: &[(u32, u32)],
    pairing: Pairing,
) -> Result<Vec<Make>, AllocError>
    requires live { game.0 < length work.now.pool.trees }
    requires fits { size (tree_at work.now.pool.trees (Some game)) < 2 ^ 32 }
    requires met { IsMet work.now.pool.trees pairing }
    requires rows { names.now.rows.now
        ≡ replications_at (scene_of work.now.pool work.now.decls game) pairing.second }
    ensures { IfOk result (λ makes. makes.items ≡ postorder (lists_of
        (scene_of work.now.pool work.now.decls game) names.now.raise names.now.rows.now same.now
        work.now.pool.trees pairing)) }
{
    let mut makes = Vec::new(alloc);
    push_given(alloc, &mut makes, work, game, names, pairing)?;
    push_rows(alloc, &mut makes, names, same)?;
    push_plain(&mut makes, &work.pool, names.raise, pairing.by)?;
    close_list(&mut makes, 5)?;
    Ok(makes)
}
