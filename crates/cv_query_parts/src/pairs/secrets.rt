ghost use Rattle.std.specs.Prelude.{◌≡◌, ◌++◌, All, IfOk, IfSome, OnOk, length, map, option_map};
ghost use Rattle.cv_pool.specs.Nodes.{ChildBelow};
ghost use Rattle.cv_syntax_trees.specs.Tree.{chain};
ghost use Rattle.cv_syntax.specs.Postorder.{postorder};
ghost use Rattle.cv_syntax.specs.PoolTrees.{tree_at};
ghost use Rattle.cv_scope_rules.specs.Context.{items};
ghost use Rattle.cv_scene.specs.Late.{index_term};
ghost use Rattle.cv_scene.specs.Pairs.{all_of_second, second_indices};
ghost use Rattle.cv_query_certificates.specs.Pairs.{equations_between};
ghost use Rattle.cv_query_parts.specs.pairs.Routes.{IsIndexBelow, index_tree};
ghost use Rattle.cv_query_parts.specs.pairs.Secrets.{IsSecretBelow, items_of_secret, secret_lists_of, secret_seen};

use crate::pairs::lists::{Names, push_equations, push_indices};
use crate::pairs::marks::{push_plain, raised_rows};
use crate::pairs::routes::Index;
use crate::parts::place_in;
use cv_syntax::parts::close_list;
use cv_syntax::{Head, Make, NodeId, Pool, read_node};
use std::alloc::{AllocError, Global};

/// A part of a certificate of secrecy that is a pair.
#[derive(Clone, Copy)]
pub struct SecretPart {
    pub first: u64,
    pub second: u64,
    pub by: Option<NodeId>,
}

/// The pair that a part of a certificate of secrecy is.
#[tactic(auto, using(crate::proofs::Said::sayings))]
pub fn secret_of(pool: &Pool, part: Option<NodeId>) -> Option<SecretPart>
    requires { ChildBelow (length pool.now.trees) part }
    ensures pair { option_map (secret_seen pool.now.trees) result
        ≡ items_of_secret (tree_at pool.now.trees part) }
    ensures live { IfSome result (IsSecretBelow (length pool.now.trees)) }
{
    let node = read_node(pool, part?);
    let Head::SecretPair = node.head else {
        return None;
    };
    let behind = read_node(pool, node.second?);
    Some(SecretPart {
        first: place_in(pool, node.first),
        second: place_in(pool, behind.first),
        by: behind.second,
    })
}

/// The terms of a list.
#[tactic(auto, using(cv_syntax::proofs::Trees::opened))]
fn terms_of(alloc: Global, pool: &Pool, terms: Option<NodeId>) -> Result<Vec<Index>, AllocError>
    requires { ChildBelow (length pool.now.trees) terms }
    ensures trees { IfOk result (λ found. map (index_tree pool.now.trees) found.items
        ≡ items (tree_at pool.now.trees terms)) }
    ensures live { IfOk result (λ found. All (IsIndexBelow (length pool.now.trees)) found.items) }
{
    let mut found = Vec::new(alloc);
    let mut at = terms;
    'terms: while let Some(n) = at {
        let node = read_node(pool, n);
        found.push(Index::Term(node.first))?;
        at = node.second;
    }
    Ok(found)
}

/// Makes the equations of terms and of others in the second copy, one by one.
fn push_given(
    alloc: Global,
    makes: &mut Vec<Make>,
    pool: &Pool,
    names: &Names,
    one: Option<NodeId>,
    other: Option<NodeId>,
) -> Result<(), AllocError>
    requires one { ChildBelow (length pool.now.trees) one }
    requires other { ChildBelow (length pool.now.trees) other }
    ensures { OnOk result (makes.new.items ≡ makes.old.items
        ++ postorder (chain (equations_between (items (tree_at pool.now.trees one))
        (all_of_second names.now.raise names.now.rows.now
        (items (tree_at pool.now.trees other)))))) }
{
    let ones = terms_of(alloc, pool, one)?;
    let others = terms_of(alloc, pool, other)?;
    push_equations(makes, pool, names, ones.as_slice(), others.as_slice())
}

/// Makes the lists of the indices of the second copy, of the first, and again of the second.
fn push_both_rows(
    alloc: Global,
    makes: &mut Vec<Make>,
    names: &Names,
    firsts: &[(u32, u32)],
) -> Result<(), AllocError>
    ensures { OnOk result (makes.new.items ≡ makes.old.items
        ++ (postorder (chain (map index_term (second_indices names.now.raise names.now.rows.now)))
        ++ (postorder (chain (map index_term firsts.now))
        ++ postorder (chain (map index_term
        (second_indices names.now.raise names.now.rows.now)))))) }
{
    let seconds = raised_rows(alloc, names.raise, names.rows)?;
    push_indices(makes, seconds.as_slice())?;
    push_indices(makes, firsts)?;
    push_indices(makes, seconds.as_slice())
}

/// Lists what is made to test a pair of secrecy: that the index terms of a cell are in the first copy what those of a cell are in the
/// second one; the indices of the second copy, of the first, and again of the second; and the derivation over the names of both.
pub fn secret_lists(
    alloc: Global,
    pool: &Pool,
    names: &Names,
    firsts: &[(u32, u32)],
    one: Option<NodeId>,
    other: Option<NodeId>,
    by: Option<NodeId>,
) -> Result<Vec<Make>, AllocError>
    requires one { ChildBelow (length pool.now.trees) one }
    requires other { ChildBelow (length pool.now.trees) other }
    requires by { ChildBelow (length pool.now.trees) by }
    ensures { IfOk result (λ makes. makes.items ≡ postorder (secret_lists_of names.now.raise
        firsts.now names.now.rows.now (items (tree_at pool.now.trees one))
        (items (tree_at pool.now.trees other)) (tree_at pool.now.trees by))) }
{
    let mut makes = Vec::new(alloc);
    push_given(alloc, &mut makes, pool, names, one, other)?;
    push_both_rows(alloc, &mut makes, names, firsts)?;
    push_plain(&mut makes, pool, names.raise, by)?;
    close_list(&mut makes, 5)?;
    Ok(makes)
}
