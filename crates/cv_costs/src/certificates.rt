// What a certificate costs: a collision for each variable whose values it takes to differ.
ghost use Rattle.std.specs.Prelude.{◌≡◌, ◌<◌, ◌^◌, ◌++◌, [], IfOk, OnOk, Some, length};
ghost use Rattle.cv_pool.specs.Nodes.{ChildBelow};
ghost use Rattle.cv_syntax.specs.Declarations.{declarations};
ghost use Rattle.cv_syntax.specs.PoolTrees.{tree_at};
ghost use Rattle.cv_syntax.specs.limits.Limits.{nodes_of};
ghost use Rattle.cv_syntax_trees.specs.sites.Sites.{first_site, sites_of};
ghost use Rattle.cv_typing.specs.Tables.{arrays_of};
ghost use Rattle.cv_scope_rules.specs.typing.Signature.{OfGame};
ghost use Rattle.cv_scope_rules.specs.Phrases.{IsWellFormed};
ghost use Rattle.cv_scene_view.specs.Kept.{scene_of};
ghost use Rattle.cv_query_certificates.specs.PairParts.{names_in as names_there};
ghost use Rattle.cv_steps.specs.Costs.{cost_of};
ghost use Rattle.cv_costs.specs.Certificates as certificates;
ghost use Rattle.cv_costs.specs.Certificates.{collision_for, distinct_among as distinct_there, distinct_of};

use crate::products::collision_of_pairs;
use crate::variables::{parameters_of, type_of};
use cv_bound::{Collision, Collisions, Cost};
use cv_syntax::children::read_child;
use cv_syntax::{Head, NodeId, Pool, Work, read_node};
use cv_typing::Arrays;
use std::alloc::{AllocError, Global};

/// The list of the variables whose values are taken to differ: the first among the parts of a certificate.
fn distinct_among(pool: &Pool, parts: Option<NodeId>) -> Option<NodeId>
    requires { ChildBelow (length pool.now.trees) parts }
    ensures names { names_there (tree_at pool.now.trees result)
        ≡ distinct_there (tree_at pool.now.trees parts) }
    ensures live { ChildBelow (length pool.now.trees) result }
{
    let mut at = parts;
    'parts: while let Some(n) = at {
        let cell = read_node(pool, n);
        if let Some(part) = read_child(pool, cell.first) {
            if let Head::DistinctPart = part.head {
                return part.first;
            }
        }
        at = cell.second;
    }
    None
}

/// The names of a list, as far as it has some.
fn names_in(alloc: Global, pool: &Pool, list: Option<NodeId>) -> Result<Vec<u32>, AllocError>
    requires { ChildBelow (length pool.now.trees) list }
    ensures { IfOk result (λ made. made.items ≡ names_there (tree_at pool.now.trees list)) }
{
    let mut made = Vec::new(alloc);
    let mut at = list;
    'names: while let Some(n) = at {
        let cell = read_node(pool, n);
        let Some(item) = read_child(pool, cell.first) else {
            return Ok(made);
        };
        let Head::Name(x) = item.head else {
            return Ok(made);
        };
        made.push(x)?;
        at = cell.second;
    }
    Ok(made)
}

/// The variables whose values a certificate takes to differ.
fn names_of(alloc: Global, pool: &Pool, certificate: Option<NodeId>) -> Result<Vec<u32>, AllocError>
    requires { ChildBelow (length pool.now.trees) certificate }
    ensures { IfOk result (λ made. made.items
        ≡ distinct_of (tree_at pool.now.trees certificate)) }
{
    let Some(node) = read_child(pool, certificate) else {
        return Ok(Vec::new(alloc));
    };
    match node.head {
        Head::EventsCertificate => names_in(alloc, pool, distinct_among(pool, node.first)),
        _ => Ok(Vec::new(alloc)),
    }
}

/// Adds the collision of two values of a variable, where there is one.
fn add_collision(
    alloc: Global,
    list: &mut Vec<Collision>,
    work: &Work,
    game: NodeId,
    arrays: &Arrays,
    x: u32,
) -> Result<(), AllocError>
    requires arrays { arrays_of arrays.now
        ≡ OfGame (sites_of (tree_at work.now.pool.trees (Some game))) }
    requires formed { IsWellFormed (declarations work.now.pool.trees work.now.decls.list)
        (tree_at work.now.pool.trees (Some game)) }
    ensures { OnOk result (list.new.items ≡ list.old.items ++ collision_for
        (declarations work.now.pool.trees work.now.decls.list)
        (first_site x [] (tree_at work.now.pool.trees (Some game)))) }
{
    let Some(sort) = arrays.variable_sort(x) else {
        return Ok(());
    };
    let parameters = parameters_of(alloc, arrays, x)?;
    let collision = collision_of_pairs(alloc, &work.decls, parameters.as_slice(), type_of(sort))?;
    list.push(collision)?;
    Ok(())
}

/// What a certificate costs in a game.
pub fn cost_of_certificate(
    alloc: Global,
    work: &Work,
    game: NodeId,
    arrays: &Arrays,
    certificate: Option<NodeId>,
) -> Result<Cost, AllocError>
    requires arrays { arrays_of arrays.now
        ≡ OfGame (sites_of (tree_at work.now.pool.trees (Some game))) }
    requires formed { IsWellFormed (declarations work.now.pool.trees work.now.decls.list)
        (tree_at work.now.pool.trees (Some game)) }
    requires certificate { ChildBelow (length work.now.pool.trees) certificate }
    requires few { nodes_of (tree_at work.now.pool.trees certificate) < 2 ^ 32 }
    ensures { IfOk result (λ made. made ≡ cost_of (certificates.cost_of_certificate
        (scene_of work.now.pool work.now.decls game)
        (tree_at work.now.pool.trees certificate))) }
{
    let names = names_of(alloc, &work.pool, certificate)?;
    if names.is_empty() {
        return Ok(Cost::Zero);
    }
    let mut list = Vec::new(alloc);
    'names: for k in 0..names.len() {
        add_collision(alloc, &mut list, work, game, arrays, names[k])?;
    }
    Ok(Cost::Collisions(Collisions::of(list)))
}
