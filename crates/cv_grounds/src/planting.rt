// Terms of a table as nodes of the pool.
ghost use Rattle.std.specs.Prelude.{◌≡◌, ◌<◌, ℕ, All, IfOk, OnErr, length};
ghost use Rattle.cv_pool.specs.PoolView.{Grows};

use cv_closure::{TermId, Terms};
use cv_syntax::{NodeId, Pool, PoolError, build, kind_of};
use std::alloc::{AllocError, Global};

/// How many nodes are asked for: one for each term, and one for each argument in its list.
fn need(terms: &Terms) -> u32 {
    let mut count = terms.len();
    for number in 0..terms.len() {
        let arity = terms.arguments(TermId(number)).len();
        count = count.saturating_add(u32::try_from(arity).unwrap_or(u32::MAX));
    }
    count
}

/// The nodes of arguments, by those of the terms before. There are fewer where one isn't there.
fn nodes_of(
    alloc: Global,
    nodes: &[NodeId],
    arguments: &[TermId],
) -> Result<Vec<NodeId>, AllocError>
    ensures { (n : ℕ) → All (λ m. m.0 < n) nodes.now
        → IfOk result (λ ms. All (λ m. m.0 < n) ms.items) }
{
    let mut list = Vec::new(alloc);
    for argument in arguments {
        if let Some(node) = nodes.get(argument.0 as usize) {
            list.push(*node)?;
        }
    }
    Ok(list)
}

/// Makes the node of a term, over those of the terms before. Where there is no room it is want of memory.
#[tactic(auto, using(cv_pool::proofs::Growth::growth))]
fn plant_term(
    alloc: Global,
    pool: &mut Pool,
    terms: &Terms,
    nodes: &[NodeId],
    t: TermId,
) -> Result<NodeId, AllocError>
    requires { All (λ n. n.0 < length pool.old.trees) nodes.now }
    ensures live { IfOk result (λ n. n.0 < length pool.new.trees) }
    ensures grows { Grows pool.old pool.new }
{
    let Some(head) = terms.head(t) else {
        return Err(AllocError);
    };
    let kids = nodes_of(alloc, nodes, terms.arguments(t))?;
    if pool.spare() as usize <= kids.len() {
        return Err(AllocError);
    }
    Ok(build(pool, kind_of(head), &kids))
}

/// Makes the nodes of all terms, where there is room.
#[tactic(auto, using(cv_pool::proofs::Growth::growth))]
fn plant_all(alloc: Global, pool: &mut Pool, terms: &Terms) -> Result<Vec<NodeId>, AllocError>
    ensures live { IfOk result (λ ns. All (λ n. n.0 < length pool.new.trees) ns.items) }
    ensures grows { Grows pool.old pool.new }
{
    let mut nodes = Vec::new(alloc);
    for number in 0..terms.len() {
        let node = plant_term(alloc, pool, terms, &nodes, TermId(number))?;
        nodes.push(node)?;
    }
    Ok(nodes)
}

/// Makes the terms of a table in the pool: the node of each, in order. One reservation asks for all nodes; where it fails, or
/// memory runs out, the pool's nodes are as before.
#[tactic(auto, using(crate::proofs::Growing::growing))]
pub fn plant_terms(alloc: Global, pool: &mut Pool, terms: &Terms) -> Result<Vec<NodeId>, PoolError>
    ensures live { IfOk result (λ ns. All (λ n. n.0 < length pool.new.trees) ns.items) }
    ensures grows { Grows pool.old pool.new }
    ensures kept { OnErr result (pool.new.trees ≡ pool.old.trees) }
    ensures limit { pool.new.limit ≡ pool.old.limit }
{
    pool.reserve(need(terms))?;
    let before = pool.mark();
    match plant_all(alloc, pool, terms) {
        Ok(nodes) => Ok(nodes),
        Err(AllocError) => {
            pool.release(before);
            Err(PoolError::OutOfMemory)
        }
    }
}
