ghost use Rattle.std.specs.Prelude.{◌≡◌, ◌≤◌, IfOk, length, map};
ghost use Rattle.cv_pool.specs.Nodes.{ChildBelow};
ghost use Rattle.cv_syntax_trees.specs.Tree.{Tree, second};
ghost use Rattle.cv_syntax.specs.PoolTrees.{tree_at};
ghost use Rattle.cv_syntax.specs.Walks.{above};
ghost use Rattle.cv_directory.specs.Tables.{seen};
ghost use Rattle.cv_scene.specs.Instances.{Matching};
ghost use Rattle.cv_scene.specs.Scenes.{Scene};
ghost use Rattle.cv_match_terms.specs.patterns.Sites.{site_in};
ghost use Rattle.cv_context.specs.products.Products.{products};
ghost use Rattle.cv_context.specs.products.Shapes as definitions;
ghost use Rattle.cv_context.specs.products.ShapesInCode.{IsMatched, calls_in, shape_in};

use crate::products::calls::calls_of;
use crate::products::keys::keys_of;
use cv_directory::Directory;
use cv_match_terms::patterns::Site;
use cv_syntax::children::first_of;
use cv_syntax::{Head, NodeId, Pool, read_node};
use std::alloc::{AllocError, Global};

/// The calls of a function in a context.
#[derive(Drop)]
pub struct Calls {
    /// The name of the function.
    pub function: u32,
    /// For each of its sites, in preorder, the parameters of the replications above it.
    pub sites: Vec<Vec<u32>>,
}

/// How often keys are chosen in a context, and how often functions are called.
#[derive(Drop)]
pub struct Shape {
    /// The variable that stands for the key.
    pub key: u32,
    /// The parameters of the replications above its definition, outermost first.
    pub keys: Vec<u32>,
    /// The calls of each function of the left side, in its order.
    pub calls: Vec<Calls>,
}

/// Equal products.
fn copy_products(alloc: Global, sites: &[Vec<u32>]) -> Result<Vec<Vec<u32>>, AllocError>
    ensures { IfOk result (λ copy. products copy.items ≡ products sites.now) }
{
    let mut copy = Vec::new(alloc);
    'sites: for k in 0..sites.len() {
        copy.push(Vec::from_slice(alloc, sites[k].as_slice())?)?;
    }
    Ok(copy)
}

/// Equal calls.
fn copy_calls(alloc: Global, calls: &[Calls]) -> Result<Vec<Calls>, AllocError>
    ensures { IfOk result (λ copy. map calls_in copy.items ≡ map calls_in calls.now) }
{
    let mut copy = Vec::new(alloc);
    'calls: for k in 0..calls.len() {
        copy.push(Calls {
            function: calls[k].function,
            sites: copy_products(alloc, calls[k].sites.as_slice())?,
        })?;
    }
    Ok(copy)
}

impl Shape {
    /// An equal shape.
    pub fn copy(&self, alloc: Global) -> Result<Shape, AllocError>
        ensures { IfOk result (λ copy. shape_in copy ≡ shape_in self.now) }
    {
        Ok(Shape {
            key: self.key,
            keys: Vec::from_slice(alloc, self.keys.as_slice())?,
            calls: copy_calls(alloc, self.calls.as_slice())?,
        })
    }
}

/// The name of a function.
#[tactic(auto, using(cv_syntax::proofs::Trees::opened))]
fn name_of(pool: &Pool, f: Option<NodeId>) -> u32
    requires { ChildBelow (length pool.now.trees) f }
    ensures { result ≡ definitions.name_of (tree_at pool.now.trees f) }
{
    let Some(n) = f else {
        return 0;
    };
    match read_node(pool, n).head {
        Head::Oracle(x) => x,
        _ => 0,
    }
}

/// The calls of the functions of a list, whose nodes are numbered below a bound.
fn calls_from(
    alloc: Global,
    pool: &Pool,
    functions: Option<NodeId>,
    bound: u32,
    sites: &[Site],
) -> Result<Vec<Calls>, AllocError>
    requires functions { ChildBelow (length pool.now.trees) functions }
    requires few { above functions ≤ bound }
    ensures { (M : Matching) → IfOk result (λ calls. map calls_in calls.items
        ≡ definitions.calls_from (map (site_in pool.now.trees M) sites.now) 0
        (tree_at pool.now.trees functions)) }
{
    let mut calls = Vec::new(alloc);
    let mut position = 0;
    let mut at = functions;
    'functions: while let Some(n) = at {
        let node = read_node(pool, n);
        calls.push(Calls {
            function: name_of(pool, node.first),
            sites: calls_of(alloc, sites, position)?,
        })?;
        position += 1;
        at = node.second;
    }
    Ok(calls)
}

/// The calls of the functions of a side.
fn side_calls(
    alloc: Global,
    pool: &Pool,
    side: Option<NodeId>,
    sites: &[Site],
) -> Result<Vec<Calls>, AllocError>
    requires { ChildBelow (length pool.now.trees) side }
    ensures { (M : Matching) → IfOk result (λ calls. map calls_in calls.items
        ≡ definitions.calls_from (map (site_in pool.now.trees M) sites.now) 0
        (second (tree_at pool.now.trees side))) }
{
    let Some(n) = side else {
        return Ok(Vec::new(alloc));
    };
    let node = read_node(pool, n);
    calls_from(alloc, pool, node.second, n.0, sites)
}

/// The shape of the context of a game, for an equivalence and a variable for its key, by the sites of the left side.
pub fn shape_of(
    alloc: Global,
    pool: &Pool,
    directory: &Directory,
    equivalence: Option<NodeId>,
    key: u32,
    sites: &[Site],
) -> Result<Shape, AllocError>
    requires { ChildBelow (length pool.now.trees) equivalence }
    ensures { (s : Scene) → IsMatched pool.now.trees (seen directory.now) s
        (tree_at pool.now.trees equivalence) key sites.now
        → IfOk result (λ shape. shape_in shape
        ≡ definitions.shape_of s (tree_at pool.now.trees equivalence) key) }
{
    let calls = side_calls(alloc, pool, first_of(pool, equivalence), sites)?;
    Ok(Shape {
        key,
        keys: keys_of(alloc, directory, key)?,
        calls,
    })
}
