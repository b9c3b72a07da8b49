ghost use Rattle.std.specs.Prelude.{◌≡◌, ◌≤◌, ◌-◌, ◌^◌, ◌++◌, min, length, take, reverse, IfOk, OnOk};
ghost use Rattle.cv_syntax.specs.Postorder.{postorder};
ghost use Rattle.cv_syntax_trees.specs.Tree.{Tree, depth as tree_depth, size};
ghost use Rattle.cv_parse_grammar.specs.Filled.{bare, filled};
ghost use Rattle.cv_parse_names.specs.indices.Contexts.{depth_at, nodes_at};
ghost use Rattle.cv_parse_names.specs.indices.Current.{numbers_of};
ghost use Rattle.cv_parse_names.specs.indices.Stacks.{both, first_above, rest_above};

use crate::indices::context::{Context, Place, next_context, open};
use crate::indices::current::Current;
use crate::indices::reads::index_count;
use crate::indices::sites::first_sites;
use cv_syntax::limits::Extent;
use cv_syntax::{Head, Make};
use std::alloc::{AllocError, Global};
use std::collections::HashMap;

/// How many syntax nodes one part has, and how many its longest path has.
#[derive(Clone, Copy, Debug, PartialEq, Eq)]
struct Weight {
    nodes: usize,
    depth: usize,
}

/// How many syntax nodes the game of a process has, and how many its longest path has. A number above
/// 4,294,967,295 is that number instead.
pub fn measure(alloc: Global, makes: &[Make]) -> Result<Extent, AllocError>
    ensures nodes { (t : Tree) → makes.now ≡ postorder t
        → IfOk result (λ m. m.nodes ≡ min (size (filled t)) 4294967295) }
    ensures depth { (t : Tree) → makes.now ≡ postorder t
        → IfOk result (λ m. m.depth ≡ min (tree_depth (filled t)) 4294967295) }
{
    let sites = first_sites(alloc, makes)?;
    let mut current = Current::new(alloc);
    let mut stack = Vec::new(alloc);
    let mut aboves = Vec::new(alloc);
    let mut nodes: usize = 0;
    let mut depth: usize = 0;
    let mut at = makes.len();
    'parts: while at > 0 {
        at -= 1;
        let context = next_context(&mut stack);
        let weight = weigh(&sites, &current, context, makes[at]);
        let below = next_above(&mut aboves).saturating_add(weight.depth);
        nodes = nodes.saturating_add(weight.nodes);
        depth = depth.max(below);
        open(&mut stack, &mut current, context, makes[at])?;
        open_twice(&mut aboves, below, makes[at])?;
    }
    Ok(Extent {
        nodes: saturated(nodes),
        depth: saturated(depth),
    })
}

/// What one part of the text weighs in the game.
fn weigh(sites: &HashMap<u32, usize>, current: &Current, context: Context, make: Make) -> Weight
    requires { context.level ≤ length current.now }
    ensures nodes { result.nodes ≡ min
        (nodes_at (numbers_of sites.now) (take context.level current.now) context.place make)
        (2 ^ 64 - 1) }
    ensures depth { result.depth ≡ depth_at (numbers_of sites.now) (take context.level current.now)
        context.place make }
{
    match (context.place, make) {
        (Place::Dropped, _) | (_, Make::Nothing) => Weight { nodes: 0, depth: 0 },
        (_, Make::Over(Head::Leaf(name))) => weigh_name(sites, current, context.level, name),
        (_, Make::Over(head)) => {
            let weight = head.weight() as usize;
            Weight {
                nodes: weight,
                depth: weight,
            }
        }
    }
}

/// What a bare name weighs: one node, and one for each index that it gets.
fn weigh_name(sites: &HashMap<u32, usize>, current: &Current, level: usize, name: u32) -> Weight
    requires { level ≤ length current.now }
    ensures nodes { result.nodes ≡ min
        (size (bare (numbers_of sites.now) (take level current.now) name)) (2 ^ 64 - 1) }
    ensures depth { result.depth ≡ tree_depth
        (bare (numbers_of sites.now) (take level current.now) name) }
{
    let count = index_count(sites, current, level, name);
    Weight {
        nodes: count.saturating_add(1),
        depth: if count == 0 { 1 } else { 2 },
    }
}

/// How many syntax nodes stand above the next tree.
fn next_above(aboves: &mut Vec<usize>) -> usize
    ensures first { first_above (reverse aboves.old.items) ≡ result }
    ensures others { rest_above (reverse aboves.old.items) ≡ reverse aboves.new.items }
{
    aboves.pop().unwrap_or(0)
}

/// Notes for both children of a node how many syntax nodes stand above them.
fn open_twice(aboves: &mut Vec<usize>, above: usize, make: Make) -> Result<(), AllocError>
    ensures { OnOk result (aboves.new.items ≡ aboves.old.items ++ both above make) }
{
    if let Make::Over(_) = make {
        aboves.push(above)?;
        aboves.push(above)?;
    }
    Ok(())
}

/// A number, or 4,294,967,295 if it is above that.
fn saturated(number: usize) -> u32
    ensures { result ≡ min number 4294967295 }
{
    number.min(4_294_967_295) as u32
}
