ghost use Rattle.std.specs.Prelude.{◌≡◌, reverse, Ok, IfErr, IfOk, OnOk};
ghost use Rattle.cv_syntax.specs.Postorder.{postorder};
ghost use Rattle.cv_syntax_trees.specs.Tree.{Tree, depth as tree_depth, size};
ghost use Rattle.cv_parse.specs.Weights.{capped};
ghost use Rattle.cv_parse.specs.Measures.{IsExtent, depths_behind, depths_over, part_size as size_in};
ghost use Rattle.cv_parse.specs.Parsed.{Refuses, sized};

use crate::ParseError;
use cv_syntax::limits::{Extent, check_limits};
use cv_syntax::{Head, Make};
use std::alloc::{AllocError, Global};

/// Checks that a game of an extent is no larger than a game may be.
pub fn check_size(extent: Extent) -> Result<(), ParseError>
    ensures small { (t : Tree) → IsExtent t extent → OnOk result (sized t ≡ Ok tt) }
    ensures large { (t : Tree) → IsExtent t extent → IfErr result (λ e. Refuses e (sized t)) }
{
    check_limits(extent)?;
    Ok(())
}

/// How many syntax nodes a part makes.
fn part_size(make: Make) -> u32
    ensures { result ≡ size_in make }
{
    match make {
        Make::Nothing => 0,
        Make::Over(head) => head.weight(),
    }
}

/// Puts a node over the two newest trees, of which the depths are there.
fn put_over(depths: &mut Vec<u32>, head: Head) -> Result<(), AllocError>
    ensures { OnOk result (reverse depths.new.items ≡ depths_over head (reverse depths.old.items)) }
{
    let second = depths.pop().unwrap_or(0);
    let first = depths.pop().unwrap_or(0);
    depths.push(first.max(second).saturating_add(head.weight()))?;
    Ok(())
}

/// Puts a part over the trees of which the depths are there.
fn put(depths: &mut Vec<u32>, make: Make) -> Result<(), AllocError>
    ensures { OnOk result (reverse depths.new.items
        ≡ depths_behind make (reverse depths.old.items)) }
{
    match make {
        Make::Nothing => depths.push(0)?,
        Make::Over(head) => put_over(depths, head)?,
    }
    Ok(())
}

/// The sizes of a tree, by its parts.
pub fn measure(alloc: Global, makes: &[Make]) -> Result<Extent, AllocError>
    ensures nodes { (t : Tree) → makes.now ≡ postorder t
        → IfOk result (λ m. m.nodes ≡ capped (size t)) }
    ensures depth { (t : Tree) → makes.now ≡ postorder t
        → IfOk result (λ m. m.depth ≡ capped (tree_depth t)) }
{
    let mut depths = Vec::new(alloc);
    let mut nodes: u32 = 0;
    'parts: for make in makes {
        nodes = nodes.saturating_add(part_size(*make));
        put(&mut depths, *make)?;
    }
    Ok(Extent {
        nodes,
        depth: depths.pop().unwrap_or(0),
    })
}
