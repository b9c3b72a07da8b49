ghost use Rattle.std.specs.Prelude.{◌≡◌, ◌++◌, All, IfOk, map};
ghost use Rattle.cv_syntax.specs.PoolTrees.{tree_at};
ghost use Rattle.cv_inline.specs.Draws as draws;
ghost use Rattle.cv_inline.specs.Draws.{finds_in};
ghost use Rattle.cv_inline_sites.specs.listing.Callings.{IsLiveCalling, callings_in};
ghost use Rattle.cv_inline_draws.specs.sites.Parts.{find_at};
ghost use Rattle.cv_inline_sites.specs.listing.Subtrees.{IsWithin};

use cv_inline::terms::Calling;
use cv_inline_sites::listing::{Subtree, node_at};
use cv_syntax::children::second_of;
use cv_syntax::{Head, Pool};
use std::alloc::{AllocError, Global};

/// Adds the find at a place of a site's body, if this is one.
fn add_find(
    finds: &mut Vec<(u32, u32)>,
    site: u32,
    place: u32,
    head: Head,
) -> Result<(), AllocError>
    ensures { IfOk result (λ _.
        finds.new.items ≡ finds.old.items ++ map (λ q. (site, q)) (find_at place head)) }
{
    match head {
        Head::Find(_) => {
            finds.push((site, place))?;
            Ok(())
        }
        _ => Ok(()),
    }
}

/// Adds the finds in a part of a site's body.
fn add_finds(
    pool: &Pool,
    finds: &mut Vec<(u32, u32)>,
    site: u32,
    part: Subtree,
) -> Result<(), AllocError>
    requires { IsWithin pool.now.trees part }
    ensures { IfOk result (λ _. finds.new.items ≡ finds.old.items
        ++ map (λ q. (site, q)) (finds_in part.place (tree_at pool.now.trees part.root))) }
{
    let mut at = part;
    'part: while let Some(node) = node_at(pool, at) {
        add_find(finds, site, at.place, node.head)?;
        add_finds(pool, finds, site, node.first)?;
        at = node.second;
    }
    Ok(())
}

/// The finds for which labels are drawn, in order: the site, and the place in its body.
pub fn label_draws(
    alloc: Global,
    pool: &Pool,
    callings: &[Calling],
) -> Result<Vec<(u32, u32)>, AllocError>
    requires { All (IsLiveCalling pool.now.trees) callings.now }
    ensures { IfOk result (λ finds.
        finds.items ≡ draws.label_draws (callings_in pool.now.trees callings.now)) }
{
    let mut finds = Vec::new(alloc);
    for calling in callings {
        let body = Subtree {
            place: 0,
            root: second_of(pool, Some(calling.function)),
        };
        add_finds(pool, &mut finds, calling.caller.number, body)?;
    }
    Ok(finds)
}
