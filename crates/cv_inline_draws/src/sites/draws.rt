ghost use Rattle.std.specs.Prelude.{◌≡◌, ◌++◌, ◌<◌, ◌^◌, All, IfOk, flat_map, length, map};
ghost use Rattle.cv_pool.specs.Nodes.{ChildBelow};
ghost use Rattle.cv_syntax_trees.specs.Tree.{size};
ghost use Rattle.cv_syntax.specs.PoolTrees.{tree_at};
ghost use Rattle.cv_meaning.specs.contexts.Groups.{Group};
ghost use Rattle.cv_inline.specs.Draws as of_games;
ghost use Rattle.cv_inline.specs.Draws.{body_draws, index_draws, site_draws};
ghost use Rattle.cv_inline_sites.specs.listing.Callings.{IsLiveCalling, callers_in, calling_in, callings_in};
ghost use Rattle.cv_inline_sites.specs.listing.Listed.{draw_in};
ghost use Rattle.cv_inline_draws.specs.sites.Parts.{own_draws};
ghost use Rattle.cv_inline_sites.specs.listing.Subtrees.{IsWithin};

use crate::sites::bodies::bodies_below;
use cv_inline::terms::Calling;
use cv_inline_sites::listing::{
    Draw, Role, Subtree, add_arguments, add_branch_indices, add_each_once, add_variable,
};
use cv_syntax::children::{first_of, read_child, second_of};
use cv_syntax::{Head, NodeId, Pool};
use std::alloc::{AllocError, Global};

/// Adds the draws for the indices of a find.
fn add_find_indices(
    pool: &Pool,
    draws: &mut Vec<Draw>,
    callings: &[Calling],
    site: u32,
    place: u32,
    branches: Option<NodeId>,
) -> Result<(), AllocError>
    requires live { ChildBelow (length pool.now.trees) branches }
    requires fits { size (tree_at pool.now.trees branches) < 2 ^ 32 }
    requires callings { All (IsLiveCalling pool.now.trees) callings.now }
    ensures { IfOk result (λ _. map draw_in draws.new.items ≡ map draw_in draws.old.items
        ++ flat_map (λ s. index_draws site place s 0 (tree_at pool.now.trees branches))
        (callers_in pool.now.trees callings.now)) }
{
    for calling in callings {
        add_branch_indices(pool, draws, site, place, &calling.caller, branches)?;
    }
    Ok(())
}

/// Adds the draws for the node of a body, without those for the bodies below.
fn add_own(
    pool: &Pool,
    draws: &mut Vec<Draw>,
    callings: &[Calling],
    site: u32,
    body: Subtree,
) -> Result<(), AllocError>
    requires body { IsWithin pool.now.trees body }
    requires callings { All (IsLiveCalling pool.now.trees) callings.now }
    ensures { IfOk result (λ _. map draw_in draws.new.items ≡ map draw_in draws.old.items
        ++ own_draws (callers_in pool.now.trees callings.now) site body.place
        (tree_at pool.now.trees body.root)) }
{
    let Some(node) = read_child(pool, body.root) else {
        return Ok(());
    };
    match node.head {
        Head::New(z, _) => add_variable(draws, site, z),
        Head::Let(z, _) => add_variable(draws, site, z),
        Head::Find(_) => add_find_indices(pool, draws, callings, site, body.place, node.first),
        _ => Ok(()),
    }
}

/// Adds the draws for a body.
fn add_body(
    alloc: Global,
    pool: &Pool,
    draws: &mut Vec<Draw>,
    callings: &[Calling],
    site: u32,
    body: Subtree,
) -> Result<(), AllocError>
    requires body { IsWithin pool.now.trees body }
    requires callings { All (IsLiveCalling pool.now.trees) callings.now }
    ensures { IfOk result (λ _. map draw_in draws.new.items ≡ map draw_in draws.old.items
        ++ body_draws (callers_in pool.now.trees callings.now) site body.place
        (tree_at pool.now.trees body.root)) }
{
    add_own(pool, draws, callings, site, body)?;
    let below = bodies_below(alloc, pool, body)?;
    for inner in below.as_slice() {
        add_body(alloc, pool, draws, callings, site, *inner)?;
    }
    Ok(())
}

/// Adds the draws for a site.
fn add_site(
    alloc: Global,
    pool: &Pool,
    draws: &mut Vec<Draw>,
    callings: &[Calling],
    calling: &Calling,
) -> Result<(), AllocError>
    requires callings { All (IsLiveCalling pool.now.trees) callings.now }
    requires calling { IsLiveCalling pool.now.trees calling.now }
    ensures { IfOk result (λ _. map draw_in draws.new.items ≡ map draw_in draws.old.items
        ++ site_draws (callers_in pool.now.trees callings.now)
        (calling_in pool.now.trees calling.now)) }
{
    let function = Some(calling.function);
    let arguments = second_of(pool, first_of(pool, function));
    add_arguments(pool, draws, calling.caller.number, arguments)?;
    let body = Subtree {
        place: 0,
        root: second_of(pool, function),
    };
    add_body(alloc, pool, draws, callings, calling.caller.number, body)
}

/// The draws for all sites, each as often as it stands there.
fn site_draws(alloc: Global, pool: &Pool, callings: &[Calling]) -> Result<Vec<Draw>, AllocError>
    requires { All (IsLiveCalling pool.now.trees) callings.now }
    ensures { IfOk result (λ draws. map draw_in draws.items
        ≡ flat_map (site_draws (callers_in pool.now.trees callings.now))
        (callings_in pool.now.trees callings.now)) }
{
    let mut draws = Vec::new(alloc);
    for calling in callings {
        add_site(alloc, pool, &mut draws, callings, calling)?;
    }
    Ok(draws)
}

/// What is drawn for the next game of a context, in order, where this is the name of the right key.
pub fn draws_of(
    alloc: Global,
    pool: &Pool,
    key: u32,
    callings: &[Calling],
) -> Result<Vec<Draw>, AllocError>
    requires { All (IsLiveCalling pool.now.trees) callings.now }
    ensures { (group : Group) → group.key.0 ≡ key → IfOk result (λ draws. map draw_in draws.items
        ≡ of_games.draws_of group (callings_in pool.now.trees callings.now)) }
{
    let all = site_draws(alloc, pool, callings)?;
    let mut draws = Vec::new(alloc);
    draws.push(Draw {
        role: Role::Key,
        base: key,
    })?;
    add_each_once(alloc, &mut draws, all.as_slice())?;
    Ok(draws)
}
