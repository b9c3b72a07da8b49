ghost use Rattle.std.specs.Prelude.{◌≡◌, ◌+◌, ◌<◌, ◌≤◌, ◌^◌, ◌++◌, All, OnOk, length};
ghost use Rattle.cv_scene.specs.Contexts as contexts;
ghost use Rattle.cv_context.specs.nodes.Calls.{IsLive};
ghost use Rattle.cv_context.specs.nodes.Written.{answer_in, calls_here, first_parts, heads_in, heads_of_calls, terms_of_calls};

use crate::nodes::calls::{Call, push_call};
use crate::nodes::roles::Roles;
use cv_syntax::{Head, Make, Pool};
use std::alloc::AllocError;

/// The name of the answer of a site.
pub fn answer(roles: &Roles, site: u32) -> u32
    ensures { result ≡ answer_in roles.now site }
{
    roles.answers.get(site as usize).copied().unwrap_or(0)
}

/// Whether a construct has terms of its own.
fn is_statement(head: Head) -> bool
    ensures { result ≡ contexts.is_statement head }
{
    match head {
        Head::Let(_, _) | Head::If | Head::Event(_) | Head::Out(_) => true,
        _ => false,
    }
}

/// Makes what the calls of sites read, from the number of the first one on, and opens the calls.
#[tactic(auto, using(crate::proofs::nodes::Making::making))]
fn put_calls(
    makes: &mut Vec<Make>,
    heads: &mut Vec<Head>,
    pool: &Pool,
    roles: &Roles,
    from: u32,
    calls: &[Call],
) -> Result<(), AllocError>
    requires live { All (IsLive (length pool.now.trees)) calls.now }
    requires few { from + length calls.now < 2 ^ 32 }
    ensures makes { OnOk result (makes.new.items
        ≡ makes.old.items ++ terms_of_calls pool.now.trees calls.now) }
    ensures heads { OnOk result (heads.new.items
        ≡ heads.old.items ++ heads_of_calls roles.now from calls.now) }
{
    'calls: for k in 0..calls.len() {
        push_call(makes, pool, &calls[k])?;
        let site = from + k as u32;
        heads.push(Head::Call(answer(roles, site), site))?;
    }
    Ok(())
}

/// Makes the first child of a node, of which the parts are given, and opens the node.
fn put_head(
    makes: &mut Vec<Make>,
    heads: &mut Vec<Head>,
    roles: &Roles,
    head: Head,
    first: &[Make],
) -> Result<(), AllocError>
    ensures makes { OnOk result (makes.new.items
        ≡ makes.old.items ++ first_parts roles.now head first.now) }
    ensures heads { OnOk result (heads.new.items ≡ heads.old.items ++ heads_in roles.now head) }
{
    if let Head::New(x, _) = head {
        if x == roles.key {
            makes.push(Make::Nothing)?;
            heads.push(Head::Key(x))?;
            return Ok(());
        }
        if roles.coins.contains(&x) {
            return Ok(());
        }
    }
    makes.extend_from_slice(first)?;
    heads.push(head)?;
    Ok(())
}

/// Makes the first child of a node, before it what the calls read whose sites stand there, and opens calls and node.
pub fn put_node(
    makes: &mut Vec<Make>,
    heads: &mut Vec<Head>,
    pool: &Pool,
    roles: &Roles,
    calls: &[Call],
    head: Head,
    from: u32,
    to: u32,
    first: &[Make],
) -> Result<(), AllocError>
    requires live { All (IsLive (length pool.now.trees)) calls.now }
    requires order { from ≤ to }
    requires few { to ≤ length calls.now }
    requires fits { length calls.now < 2 ^ 32 }
    ensures makes { OnOk result (makes.new.items ≡ makes.old.items
        ++ (terms_of_calls pool.now.trees (calls_here calls.now head from to)
        ++ first_parts roles.now head first.now)) }
    ensures heads { OnOk result (heads.new.items ≡ heads.old.items
        ++ (heads_of_calls roles.now from (calls_here calls.now head from to)
        ++ heads_in roles.now head)) }
{
    if is_statement(head) {
        let here = &calls[from as usize..to as usize];
        put_calls(makes, heads, pool, roles, from, here)?;
    }
    put_head(makes, heads, roles, head, first)
}
