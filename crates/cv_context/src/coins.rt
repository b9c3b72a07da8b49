ghost use Rattle.std.specs.Prelude.{◌≡◌, ◌||◌, ℕ, All, IfOk, OnOk, length};
ghost use Rattle.cv_pool.specs.Nodes.{ChildBelow};
ghost use Rattle.cv_syntax.specs.NameSets.{is_in};
ghost use Rattle.cv_context.specs.Roles.{IsLiveCall, is_coin_at, is_read_in};

use cv_match_terms::patterns::{Site, variable_of};
use cv_syntax::{NodeId, Pool};
use std::alloc::{AllocError, Global};
use std::collections::HashSet;

/// Notes the variables that stand for coins.
fn note_coins(
    coins: &mut HashSet<u32>,
    pool: &Pool,
    terms: &[Option<NodeId>],
) -> Result<(), AllocError>
    requires { All (ChildBelow (length pool.now.trees)) terms.now }
    ensures { OnOk result ((y : ℕ) → is_in coins.new y
        ≡ (is_in coins.old y || is_read_in pool.now.trees terms.now y)) }
{
    'terms: for k in 0..terms.len() {
        let Some(y) = variable_of(pool, terms[k]) else {
            continue;
        };
        coins.insert(y)?;
    }
    Ok(())
}

/// The variables that stand for coins at sites.
pub fn coins_of(alloc: Global, pool: &Pool, sites: &[Site]) -> Result<HashSet<u32>, AllocError>
    requires { All (IsLiveCall (length pool.now.trees)) sites.now }
    ensures { IfOk result (λ coins. (y : ℕ) → is_in coins y
        ≡ is_coin_at pool.now.trees sites.now y) }
{
    let mut coins = HashSet::new(alloc);
    'sites: for k in 0..sites.len() {
        note_coins(&mut coins, pool, sites[k].instance.coins.as_slice())?;
    }
    Ok(coins)
}
