ghost use Rattle.std.specs.Prelude.{◌≡◌, ℕ, All, IfOk, length};
ghost use Rattle.cv_syntax.specs.NameSets.{is_in};
ghost use Rattle.cv_context.specs.Roles.{IsLiveCall, is_coin_at};

use crate::coins::coins_of;
use crate::nodes::Roles;
use cv_match_terms::patterns::Site;
use cv_syntax::Pool;
use std::alloc::{AllocError, Global};

/// The roles of names where these are the sites, with these names for their answers.
pub fn roles_of(
    alloc: Global,
    pool: &Pool,
    key: u32,
    answers: &[u32],
    sites: &[Site],
) -> Result<Roles, AllocError>
    requires { All (IsLiveCall (length pool.now.trees)) sites.now }
    ensures key { IfOk result (λ roles. roles.key ≡ key) }
    ensures coins { IfOk result (λ roles. (y : ℕ) → is_in roles.coins y
        ≡ is_coin_at pool.now.trees sites.now y) }
    ensures answers { IfOk result (λ roles. roles.answers.items ≡ answers.now) }
{
    let coins = coins_of(alloc, pool, sites)?;
    let mut names = Vec::new(alloc);
    names.extend_from_slice(answers)?;
    Ok(Roles {
        key,
        coins,
        answers: names,
    })
}
