ghost use Rattle.std.specs.Prelude.{◌≡◌, IfOk, if◌then◌else◌, length, option_map};
ghost use Rattle.cv_syntax_trees.specs.lists.Options.{first_of};
ghost use Rattle.cv_pool.specs.Nodes.{ChildBelow};
ghost use Rattle.cv_syntax.specs.PoolTrees.{tree_at};
ghost use Rattle.cv_query_certificates.specs.Failures as failures;
ghost use Rattle.cv_query_certificates.specs.Failures.{pairs_failure, secret_failure};
ghost use Rattle.cv_query_certificates.specs.Secrets.{starts_by_let as starts_by_let_in};
ghost use Rattle.cv_query_parts.specs.Countable.{IsCountableCertificate};
ghost use Rattle.cv_query_parts.specs.Views.{IsReady, game_of, scene_of, trees_of};
ghost use Rattle.cv_query.specs.Claimed.{failure_of};
ghost use Rattle.cv_query.specs.Secrecy.{IsSecrecy, secrecy_of};
ghost use Rattle.cv_query.specs.pairs.CopyPairs.{AreLeft};

use crate::testing::Failure;
use cv_query_offences::{first_offence_of_choices, first_offence_of_copies, starts_by_let};
use cv_query_parts::{View, first_surplus};
use cv_syntax::{Head, NodeId, Pool, read_node};
use std::alloc::{AllocError, Global};

/// What the forms of a variable's secrecy say of a certificate: the first condition that fails, that none does, or that it hangs on these
/// pairs.
#[derive(Clone, Copy)]
pub(crate) enum Secrecy {
    Decided(Option<Failure>),
    ByPairs(Option<NodeId>),
}

/// A condition that fails at a place.
pub(crate) fn failed(condition: u32, place: u64) -> Failure
    ensures { failure_of result ≡ record { condition = condition; place = place } }
{
    Failure { condition, place }
}

/// Of the first offences against both forms of a variable's secrecy, the one against the form that its first definition has.
fn offence_place(view: &View, x: u32, choice: u32, copy: u32) -> u64
    requires ready { IsReady view.now }
    ensures { result ≡ if starts_by_let_in (game_of view.now) x then copy else choice }
{
    if starts_by_let(&view.work.pool, view.game, x) {
        copy as u64
    } else {
        choice as u64
    }
}

/// The first condition that fails where no pair is needed: a given one fails before the forms do.
fn without_pairs(pool: &Pool, pairs: Option<NodeId>, failure: Option<Failure>) -> Option<Failure>
    requires { ChildBelow (length pool.now.trees) pairs }
    ensures { option_map failure_of result
        ≡ first_of (failures.failure 5 (failures.first_surplus (tree_at pool.now.trees pairs)))
        (option_map failure_of failure) }
{
    match first_surplus(pool, pairs) {
        Some(place) => Some(failed(5, place)),
        None => failure,
    }
}

/// The first condition that fails of a variable's secrecy with these pairs, by both forms: for one session, or for many.
fn forms_checked(
    alloc: Global,
    view: &View,
    once: bool,
    x: u32,
    pairs: Option<NodeId>,
) -> Result<Secrecy, AllocError>
    requires ready { IsReady view.now }
    requires pairs { AreLeft (trees_of view.now) pairs }
    ensures answer { IfOk result (λ o. secrecy_of (scene_of view.now) (trees_of view.now) x o
        ≡ pairs_failure once (scene_of view.now) x (tree_at (trees_of view.now) pairs)) }
    ensures left { IfOk result (IsSecrecy (trees_of view.now)) }
{
    let pool = &view.work.pool;
    let Some(choice) = first_offence_of_choices(pool, view.game, x) else {
        return Ok(Secrecy::Decided(without_pairs(pool, pairs, None)));
    };
    let Some(copy) = first_offence_of_copies(alloc, view.work, view.game, x)? else {
        if once {
            return Ok(Secrecy::Decided(without_pairs(pool, pairs, None)));
        }
        return Ok(Secrecy::ByPairs(pairs));
    };
    let other = failed(7, offence_place(view, x, choice, copy));
    Ok(Secrecy::Decided(without_pairs(pool, pairs, Some(other))))
}

/// The first condition that fails of a certificate for the secrecy of a variable, but for the test of its pairs.
pub(crate) fn secret_checked(
    alloc: Global,
    view: &View,
    once: bool,
    x: u32,
    certificate: Option<NodeId>,
) -> Result<Secrecy, AllocError>
    requires ready { IsReady view.now }
    requires certificate { ChildBelow (length (trees_of view.now)) certificate }
    requires few { IsCountableCertificate (tree_at (trees_of view.now) certificate) }
    ensures answer { IfOk result (λ o. secrecy_of (scene_of view.now) (trees_of view.now) x o
        ≡ secret_failure once (scene_of view.now) x (tree_at (trees_of view.now) certificate)) }
    ensures left { IfOk result (IsSecrecy (trees_of view.now)) }
{
    let pool = &view.work.pool;
    let Some(n) = certificate else {
        return Ok(Secrecy::Decided(Some(failed(2, 0))));
    };
    let node = read_node(pool, n);
    match node.head {
        Head::SecretCertificate => forms_checked(alloc, view, once, x, node.first),
        _ => Ok(Secrecy::Decided(Some(failed(2, 0)))),
    }
}
