ghost use Rattle.std.specs.Prelude.{◌≡◌, IfOk, Some, length, option_map};
ghost use Rattle.cv_pool.specs.Nodes.{ChildBelow};
ghost use Rattle.cv_syntax_trees.specs.Tree.{Node};
ghost use Rattle.cv_syntax.specs.PoolTrees.{tree_at};
ghost use Rattle.cv_meaning.specs.Correspondences.{correspondence_of};
ghost use Rattle.cv_query_certificates.specs.EventNodes.{event_places as event_places_of};
ghost use Rattle.cv_query_certificates.specs.Failures as failures;
ghost use Rattle.cv_query_certificates.specs.Failures.{certificate_failure, parts_failure, rest_failure, secret_failure};
ghost use Rattle.cv_query_certificates.specs.Forms.{left_places};
ghost use Rattle.cv_query_certificates.specs.Marks.{raise_of};
ghost use Rattle.cv_query_certificates.specs.PairParts.{behind_entries as behind_entries_of};
ghost use Rattle.cv_scene_view.specs.Kept.{scene_of as scene_in};
ghost use Rattle.cv_query_parts.specs.Views.{IsAskedBelow, IsReady, IsReadyIn, asked_of, game_of, scene_of, trees_of};
ghost use Rattle.cv_query.specs.Claimed.{failure_of};
ghost use Rattle.cv_query.specs.Left.{IsLeft, IsOutcome, answer_of, rest_of};
ghost use Rattle.cv_query.specs.Secrecy.{by_pairs};
ghost use Rattle.cv_query.specs.pairs.CopyPairs.{AreLeft};
ghost use Rattle.cv_query.specs.pairs.Proved.{IsAsBefore};
ghost use Rattle.cv_query_parts.specs.Countable.{AreCountableParts, IsCountableCertificate};

use crate::ends::first_unfinished;
use crate::pairs::{first_unfit_name, first_wrong_pair, first_wrong_secret};
use crate::right::first_wrong;
use crate::secrets::{Secrecy, failed, secret_checked};
use cv_derive_reasons::sizes::Sizes;
use cv_query_entries::terms::right_alone;
use cv_query_entries::{event_places, first_unformed};
use cv_query_parts::pairs::{Walked, behind_entries, names_in, rest_of as rest_in, walk_pairs};
use cv_query_parts::{Asked, View, alternatives_of, left_event};
use cv_syntax::children::{first_of, second_of};
use cv_syntax::{Head, NodeId, Opened, Work, read_node};
use cv_typing::Arrays;
use std::alloc::{AllocError, Global};

/// A condition of a certificate that fails, and where. The place of an entry too many is that of the text.
#[derive(Clone, Copy, Debug, PartialEq, Eq)]
pub struct Failure {
    pub condition: u32,
    pub place: u64,
}

/// What stands behind the entries of a certificate with these parts, where those are right: the variables whose values are taken to
/// differ, and the pairs that were met.
#[derive(Drop)]
pub(crate) struct Left {
    pub(crate) parts: Option<NodeId>,
    pub(crate) names: Vec<u32>,
    pub(crate) walked: Walked,
}

/// What the conditions say for whose test the pool need not grow: the first one that fails, that none does, what is left, or that the
/// secrecy of a variable hangs on these pairs.
#[derive(Drop)]
enum Outcome {
    Decided(Option<Failure>),
    Open(Left),
    Secret(u32, Option<NodeId>),
}

/// What stands behind the entries.
fn left_behind(
    alloc: Global,
    view: &View,
    asked: &Asked,
    places: &[u32],
    parts: Option<NodeId>,
) -> Result<Left, AllocError>
    requires ready { IsReady view.now }
    requires asked { IsAskedBelow (length (trees_of view.now)) asked.now }
    requires parts { ChildBelow (length (trees_of view.now)) parts }
    requires few { AreCountableParts (tree_at (trees_of view.now) parts) }
    ensures rest { IfOk result (λ left. rest_of (scene_of view.now) (trees_of view.now) left
        ≡ rest_failure (scene_of view.now) (asked_of (trees_of view.now) asked.now)
        (raise_of (scene_of view.now) (tree_at (trees_of view.now) parts))
        (tree_at (trees_of view.now) parts)
        (behind_entries_of places.now (tree_at (trees_of view.now) parts))) }
    ensures left { IfOk result (IsLeft (trees_of view.now)) }
{
    let pool = &view.work.pool;
    let rest = rest_in(pool, behind_entries(pool, places, parts));
    let names = names_in(alloc, pool, rest.names)?;
    let walked = walk_pairs(alloc, pool, asked, parts, rest.pairs)?;
    Ok(Left {
        parts,
        names,
        walked,
    })
}

/// The first condition that fails of the entries of a certificate with these parts, and what stands behind them.
#[tactic(auto, using(crate::proofs::Failing::failing))]
fn parts_checked(
    alloc: Global,
    view: &View,
    asked: &Asked,
    parts: Option<NodeId>,
) -> Result<Outcome, AllocError>
    requires ready { IsReady view.now }
    requires asked { IsAskedBelow (length (trees_of view.now)) asked.now }
    requires parts { ChildBelow (length (trees_of view.now)) parts }
    requires few { AreCountableParts (tree_at (trees_of view.now) parts) }
    ensures answer { IfOk result (λ o. answer_of (scene_of view.now) (trees_of view.now) o
        ≡ parts_failure (scene_of view.now) (asked_of (trees_of view.now) asked.now)
        (left_places (scene_of view.now) (asked_of (trees_of view.now) asked.now))
        (tree_at (trees_of view.now) parts)) }
    ensures left { IfOk result (IsOutcome (trees_of view.now)) }
{
    let lefts = event_places(alloc, &view.work.pool, view.game, asked.event)?;
    let places = lefts.as_slice();
    if let Some(place) = first_unformed(alloc, view, asked, places, parts)? {
        return Ok(Outcome::Decided(Some(failed(2, place))));
    }
    if let Some(place) = first_wrong(alloc, view, asked, places, parts)? {
        return Ok(Outcome::Decided(Some(Failure {
            condition: 3,
            place: u64::from(place),
        })));
    }
    if let Some(place) = first_unfinished(alloc, view, asked, places, parts)? {
        return Ok(Outcome::Decided(Some(Failure {
            condition: 4,
            place: u64::from(place),
        })));
    }
    Ok(Outcome::Open(left_behind(alloc, view, asked, places, parts)?))
}

/// That a certificate is none of a correspondence, at the first place of the left event.
#[tactic(auto, using(crate::proofs::Failing::failing))]
fn other_kind(alloc: Global, view: &View, event: u32) -> Result<Outcome, AllocError>
    requires ready { IsReady view.now }
    ensures answer { IfOk result (λ o. answer_of (scene_of view.now) (trees_of view.now) o
        ≡ Some (record {
          condition = 2;
          place = failures.least_place (event_places_of event 0 (game_of view.now));
        })) }
    ensures left { IfOk result (IsOutcome (trees_of view.now)) }
{
    let places = event_places(alloc, &view.work.pool, view.game, event)?;
    match places.first() {
        Some(place) => Ok(Outcome::Decided(Some(failed(2, u64::from(*place))))),
        None => Ok(Outcome::Decided(Some(failed(2, 0)))),
    }
}

/// The first condition that fails of a certificate of a correspondence.
#[tactic(auto, using(crate::proofs::Failing::failing))]
fn certificate_checked(
    alloc: Global,
    view: &View,
    asked: &Asked,
    certificate: Option<NodeId>,
) -> Result<Outcome, AllocError>
    requires ready { IsReady view.now }
    requires asked { IsAskedBelow (length (trees_of view.now)) asked.now }
    requires certificate { ChildBelow (length (trees_of view.now)) certificate }
    requires few { IsCountableCertificate (tree_at (trees_of view.now) certificate) }
    ensures answer { IfOk result (λ o. answer_of (scene_of view.now) (trees_of view.now) o
        ≡ certificate_failure (scene_of view.now) (asked_of (trees_of view.now) asked.now)
        (tree_at (trees_of view.now) certificate)) }
    ensures left { IfOk result (IsOutcome (trees_of view.now)) }
{
    let Some(n) = certificate else {
        return other_kind(alloc, view, asked.event);
    };
    let node = read_node(&view.work.pool, n);
    match node.head {
        Head::EventsCertificate => parts_checked(alloc, view, asked, node.first),
        _ => other_kind(alloc, view, asked.event),
    }
}

/// The first condition that fails of a certificate for a query that is a correspondence.
#[tactic(auto, using(crate::proofs::Failing::failing))]
fn correspondence_checked(
    alloc: Global,
    view: &View,
    query: Opened,
    certificate: Option<NodeId>,
) -> Result<Outcome, AllocError>
    requires ready { IsReady view.now }
    requires first { ChildBelow (length (trees_of view.now)) query.first }
    requires second { ChildBelow (length (trees_of view.now)) query.second }
    requires certificate { ChildBelow (length (trees_of view.now)) certificate }
    requires few { IsCountableCertificate (tree_at (trees_of view.now) certificate) }
    ensures answer { IfOk result (λ o. answer_of (scene_of view.now) (trees_of view.now) o
        ≡ certificate_failure (scene_of view.now)
        (correspondence_of (Node query.head (tree_at (trees_of view.now) query.first)
        (tree_at (trees_of view.now) query.second)))
        (tree_at (trees_of view.now) certificate)) }
    ensures left { IfOk result (IsOutcome (trees_of view.now)) }
{
    let pool = &view.work.pool;
    let left = left_event(pool, first_of(pool, query.second));
    let right = second_of(pool, query.second);
    let others = right_alone(alloc, pool, query.first, left.variables, right)?;
    let alternatives = alternatives_of(alloc, pool, right)?;
    let asked = Asked {
        inj: left.inj,
        event: left.event,
        variables: left.variables,
        others: others.as_slice(),
        alternatives: alternatives.as_slice(),
    };
    certificate_checked(alloc, view, &asked, certificate)
}

/// The first condition that fails of a certificate for the secrecy of a variable, but that of its pairs.
fn secrecy_checked(
    alloc: Global,
    view: &View,
    once: bool,
    x: u32,
    certificate: Option<NodeId>,
) -> Result<Outcome, AllocError>
    requires ready { IsReady view.now }
    requires certificate { ChildBelow (length (trees_of view.now)) certificate }
    requires few { IsCountableCertificate (tree_at (trees_of view.now) certificate) }
    ensures answer { IfOk result (λ o. answer_of (scene_of view.now) (trees_of view.now) o
        ≡ secret_failure once (scene_of view.now) x (tree_at (trees_of view.now) certificate)) }
    ensures left { IfOk result (IsOutcome (trees_of view.now)) }
{
    match secret_checked(alloc, view, once, x, certificate)? {
        Secrecy::Decided(failure) => Ok(Outcome::Decided(failure)),
        Secrecy::ByPairs(pairs) => Ok(Outcome::Secret(x, pairs)),
    }
}

/// The first condition that fails of a certificate, but those of pairs.
#[tactic(auto, using(crate::proofs::Failing::failing))]
fn entries_checked(
    alloc: Global,
    view: &View,
    query: Option<NodeId>,
    certificate: Option<NodeId>,
) -> Result<Outcome, AllocError>
    requires ready { IsReady view.now }
    requires query { ChildBelow (length (trees_of view.now)) query }
    requires certificate { ChildBelow (length (trees_of view.now)) certificate }
    requires few { IsCountableCertificate (tree_at (trees_of view.now) certificate) }
    ensures answer { IfOk result (λ o. answer_of (scene_of view.now) (trees_of view.now) o
        ≡ failures.first_failure (scene_of view.now)
        (option_map (λ n. tree_at (trees_of view.now) (Some n)) query)
        (tree_at (trees_of view.now) certificate)) }
    ensures left { IfOk result (IsOutcome (trees_of view.now)) }
{
    let Some(n) = query else {
        return Ok(Outcome::Decided(Some(failed(1, 0))));
    };
    let node = read_node(&view.work.pool, n);
    match node.head {
        Head::Secret(x) => secrecy_checked(alloc, view, false, x, certificate),
        Head::SecretOnce(x) => secrecy_checked(alloc, view, true, x, certificate),
        _ => correspondence_checked(alloc, view, node, certificate),
    }
}

/// The first condition that fails of what stands behind the entries: of the pairs, or of the variables whose values are taken to differ.
fn left_checked(
    alloc: Global,
    work: &mut Work,
    game: NodeId,
    arrays: &Arrays,
    left: Left,
) -> Result<Option<Failure>, AllocError>
    requires ready { IsReadyIn work.old.pool.trees work.old.decls.list game arrays.now }
    requires left { IsLeft work.old.pool.trees left }
    ensures failure { IfOk result (λ f. option_map failure_of f ≡ rest_of
        (scene_in work.old.pool work.old.decls game) work.old.pool.trees left) }
    ensures before { IsAsBefore work.old work.new }
{
    let Left {
        parts,
        names,
        walked,
    } = left;
    let distinct = names.as_slice();
    if let Some(place) = first_wrong_pair(alloc, work, game, arrays, parts, distinct, &walked)? {
        return Ok(Some(failed(5, place)));
    }
    match first_unfit_name(work, game, distinct) {
        Some(place) => Ok(Some(failed(6, u64::from(place)))),
        None => Ok(None),
    }
}

/// The first condition that fails of the pairs of a variable's secrecy.
fn secret_pairs_checked(
    alloc: Global,
    work: &mut Work,
    game: NodeId,
    arrays: &Arrays,
    x: u32,
    pairs: Option<NodeId>,
) -> Result<Option<Failure>, AllocError>
    requires ready { IsReadyIn work.old.pool.trees work.old.decls.list game arrays.now }
    requires pairs { AreLeft work.old.pool.trees pairs }
    ensures failure { IfOk result (λ f. option_map failure_of f ≡ by_pairs
        (scene_in work.old.pool work.old.decls game) x (tree_at work.old.pool.trees pairs)) }
    ensures before { IsAsBefore work.old work.new }
{
    match first_wrong_secret(alloc, work, game, arrays, x, pairs)? {
        Some(place) => Ok(Some(failed(5, place))),
        None => Ok(None),
    }
}

/// Tests a certificate in a game: the first of its conditions that fails, with its place, and nothing where it is accepted. It takes memory
/// for the places of the left event, for the indices above each of them, for the variables on the right alone, and for the pairs; of secrecy
/// for the variables that the variable copies, and for its copies. The derivation of a pair is read over names that are made for it in the pool, one pair after
/// another, and the pool's trees are as before at the end. A pool without room for it, or without such names, is want of memory.
pub fn check(
    alloc: Global,
    work: &mut Work,
    game: NodeId,
    arrays: &Arrays,
    query: Option<NodeId>,
    certificate: Option<NodeId>,
) -> Result<Option<Failure>, AllocError>
    requires ready { IsReadyIn work.old.pool.trees work.old.decls.list game arrays.now }
    requires query { ChildBelow (length work.old.pool.trees) query }
    requires certificate { ChildBelow (length work.old.pool.trees) certificate }
    requires few { IsCountableCertificate (tree_at work.old.pool.trees certificate) }
    ensures failure { IfOk result (λ f. option_map failure_of f
        ≡ failures.first_failure (scene_in work.old.pool work.old.decls game)
        (option_map (λ n. tree_at work.old.pool.trees (Some n)) query)
        (tree_at work.old.pool.trees certificate)) }
    ensures trees { work.new.pool.trees ≡ work.old.pool.trees }
    ensures limit { work.new.pool.limit ≡ work.old.pool.limit }
    ensures names { work.new.names ≡ work.old.names }
    ensures decls { work.new.decls ≡ work.old.decls }
{
    let sizes = Sizes::of(&work.pool, game);
    let view = View {
        work,
        game,
        arrays,
        sizes: &sizes,
    };
    match entries_checked(alloc, &view, query, certificate)? {
        Outcome::Decided(failure) => Ok(failure),
        Outcome::Open(left) => left_checked(alloc, work, game, arrays, left),
        Outcome::Secret(x, pairs) => secret_pairs_checked(alloc, work, game, arrays, x, pairs),
    }
}
