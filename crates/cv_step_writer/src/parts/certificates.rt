ghost use Rattle.std.specs.Prelude.{◌≡◌, ◌++◌, OnOk, All, flat_map, length, map, replicate};
ghost use Rattle.cv_syntax_trees.specs.declared.head.Head.TheVariants.{Cons};
ghost use Rattle.cv_syntax.specs.declared.make.Make.TheVariants.{Over};
ghost use Rattle.cv_syntax_trees.specs.Tree.{chain};
ghost use Rattle.cv_syntax.specs.Postorder.{postorder};
ghost use Rattle.cv_step_writer.specs.Certificates.{IsCertificateBelow, IsEntryBelow, IsPairBelow, IsRouteBelow, IsSecretPairBelow, certificate_tree, chosen_tree, distinct_part, entry_tree, events_parts, pair_tree, route_tree, routes_tree, secret_pair_tree};

use crate::certificates::{Certificate, Entry, Pair, Route, SecretPair};
use crate::parts::items::{push_names, push_number, push_term, push_terms};
use crate::parts::lines::push_lines;
use cv_syntax::parts::close_list;
use cv_syntax::{Head, Make, NameId, Pool};
use std::alloc::AllocError;

/// Makes a route.
#[tactic(auto, unfolding(cv_syntax::specs::Postorder::postorder), using(crate::proofs::Making::making))]
fn push_route(makes: &mut Vec<Make>, pool: &Pool, route: &Route) -> Result<(), AllocError>
    requires { IsRouteBelow (length pool.now.trees) route.now }
    ensures { OnOk result (makes.new.items
        ≡ makes.old.items ++ postorder (route_tree pool.now.trees route.now)) }
{
    match route {
        Route::Above { place, by } => {
            push_number(makes, *place)?;
            push_lines(makes, pool, by)?;
            makes.push(Make::Over(Head::AboveRoute))?;
            Ok(())
        }
        Route::Cell { cell, place, by } => {
            push_term(makes, pool, *cell)?;
            push_number(makes, *place)?;
            push_lines(makes, pool, by)?;
            makes.push(Make::Over(Head::Cons))?;
            makes.push(Make::Over(Head::CellRoute))?;
            Ok(())
        }
        Route::Holds { by } => {
            push_lines(makes, pool, by)?;
            makes.push(Make::Nothing)?;
            makes.push(Make::Over(Head::HoldsRoute))?;
            Ok(())
        }
    }
}

/// Makes a list of routes.
#[tactic(auto, using(crate::proofs::Making::making))]
fn push_routes(makes: &mut Vec<Make>, pool: &Pool, routes: &[Route]) -> Result<(), AllocError>
    requires { All (IsRouteBelow (length pool.now.trees)) routes.now }
    ensures { OnOk result (makes.new.items
        ≡ makes.old.items ++ postorder (routes_tree pool.now.trees routes.now)) }
{
    'items: for k in 0..routes.len() {
        push_route(makes, pool, &routes[k])?;
    }
    close_list(makes, routes.len())
}

/// Makes the routes of an entry, behind the number of their alternative where there is one.
#[tactic(auto, unfolding(cv_syntax::specs::Postorder::postorder), using(crate::proofs::Making::making))]
fn push_chosen(
    makes: &mut Vec<Make>,
    pool: &Pool,
    alternative: Option<u64>,
    routes: &[Route],
) -> Result<(), AllocError>
    requires { All (IsRouteBelow (length pool.now.trees)) routes.now }
    ensures { OnOk result (makes.new.items
        ≡ makes.old.items ++ postorder (chosen_tree pool.now.trees alternative routes.now)) }
{
    let Some(number) = alternative else {
        return push_routes(makes, pool, routes);
    };
    push_number(makes, number)?;
    makes.push(Make::Nothing)?;
    makes.push(Make::Over(Head::AlternativePart))?;
    push_routes(makes, pool, routes)?;
    makes.push(Make::Over(Head::Cons))?;
    Ok(())
}

/// Makes an entry.
#[tactic(auto, unfolding(cv_syntax::specs::Postorder::postorder), using(crate::proofs::Making::making))]
fn push_entry(makes: &mut Vec<Make>, pool: &Pool, entry: &Entry) -> Result<(), AllocError>
    requires { IsEntryBelow (length pool.now.trees) entry.now }
    ensures { OnOk result (makes.new.items
        ≡ makes.old.items ++ postorder (entry_tree pool.now.trees entry.now)) }
{
    match entry {
        Entry::Never { place, by } => {
            push_number(makes, *place)?;
            push_lines(makes, pool, by)?;
            makes.push(Make::Nothing)?;
            makes.push(Make::Over(Head::NeverEntry))?;
            makes.push(Make::Over(Head::AtEntry))?;
            Ok(())
        }
        Entry::With {
            place,
            terms,
            alternative,
            routes,
        } => {
            push_number(makes, *place)?;
            push_terms(makes, pool, terms)?;
            push_chosen(makes, pool, *alternative, routes)?;
            makes.push(Make::Over(Head::WithEntry))?;
            makes.push(Make::Over(Head::AtEntry))?;
            Ok(())
        }
    }
}

/// Makes entries, one behind another.
#[tactic(auto, using(crate::proofs::Making::making))]
fn push_entries(makes: &mut Vec<Make>, pool: &Pool, entries: &[Entry]) -> Result<(), AllocError>
    requires { All (IsEntryBelow (length pool.now.trees)) entries.now }
    ensures { OnOk result (makes.new.items
        ≡ makes.old.items ++ flat_map postorder (map (entry_tree pool.now.trees) entries.now)) }
{
    'items: for k in 0..entries.len() {
        push_entry(makes, pool, &entries[k])?;
    }
    Ok(())
}

/// Makes a pair of a correspondence.
#[tactic(auto, unfolding(cv_syntax::specs::Postorder::postorder), using(crate::proofs::Making::making))]
fn push_pair(makes: &mut Vec<Make>, pool: &Pool, pair: &Pair) -> Result<(), AllocError>
    requires { IsPairBelow (length pool.now.trees) pair.now }
    ensures { OnOk result (makes.new.items
        ≡ makes.old.items ++ postorder (pair_tree pool.now.trees pair.now)) }
{
    push_number(makes, pair.first)?;
    push_number(makes, pair.second)?;
    push_number(makes, pair.event)?;
    push_lines(makes, pool, &pair.by)?;
    makes.push(Make::Over(Head::Cons))?;
    makes.push(Make::Over(Head::Cons))?;
    makes.push(Make::Over(Head::Pair))?;
    Ok(())
}

/// Makes a list of pairs of a correspondence.
#[tactic(auto, using(crate::proofs::Making::making))]
fn push_pairs(makes: &mut Vec<Make>, pool: &Pool, pairs: &[Pair]) -> Result<(), AllocError>
    requires { All (IsPairBelow (length pool.now.trees)) pairs.now }
    ensures { OnOk result (makes.new.items ≡ makes.old.items
        ++ postorder (chain (map (pair_tree pool.now.trees) pairs.now))) }
{
    'items: for k in 0..pairs.len() {
        push_pair(makes, pool, &pairs[k])?;
    }
    close_list(makes, pairs.len())
}

/// Makes the part `distinct`, where there is one, and pairs, in one list.
#[tactic(auto, unfolding(cv_syntax::specs::Postorder::postorder), using(crate::proofs::Making::making))]
fn push_later_parts(
    makes: &mut Vec<Make>,
    pool: &Pool,
    distinct: &[NameId],
    pairs: &[Pair],
) -> Result<(), AllocError>
    requires { All (IsPairBelow (length pool.now.trees)) pairs.now }
    ensures { OnOk result (makes.new.items ≡ makes.old.items ++ postorder
        (chain (distinct_part distinct.now ++ map (pair_tree pool.now.trees) pairs.now))) }
{
    if distinct.is_empty() {
        return push_pairs(makes, pool, pairs);
    }
    push_names(makes, distinct)?;
    makes.push(Make::Nothing)?;
    makes.push(Make::Over(Head::DistinctPart))?;
    push_pairs(makes, pool, pairs)?;
    makes.push(Make::Over(Head::Cons))?;
    Ok(())
}

/// Makes a pair of a query of secrecy.
#[tactic(auto, unfolding(cv_syntax::specs::Postorder::postorder), using(crate::proofs::Making::making))]
fn push_secret_pair(makes: &mut Vec<Make>, pool: &Pool, pair: &SecretPair) -> Result<(), AllocError>
    requires { IsSecretPairBelow (length pool.now.trees) pair.now }
    ensures { OnOk result (makes.new.items
        ≡ makes.old.items ++ postorder (secret_pair_tree pool.now.trees pair.now)) }
{
    push_number(makes, pair.first)?;
    push_number(makes, pair.second)?;
    push_lines(makes, pool, &pair.by)?;
    makes.push(Make::Over(Head::Cons))?;
    makes.push(Make::Over(Head::SecretPair))?;
    Ok(())
}

/// Makes a list of pairs of a query of secrecy.
#[tactic(auto, using(crate::proofs::Making::making))]
fn push_secret_pairs(
    makes: &mut Vec<Make>,
    pool: &Pool,
    pairs: &[SecretPair],
) -> Result<(), AllocError>
    requires { All (IsSecretPairBelow (length pool.now.trees)) pairs.now }
    ensures { OnOk result (makes.new.items ≡ makes.old.items
        ++ postorder (chain (map (secret_pair_tree pool.now.trees) pairs.now))) }
{
    'items: for k in 0..pairs.len() {
        push_secret_pair(makes, pool, &pairs[k])?;
    }
    close_list(makes, pairs.len())
}

/// Makes so many nodes of a list whose items and whose end were made before.
#[tactic(auto, using(crate::proofs::Making::making))]
fn close_cells(makes: &mut Vec<Make>, count: usize) -> Result<(), AllocError>
    ensures { OnOk result (makes.new.items ≡ makes.old.items ++ replicate count (Over Cons)) }
{
    'cells: for _ in 0..count {
        makes.push(Make::Over(Head::Cons))?;
    }
    Ok(())
}

/// Makes the parts of a certificate of a correspondence, in one list.
#[tactic(auto, using(crate::proofs::Making::making))]
fn push_events(
    makes: &mut Vec<Make>,
    pool: &Pool,
    entries: &[Entry],
    distinct: &[NameId],
    pairs: &[Pair],
) -> Result<(), AllocError>
    requires entries { All (IsEntryBelow (length pool.now.trees)) entries.now }
    requires pairs { All (IsPairBelow (length pool.now.trees)) pairs.now }
    ensures { OnOk result (makes.new.items ≡ makes.old.items ++ postorder
        (chain (events_parts pool.now.trees entries.now distinct.now pairs.now))) }
{
    push_entries(makes, pool, entries)?;
    push_later_parts(makes, pool, distinct, pairs)?;
    close_cells(makes, entries.len())
}

/// Makes a certificate.
#[tactic(auto, unfolding(cv_syntax::specs::Postorder::postorder), using(crate::proofs::Making::making))]
pub(crate) fn push_certificate(
    makes: &mut Vec<Make>,
    pool: &Pool,
    certificate: &Certificate,
) -> Result<(), AllocError>
    requires { IsCertificateBelow (length pool.now.trees) certificate.now }
    ensures { OnOk result (makes.new.items
        ≡ makes.old.items ++ postorder (certificate_tree pool.now.trees certificate.now)) }
{
    match certificate {
        Certificate::Events {
            entries,
            distinct,
            pairs,
        } => {
            push_events(makes, pool, entries, distinct, pairs)?;
            makes.push(Make::Nothing)?;
            makes.push(Make::Over(Head::EventsCertificate))?;
            Ok(())
        }
        Certificate::Secret { pairs } => {
            push_secret_pairs(makes, pool, pairs)?;
            makes.push(Make::Nothing)?;
            makes.push(Make::Over(Head::SecretCertificate))?;
            Ok(())
        }
    }
}
