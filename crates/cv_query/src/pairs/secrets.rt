ghost use Rattle.std.specs.Prelude.{◌≡◌, ◌∷◌, ◌&&◌, ◌==◌, [], All, IfOk, OnOk, Some, flat_map, length, map};
ghost use Rattle.cv_pool.specs.PoolView.{Grows};
ghost use Rattle.cv_syntax.specs.Postorder.{postorder};
ghost use Rattle.cv_syntax.specs.PoolTrees.{tree_at};
ghost use Rattle.cv_scene.specs.Terms.{replications_at as replications_there};
ghost use Rattle.cv_scene_view.specs.Kept.{scene_of};
ghost use Rattle.cv_query_certificates.specs.Marks.{plain, raise_of as raise_in};
ghost use Rattle.cv_query_certificates.specs.PairParts.{least};
ghost use Rattle.cv_query_certificates.specs.SecretPairs as certificates;
ghost use Rattle.cv_query_parts.specs.Views.{IsReadyIn};
ghost use Rattle.cv_query_offences.specs.Copies.{IsCopyBelow, copy_seen};
ghost use Rattle.cv_query.specs.pairs.CopyPairs.{AreLeft, Goes, IsPairBelow, lists_of_both, needed_by_pair, needed_of_both};
ghost use Rattle.cv_query.specs.pairs.Proved.{IsAsBefore, is_proved as is_proved_by};

use crate::pairs::ends::Ends;
use crate::pairs::proving::{Taken, is_proved};
use cv_query_offences::{CellCopy, copies_of};
use cv_query_parts::first_surplus;
use cv_query_parts::pairs::{Names, SecretPart, raise_of, secret_lists, secret_of};
use cv_scene_view::replications_at;
use cv_syntax::limits::plant_tree;
use cv_syntax::{Make, NodeId, Work, read_node};
use cv_typing::Arrays;
use std::alloc::{AllocError, Global};

/// Two copies, and the derivation that a certificate gives for them.
#[derive(Clone, Copy)]
pub(crate) struct CopyPair {
    pub(crate) one: CellCopy,
    pub(crate) other: CellCopy,
    pub(crate) by: Option<NodeId>,
}

/// The parts of a certificate of secrecy that are left.
#[derive(Clone, Copy)]
struct Left {
    parts: Option<NodeId>,
}

/// Makes what is tested of a pair of copies, and tests it. Nodes stay behind.
fn make_and_test(
    alloc: Global,
    work: &mut Work,
    game: NodeId,
    arrays: &Arrays,
    taken: &Taken,
    ends: &Ends,
    rows: &[(u32, u32)],
    pair: CopyPair,
    makes: &[Make],
) -> Result<bool, AllocError>
    requires ready { IsReadyIn work.old.pool.trees work.old.decls.list game arrays.now }
    requires pair { IsPairBelow work.old.pool.trees pair }
    requires rows { rows.now ≡ replications_there
        (scene_of work.old.pool work.old.decls game) pair.other.place }
    requires makes { makes.now
        ≡ postorder (lists_of_both (scene_of work.old.pool work.old.decls game) taken.now.raise
        work.old.pool.trees pair) }
    ensures proved { IfOk result (λ is. is
        ≡ is_proved_by (scene_of work.old.pool work.old.decls game) pair.one.place
        pair.other.place taken.now.raise taken.now.distinct.now ends.now
        (lists_of_both (scene_of work.old.pool work.old.decls game) taken.now.raise
        work.old.pool.trees pair)) }
    ensures grows { Grows work.old.pool work.new.pool }
    ensures names { work.new.names ≡ work.old.names }
    ensures decls { work.new.decls ≡ work.old.decls }
{
    let Ok(root) = plant_tree(alloc, &mut work.pool, makes) else {
        return Err(AllocError);
    };
    let first = u64::from(pair.one.place);
    let second = u64::from(pair.other.place);
    let proved = is_proved(
        alloc, work, game, arrays, taken, ends, rows, first, second, root,
    )?;
    Ok(proved)
}

/// Whether two copies are one, or are told apart, by a derivation. The pool's trees are as before.
fn proves_pair(
    alloc: Global,
    work: &mut Work,
    game: NodeId,
    arrays: &Arrays,
    raise: u32,
    pair: CopyPair,
) -> Result<bool, AllocError>
    requires ready { IsReadyIn work.old.pool.trees work.old.decls.list game arrays.now }
    requires pair { IsPairBelow work.old.pool.trees pair }
    ensures proves { IfOk result (λ proves. proves
        ≡ certificates.proves_secret (scene_of work.old.pool work.old.decls game) raise
        (needed_by_pair (scene_of work.old.pool work.old.decls game) raise work.old.pool.trees
        pair) (plain raise (tree_at work.old.pool.trees pair.by))) }
    ensures before { IsAsBefore work.old work.new }
{
    let firsts = replications_at(alloc, work, game, pair.one.place)?;
    let rows = replications_at(alloc, work, game, pair.other.place)?;
    let names = Names {
        raise,
        rows: rows.as_slice(),
    };
    let CopyPair { one, other, by } = pair;
    let same = firsts.as_slice();
    let makes = secret_lists(alloc, &work.pool, &names, same, one.terms, other.terms, by)?;
    let ends = Ends {
        same: true,
        never: true,
        rows: firsts,
    };
    let taken = Taken {
        raise,
        distinct: &[],
    };
    let before = work.pool.mark();
    let outcome = make_and_test(
        alloc,
        work,
        game,
        arrays,
        &taken,
        &ends,
        rows.as_slice(),
        pair,
        makes.as_slice(),
    );
    work.pool.release(before);
    let proves = outcome?;
    Ok(proves)
}

/// Whether a part is the pair of two copies.
fn is_between(part: SecretPart, one: CellCopy, other: CellCopy) -> bool
    ensures { result ≡ (part.first == one.place && part.second == other.place) }
{
    part.first == u64::from(one.place) && part.second == u64::from(other.place)
}

/// The lesser one of two places.
fn lesser(p: u64, q: u64) -> u64
    ensures { result ≡ least p q }
{
    if q < p { q } else { p }
}

/// Goes over the next part, where the pair of two copies is needed: the place at which the walk stops, where the part is another one,
/// lacks, or isn't derived.
fn walk_pair(
    alloc: Global,
    work: &mut Work,
    game: NodeId,
    arrays: &Arrays,
    raise: u32,
    left: &mut Left,
    one: CellCopy,
    other: CellCopy,
) -> Result<Option<u64>, AllocError>
    requires ready { IsReadyIn work.old.pool.trees work.old.decls.list game arrays.now }
    requires left { AreLeft work.old.pool.trees left.old.parts }
    requires one { IsCopyBelow (length work.old.pool.trees) one }
    requires other { IsCopyBelow (length work.old.pool.trees) other }
    ensures goes { IfOk result (λ stopped. Goes (scene_of work.old.pool work.old.decls game) raise
        work.old.pool.trees left.old.parts left.new.parts stopped
        (needed_of_both (scene_of work.old.pool work.old.decls game) raise
        (copy_seen work.old.pool.trees one) (copy_seen work.old.pool.trees other) ∷ []) []) }
    ensures left { OnOk result (AreLeft work.old.pool.trees left.new.parts) }
    ensures before { IsAsBefore work.old work.new }
{
    let place = u64::from(one.place);
    let Some(n) = left.parts else {
        return Ok(Some(place));
    };
    let part = read_node(&work.pool, n);
    let Some(found) = secret_of(&work.pool, part.first) else {
        return Ok(Some(place));
    };
    if !is_between(found, one, other) {
        return Ok(Some(lesser(place, found.first)));
    }
    let by = found.by;
    let pair = CopyPair { one, other, by };
    if !proves_pair(alloc, work, game, arrays, raise, pair)? {
        return Ok(Some(place));
    }
    left.parts = part.second;
    Ok(None)
}

/// Whether two copies are of one variable.
fn are_of_one(one: CellCopy, other: CellCopy) -> bool
    ensures { result ≡ (one.source == other.source) }
{
    one.source == other.source
}

/// Goes over the part for two copies, where they are of one variable.
fn walk_both(
    alloc: Global,
    work: &mut Work,
    game: NodeId,
    arrays: &Arrays,
    raise: u32,
    left: &mut Left,
    one: CellCopy,
    other: CellCopy,
) -> Result<Option<u64>, AllocError>
    requires ready { IsReadyIn work.old.pool.trees work.old.decls.list game arrays.now }
    requires left { AreLeft work.old.pool.trees left.old.parts }
    requires one { IsCopyBelow (length work.old.pool.trees) one }
    requires other { IsCopyBelow (length work.old.pool.trees) other }
    ensures goes { IfOk result (λ stopped. Goes (scene_of work.old.pool work.old.decls game) raise
        work.old.pool.trees left.old.parts left.new.parts stopped
        (certificates.secret_pair (scene_of work.old.pool work.old.decls game) raise
        (copy_seen work.old.pool.trees one) (copy_seen work.old.pool.trees other)) []) }
    ensures left { OnOk result (AreLeft work.old.pool.trees left.new.parts) }
    ensures before { IsAsBefore work.old work.new }
{
    if !are_of_one(one, other) {
        return Ok(None);
    }
    let stopped = walk_pair(alloc, work, game, arrays, raise, left, one, other)?;
    Ok(stopped)
}

/// Goes over the parts for a copy and each of these.
fn walk_with(
    alloc: Global,
    work: &mut Work,
    game: NodeId,
    arrays: &Arrays,
    raise: u32,
    left: &mut Left,
    one: CellCopy,
    others: &[CellCopy],
) -> Result<Option<u64>, AllocError>
    requires ready { IsReadyIn work.old.pool.trees work.old.decls.list game arrays.now }
    requires left { AreLeft work.old.pool.trees left.old.parts }
    requires one { IsCopyBelow (length work.old.pool.trees) one }
    requires others { All (IsCopyBelow (length work.old.pool.trees)) others.now }
    ensures goes { IfOk result (λ stopped. Goes (scene_of work.old.pool work.old.decls game) raise
        work.old.pool.trees left.old.parts left.new.parts stopped
        (flat_map (certificates.secret_pair (scene_of work.old.pool work.old.decls game) raise
        (copy_seen work.old.pool.trees one)) (map (copy_seen work.old.pool.trees) others.now))
        []) }
    ensures left { OnOk result (AreLeft work.old.pool.trees left.new.parts) }
    ensures before { IsAsBefore work.old work.new }
{
    'others: for k in 0..others.len() {
        let other = others[k];
        let stopped = walk_both(alloc, work, game, arrays, raise, left, one, other)?;
        if stopped.is_some() {
            return Ok(stopped);
        }
    }
    Ok(None)
}

/// Goes over the parts for each two of these copies.
fn walk_copies(
    alloc: Global,
    work: &mut Work,
    game: NodeId,
    arrays: &Arrays,
    raise: u32,
    left: &mut Left,
    copies: &[CellCopy],
) -> Result<Option<u64>, AllocError>
    requires ready { IsReadyIn work.old.pool.trees work.old.decls.list game arrays.now }
    requires left { AreLeft work.old.pool.trees left.old.parts }
    requires copies { All (IsCopyBelow (length work.old.pool.trees)) copies.now }
    ensures goes { IfOk result (λ stopped. Goes (scene_of work.old.pool work.old.decls game) raise
        work.old.pool.trees left.old.parts left.new.parts stopped
        (certificates.secret_pairs_among (scene_of work.old.pool work.old.decls game) raise
        (map (copy_seen work.old.pool.trees) copies.now)) []) }
    ensures left { OnOk result (AreLeft work.old.pool.trees left.new.parts) }
    ensures before { IsAsBefore work.old work.new }
{
    'copies: for k in 0..copies.len() {
        let one = copies[k];
        let others = &copies[k..];
        let stopped = walk_with(alloc, work, game, arrays, raise, left, one, others)?;
        if stopped.is_some() {
            return Ok(stopped);
        }
    }
    Ok(None)
}

/// The place of the first of these parts that is wrong, where the pairs of these copies are needed.
fn first_wrong_part(
    alloc: Global,
    work: &mut Work,
    game: NodeId,
    arrays: &Arrays,
    raise: u32,
    copies: &[CellCopy],
    parts: Option<NodeId>,
) -> Result<Option<u64>, AllocError>
    requires ready { IsReadyIn work.old.pool.trees work.old.decls.list game arrays.now }
    requires parts { AreLeft work.old.pool.trees parts }
    requires copies { All (IsCopyBelow (length work.old.pool.trees)) copies.now }
    ensures first { IfOk result (λ place. place
        ≡ certificates.first_wrong_secret (scene_of work.old.pool work.old.decls game) raise
        (certificates.secret_pairs_among (scene_of work.old.pool work.old.decls game) raise
        (map (copy_seen work.old.pool.trees) copies.now)) (tree_at work.old.pool.trees parts)) }
    ensures before { IsAsBefore work.old work.new }
{
    let mut left = Left { parts };
    let stopped = walk_copies(alloc, work, game, arrays, raise, &mut left, copies)?;
    match stopped {
        Some(place) => Ok(Some(place)),
        None => Ok(first_surplus(&work.pool, left.parts)),
    }
}

/// The place of the first pair that is wrong, of a certificate for the secrecy of a variable in many sessions.
pub(crate) fn first_wrong_secret(
    alloc: Global,
    work: &mut Work,
    game: NodeId,
    arrays: &Arrays,
    x: u32,
    parts: Option<NodeId>,
) -> Result<Option<u64>, AllocError>
    requires ready { IsReadyIn work.old.pool.trees work.old.decls.list game arrays.now }
    requires parts { AreLeft work.old.pool.trees parts }
    ensures first { IfOk result (λ place. place
        ≡ certificates.first_wrong_secret (scene_of work.old.pool work.old.decls game)
        (raise_in (scene_of work.old.pool work.old.decls game)
        (tree_at work.old.pool.trees parts))
        (certificates.needed_secrets (scene_of work.old.pool work.old.decls game)
        (raise_in (scene_of work.old.pool work.old.decls game)
        (tree_at work.old.pool.trees parts)) x) (tree_at work.old.pool.trees parts)) }
    ensures before { IsAsBefore work.old work.new }
{
    let raise = raise_of(work, game, parts)?;
    let copies = copies_of(alloc, &work.pool, game, x)?;
    let all = copies.as_slice();
    first_wrong_part(alloc, work, game, arrays, raise, all, parts)
}
