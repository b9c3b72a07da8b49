ghost use Rattle.std.specs.Prelude.{◌≡◌, ◌<◌, ◌^◌, IfOk, Some, length, map};
ghost use Rattle.cv_pool.specs.PoolView.{Grows};
ghost use Rattle.cv_syntax_trees.specs.Tree.{chain};
ghost use Rattle.cv_syntax.specs.Postorder.{postorder};
ghost use Rattle.cv_syntax.specs.PoolTrees.{tree_at};
ghost use Rattle.cv_scope_rules.specs.Context.{items};
ghost use Rattle.cv_scene.specs.Late.{index_term};
ghost use Rattle.cv_scene.specs.Pairs.{second_indices};
ghost use Rattle.cv_scene.specs.Terms.{replications_at as replications_there};
ghost use Rattle.cv_scene_view.specs.Kept.{scene_of};
ghost use Rattle.cv_query_certificates.specs.Marks.{plain};
ghost use Rattle.cv_query_certificates.specs.PairParts as parts;
ghost use Rattle.cv_query_parts.specs.Countable.{IsCountable};
ghost use Rattle.cv_query_parts.specs.Views.{IsReadyIn};
ghost use Rattle.cv_query_parts.specs.pairs.Lists.{lists_of};
ghost use Rattle.cv_query_parts.specs.pairs.Walks.{IsMet, needed_of};
ghost use Rattle.cv_query.specs.pairs.Made.{IsMadeBelow};
ghost use Rattle.cv_query.specs.pairs.Proved as proved;
ghost use Rattle.cv_query.specs.pairs.Proved.{IsAsBefore, by_in, given_in, others_in, raised_in, same_in};

use crate::pairs::ends::{Ends, Made, ends_of, has_end};
use crate::pairs::sights::indices_of_pair;
use cv_derive::{Second, first_bad_of_pair};
use cv_query_parts::pairs::{Names, Pairing, lists_for, raised_rows, rows_at};
use cv_scene_view::replications_at;
use cv_syntax::children::{first_of, second_of};
use cv_syntax::limits::plant_tree;
use cv_syntax::{Game, Make, NodeId, Pool, Work};
use cv_typing::Arrays;
use std::alloc::{AllocError, Global};

/// What is added to the names of second copies, and the variables whose values are taken to differ.
#[derive(Clone, Copy)]
pub(crate) struct Taken<'a> {
    pub(crate) raise: u32,
    pub(crate) distinct: &'a [u32],
}

/// The place, or one that no game has, where it isn't below 2 to the 32.
fn near(place: u64) -> u32
    ensures { result ≡ proved.near place }
{
    if place > 4_294_967_295 {
        4_294_967_295
    } else {
        place as u32
    }
}

/// Whether each line of the derivation of a pair at two places is right.
fn has_right_lines(
    alloc: Global,
    work: &Work,
    game: NodeId,
    arrays: &Arrays,
    taken: &Taken,
    rows: &[(u32, u32)],
    p: u64,
    q: u64,
    made: Made,
) -> Result<bool, AllocError>
    requires ready { IsReadyIn work.now.pool.trees work.now.decls.list game arrays.now }
    requires rows { rows.now
        ≡ replications_there (scene_of work.now.pool work.now.decls game) q }
    requires made { IsMadeBelow (length work.now.pool.trees) made }
    requires raised { tree_at work.now.pool.trees made.raised
        ≡ chain (map index_term (second_indices taken.now.raise rows.now)) }
    requires few { IsCountable (tree_at work.now.pool.trees made.by) }
    ensures { IfOk result (λ right. right
        ≡ proved.has_right_lines (scene_of work.now.pool work.now.decls game) p q
        taken.now.raise (items (tree_at work.now.pool.trees made.given)) taken.now.distinct.now
        (tree_at work.now.pool.trees made.by)) }
{
    let place = near(p);
    let here = replications_at(alloc, work, game, place)?;
    let seconds = raised_rows(alloc, taken.raise, rows)?;
    let above = indices_of_pair(alloc, work, game, place, seconds.as_slice())?;
    let second = Second {
        place: near(q),
        replications: rows,
        raise: taken.raise,
        raised: made.raised,
        given: made.given,
        distinct: taken.distinct,
    };
    let root = Game { root: game };
    let bad = first_bad_of_pair(
        work,
        root,
        arrays,
        &above,
        here.as_slice(),
        place,
        &second,
        made.by,
    );
    Ok(bad.is_none())
}

/// The lists that were made in one.
fn made_at(pool: &Pool, root: NodeId) -> Made
    requires { root.0 < length pool.now.trees }
    ensures given { tree_at pool.now.trees result.given
        ≡ given_in (tree_at pool.now.trees (Some root)) }
    ensures raised { tree_at pool.now.trees result.raised
        ≡ raised_in (tree_at pool.now.trees (Some root)) }
    ensures same { tree_at pool.now.trees result.same
        ≡ same_in (tree_at pool.now.trees (Some root)) }
    ensures others { tree_at pool.now.trees result.others
        ≡ others_in (tree_at pool.now.trees (Some root)) }
    ensures by { tree_at pool.now.trees result.by
        ≡ by_in (tree_at pool.now.trees (Some root)) }
    ensures live { IsMadeBelow (length pool.now.trees) result }
{
    let one = Some(root);
    let two = second_of(pool, one);
    let three = second_of(pool, two);
    let four = second_of(pool, three);
    let five = second_of(pool, four);
    Made {
        given: first_of(pool, one),
        raised: first_of(pool, two),
        same: first_of(pool, three),
        others: first_of(pool, four),
        by: first_of(pool, five),
    }
}

/// Whether a pair at two places is derived, by the lists that were made for it.
pub(crate) fn is_proved(
    alloc: Global,
    work: &Work,
    game: NodeId,
    arrays: &Arrays,
    taken: &Taken,
    ends: &Ends,
    rows: &[(u32, u32)],
    p: u64,
    q: u64,
    root: NodeId,
) -> Result<bool, AllocError>
    requires ready { IsReadyIn work.now.pool.trees work.now.decls.list game arrays.now }
    requires rows { rows.now
        ≡ replications_there (scene_of work.now.pool work.now.decls game) q }
    requires root { root.0 < length work.now.pool.trees }
    requires raised { raised_in (tree_at work.now.pool.trees (Some root))
        ≡ chain (map index_term (second_indices taken.now.raise rows.now)) }
    requires few { IsCountable (by_in (tree_at work.now.pool.trees (Some root))) }
    ensures { IfOk result (λ is. is
        ≡ proved.is_proved (scene_of work.now.pool work.now.decls game) p q taken.now.raise
        taken.now.distinct.now ends.now (tree_at work.now.pool.trees (Some root))) }
{
    let made = made_at(&work.pool, root);
    if !has_right_lines(alloc, work, game, arrays, taken, rows, p, q, made)? {
        return Ok(false);
    }
    Ok(has_end(&work.pool, ends.same, ends.never, made))
}

/// Makes what is tested of a pair, and tests it. Nodes stay behind.
fn make_and_test(
    alloc: Global,
    work: &mut Work,
    game: NodeId,
    arrays: &Arrays,
    taken: &Taken,
    ends: &Ends,
    names: &Names,
    pairing: Pairing,
    makes: &[Make],
) -> Result<bool, AllocError>
    requires ready { IsReadyIn work.old.pool.trees work.old.decls.list game arrays.now }
    requires met { IsMet work.old.pool.trees pairing }
    requires raise { names.now.raise ≡ taken.now.raise }
    requires rows { names.now.rows.now
        ≡ replications_there (scene_of work.old.pool work.old.decls game) pairing.second }
    requires makes { makes.now
        ≡ postorder (lists_of (scene_of work.old.pool work.old.decls game) names.now.raise
        names.now.rows.now ends.now.rows.items work.old.pool.trees pairing) }
    ensures proved { IfOk result (λ is. is
        ≡ proved.is_proved (scene_of work.old.pool work.old.decls game) pairing.first
        pairing.second taken.now.raise taken.now.distinct.now ends.now
        (lists_of (scene_of work.old.pool work.old.decls game) names.now.raise names.now.rows.now
        ends.now.rows.items work.old.pool.trees pairing)) }
    ensures grows { Grows work.old.pool work.new.pool }
    ensures names { work.new.names ≡ work.old.names }
    ensures decls { work.new.decls ≡ work.old.decls }
{
    let Ok(root) = plant_tree(alloc, &mut work.pool, makes) else {
        return Err(AllocError);
    };
    let Pairing { first, second, .. } = pairing;
    let rows = names.rows;
    let proved = is_proved(
        alloc, work, game, arrays, taken, ends, rows, first, second, root,
    )?;
    Ok(proved)
}

/// Whether a pair is derived. The pool's trees are as before.
pub(crate) fn proves_pair(
    alloc: Global,
    work: &mut Work,
    game: NodeId,
    arrays: &Arrays,
    taken: &Taken,
    pairing: Pairing,
) -> Result<bool, AllocError>
    requires ready { IsReadyIn work.old.pool.trees work.old.decls.list game arrays.now }
    requires met { IsMet work.old.pool.trees pairing }
    ensures proves { IfOk result (λ proves. proves
        ≡ parts.proves_pair (scene_of work.old.pool work.old.decls game) taken.now.raise
        taken.now.distinct.now (needed_of (scene_of work.old.pool work.old.decls game)
        taken.now.raise work.old.pool.trees pairing)
        (plain taken.now.raise (tree_at work.old.pool.trees pairing.by))) }
    ensures before { IsAsBefore work.old work.new }
{
    let ends = ends_of(alloc, work, game, pairing.first, pairing.second)?;
    let rows = rows_at(alloc, work, game, pairing.second)?;
    let names = Names {
        raise: taken.raise,
        rows: rows.as_slice(),
    };
    let makes = lists_for(alloc, work, game, &names, ends.rows.as_slice(), pairing)?;
    let before = work.pool.mark();
    let outcome = make_and_test(
        alloc,
        work,
        game,
        arrays,
        taken,
        &ends,
        &names,
        pairing,
        makes.as_slice(),
    );
    work.pool.release(before);
    let proves = outcome?;
    Ok(proves)
}
