ghost use Rattle.std.specs.Prelude.{◌≡◌, ◌+◌, ◌<◌, ◌^◌, ◌↔◌, All, IfOk, IsTrue, OnErr, OnOk, length, map, nat_lt, take};
ghost use Rattle.std.specs.List.{list_all};
ghost use Rattle.cv_pool.specs.Nodes.{ChildBelow};
ghost use Rattle.cv_syntax.specs.PoolTrees.{tree_at};
ghost use Rattle.cv_inline.specs.Draws as of_games;
ghost use Rattle.cv_inline.specs.Draws.{drawn_texts, labels_from};
ghost use Rattle.cv_inline_sites.specs.listing.Listed.{draw_in};
ghost use Rattle.cv_inline_draws.specs.names.Texts.{texts_at, with_texts};
ghost use Rattle.cv_inline_draws.specs.names.Fresh.{bases_of};

use crate::names::{draw_labels, draw_names, labels_in};
use cv_inline_sites::listing::Draw;
use cv_syntax::{Names, NodeId, Pool};
use std::alloc::{AllocError, Global};

/// How many names there are at most, and one more.
const LIMIT: usize = 0x1_0000_0000;

/// Whether so many and so many more stay below the limit.
fn has_room(a: usize, b: usize) -> bool
    ensures { IsTrue result ↔ (a + b < 2 ^ 32) }
{
    a < LIMIT && b < LIMIT - a
}

/// The names from which names are drawn, in order.
fn bases_of(alloc: Global, draws: &[Draw]) -> Result<Vec<u32>, AllocError>
    ensures { IfOk result (λ bases. bases.items ≡ bases_of (map draw_in draws.now)) }
{
    let mut bases = Vec::new(alloc);
    for draw in draws {
        bases.push(draw.base)?;
    }
    Ok(bases)
}

/// Whether each number is one of a name.
fn are_names(names: &Names, numbers: &[u32]) -> bool
    ensures { result ≡ list_all (λ x. nat_lt x (length names.now)) numbers.now }
{
    let count = names.len();
    numbers.iter().all(|x| *x < count)
}

/// Draws the names for draws into the table. A base that is no name, and a table that would be too
/// large, are refused as want of memory.
pub(crate) fn new_names(
    alloc: Global,
    names: &mut Names,
    taken: &[u32],
    draws: &[Draw],
) -> Result<Vec<u32>, AllocError>
    requires { All (λ x. x < length names.old) taken.now }
    ensures texts { IfOk result (λ drawn. texts_at names.new drawn.items ≡ drawn_texts
        (texts_at names.old taken.now) (texts_at names.old (bases_of (map draw_in draws.now)))) }
    ensures table { OnOk result (names.new ≡ with_texts names.old (drawn_texts
        (texts_at names.old taken.now) (texts_at names.old (bases_of (map draw_in draws.now))))) }
    ensures live { IfOk result (λ drawn. All (λ x. x < length names.new) drawn.items) }
    ensures kept { take (length names.old) names.new ≡ names.old }
    ensures err { OnErr result (names.new ≡ names.old) }
{
    let all = bases_of(alloc, draws)?;
    let bases = all.as_slice();
    if !has_room(names.len() as usize, bases.len()) {
        return Err(AllocError);
    }
    if !has_room(taken.len(), bases.len()) {
        return Err(AllocError);
    }
    if !are_names(names, bases) {
        return Err(AllocError);
    }
    draw_names(alloc, names, taken, bases)
}

/// Draws a label for each find, none of which the game has.
pub(crate) fn new_labels(
    alloc: Global,
    pool: &Pool,
    game: Option<NodeId>,
    finds: &[(u32, u32)],
) -> Result<Vec<u64>, AllocError>
    requires { ChildBelow (length pool.now.trees) game }
    ensures { IfOk result (λ labels. labels.items
        ≡ labels_from (of_games.labels_in (tree_at pool.now.trees game)) 1 finds.now) }
{
    let taken = labels_in(alloc, pool, game)?;
    if !has_room(taken.len(), finds.len()) {
        return Err(AllocError);
    }
    draw_labels(alloc, taken.as_slice(), finds.len())
}
