ghost use Rattle.std.specs.Prelude.{◌≡◌, ◌<◌, All, IfOk, OnErr, length, map, take};
ghost use Rattle.cv_pool.specs.Nodes.{ChildBelow};
ghost use Rattle.cv_syntax.specs.PoolTrees.{tree_at};
ghost use Rattle.cv_meaning.specs.contexts.Groups.{Group};
ghost use Rattle.cv_inline.specs.Draws.{labels_from, labels_in};
ghost use Rattle.cv_inline.specs.Draws as of_games;
ghost use Rattle.cv_inline_sites.specs.listing.Callings.{IsLiveCalling, callings_in};
ghost use Rattle.cv_inline_sites.specs.listing.Listed.{draw_in};
ghost use Rattle.cv_inline.specs.terms.Drawings.{drawn_in};
ghost use Rattle.cv_inline_draws.specs.names.Fresh.{IsDrawnFor};

use crate::drawing::filling::drawing_of;
use crate::drawing::fresh::{new_labels, new_names};
use crate::sites::{draws_of, label_draws};
use cv_inline::terms::{Calling, Drawing};
use cv_inline_sites::listing::Draw;
use cv_syntax::{Names, NodeId, Pool};
use std::alloc::{AllocError, Global};

/// Draws the names for draws, and makes the table of them and of labels.
fn draw_all(
    alloc: Global,
    names: &mut Names,
    taken: &[u32],
    draws: &[Draw],
    finds: &[(u32, u32)],
    labels: &[u64],
) -> Result<Drawing, AllocError>
    requires { All (λ x. x < length names.old) taken.now }
    ensures drawn { IfOk result (λ drawing. IsDrawnFor names.old names.new taken.now
        (map draw_in draws.now) finds.now labels.now (drawn_in drawing)) }
    ensures kept { take (length names.old) names.new ≡ names.old }
    ensures err { OnErr result (names.new ≡ names.old) }
{
    let before = names.len();
    let numbers = new_names(alloc, names, taken, draws)?;
    match drawing_of(alloc, draws, numbers.as_slice(), finds, labels) {
        Ok(drawing) => Ok(drawing),
        Err(AllocError) => {
            names.keep(before);
            Err(AllocError)
        }
    }
}

/// Draws the names and the labels of the next game of a context, where these are the names of file
/// and game, the game, the name of the right key, and the sites by number. Besides want of memory, a
/// name of a site that isn't in the table, and more than 2^32 names or labels, are refused.
pub fn draw(
    alloc: Global,
    pool: &Pool,
    names: &mut Names,
    taken: &[u32],
    game: Option<NodeId>,
    key: u32,
    callings: &[Calling],
) -> Result<Drawing, AllocError>
    requires taken { All (λ x. x < length names.old) taken.now }
    requires game { ChildBelow (length pool.now.trees) game }
    requires callings { All (IsLiveCalling pool.now.trees) callings.now }
    ensures drawn { (group : Group) → group.key.0 ≡ key → IfOk result (λ drawing.
        IsDrawnFor names.old names.new taken.now
        (of_games.draws_of group (callings_in pool.now.trees callings.now))
        (of_games.label_draws (callings_in pool.now.trees callings.now))
        (labels_from (labels_in (tree_at pool.now.trees game)) 1
        (of_games.label_draws (callings_in pool.now.trees callings.now))) (drawn_in drawing)) }
    ensures kept { take (length names.old) names.new ≡ names.old }
    ensures err { OnErr result (names.new ≡ names.old) }
{
    let draws = draws_of(alloc, pool, key, callings)?;
    let finds = label_draws(alloc, pool, callings)?;
    let labels = new_labels(alloc, pool, game, finds.as_slice())?;
    draw_all(
        alloc,
        names,
        taken,
        draws.as_slice(),
        finds.as_slice(),
        labels.as_slice(),
    )
}
