// The facts at a place, by the numbers with which derivations cite them.
ghost use Rattle.std.specs.Prelude.{◌≡◌, ◌<◌, ◌^◌, IfOk, Some, length, map, take};
ghost use Rattle.cv_syntax_trees.specs.Tree.{size};
ghost use Rattle.cv_syntax.specs.PoolTrees.{tree_at};
ghost use Rattle.cv_derive_facts.specs.Facts.{fact_of};
ghost use Rattle.cv_explain_queries.specs.Cited.{cited};

use cv_derive_facts::{Fact, fact};
use cv_syntax::{Game, Work};
use std::alloc::{AllocError, Global};

/// The first facts at a place that a derivation may cite, at most 200: that of number k stands at k - 1.
pub fn facts_of(alloc: Global, work: &Work, game: Game, place: u32) -> Result<Vec<Fact>, AllocError>
    requires live { game.root.0 < length work.now.pool.trees }
    requires fits { size (tree_at work.now.pool.trees (Some game.root)) < 2 ^ 32 }
    ensures { IfOk result (λ facts. map (fact_of work.now.pool.trees) facts.items
        ≡ take 200 (cited (tree_at work.now.pool.trees (Some game.root)) place)) }
{
    let mut facts = Vec::new(alloc);
    'facts: for k in 0..200_u32 {
        let Some(known) = fact(work, game, place, k + 1) else {
            return Ok(facts);
        };
        facts.push(known)?;
    }
    Ok(facts)
}
