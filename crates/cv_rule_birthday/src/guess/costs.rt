ghost use Rattle.std.specs.Prelude.{◌≡◌, ◌<◌, ◌^◌, IfOk, Some, length};
ghost use Rattle.cv_syntax_trees.specs.Tree.{size};
ghost use Rattle.cv_syntax.specs.Declarations.{declarations};
ghost use Rattle.cv_syntax.specs.PoolTrees.{tree_at};
ghost use Rattle.cv_scope_rules.specs.Phrases.{IsWellFormed};
ghost use Rattle.cv_scene_view.specs.Kept.{scene_of};
ghost use Rattle.cv_steps.specs.Costs.{cost_of};
ghost use Rattle.cv_rule_birthday.specs.guess.Row.{cost_at, one_in, parameters_of};

use cv_bound::{Collision, Collisions, Cost};
use cv_costs::collision_of;
use cv_derive_facts::places_have_few_factors;
use cv_path::copies;
use cv_syntax::{NodeId, Work};
use std::alloc::{AllocError, Global};

/// The chance of one value of a type, for each copy of a place of a game.
fn collision_at(
    alloc: Global,
    work: &Work,
    game: NodeId,
    place: u32,
    of_type: u32,
) -> Result<Collision, AllocError>
    requires live { game.0 < length work.now.pool.trees }
    requires fits { size (tree_at work.now.pool.trees (Some game)) < 2 ^ 32 }
    requires formed { IsWellFormed (declarations work.now.pool.trees work.now.decls.list)
        (tree_at work.now.pool.trees (Some game)) }
    ensures { IfOk result (λ collision. collision
        ≡ one_in (declarations work.now.pool.trees work.now.decls.list) of_type
        (parameters_of (tree_at work.now.pool.trees (Some game)) place)) }
{
    places_have_few_factors();
    match copies(&work.pool, game, place) {
        Some(product) => {
            let parameters = product.parameters.as_slice();
            collision_of(alloc, &work.decls, parameters, false, of_type)
        }
        None => collision_of(alloc, &work.decls, &[], false, of_type),
    }
}

/// The cost of guesses at some places of a game, with a term for each.
pub(crate) fn cost_of_guesses(
    alloc: Global,
    work: &Work,
    game: NodeId,
    places: &[u32],
    of_type: u32,
) -> Result<Cost, AllocError>
    requires live { game.0 < length work.now.pool.trees }
    requires fits { size (tree_at work.now.pool.trees (Some game)) < 2 ^ 32 }
    requires formed { IsWellFormed (declarations work.now.pool.trees work.now.decls.list)
        (tree_at work.now.pool.trees (Some game)) }
    requires few { length places.now < 2 ^ 32 }
    ensures { IfOk result (λ cost. cost
        ≡ cost_of (cost_at (scene_of work.now.pool work.now.decls game) places.now of_type)) }
{
    let mut list = Vec::new(alloc);
    'places: for k in 0..places.len() {
        list.push(collision_at(alloc, work, game, places[k], of_type)?)?;
    }
    Ok(Cost::Collisions(Collisions::of(list)))
}
