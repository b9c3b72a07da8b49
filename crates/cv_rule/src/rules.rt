ghost use Rattle.std.specs.Prelude.{◌≡◌, ◌<◌, ◌^◌, ◌&&◌, All, IfOk, Some, length, option_map, ℕ};
ghost use Rattle.cv_syntax_trees.specs.Tree.{Tree, size};
ghost use Rattle.cv_syntax.specs.PoolTrees.{tree_at};
ghost use Rattle.cv_directory.specs.Live.{IsLive};
ghost use Rattle.cv_steps.specs.Rows.{let_row, new_row, prune_row, rename_row, rewrite_row, split_row, unlet_row, unnew_row};
ghost use Rattle.cv_edit_changes.specs.pruning.Bodies.{part_of};
ghost use Rattle.cv_scene.specs.Pruning.{pruned};
ghost use Rattle.cv_scene.specs.Scenes as scenes;
ghost use Rattle.cv_scene.specs.Terms as terms;
ghost use Rattle.cv_scene_view.specs.Kept.{scene_of};
ghost use Rattle.cv_rule.specs.Prepared.{IsPrepared};
ghost use Rattle.cv_edit_places.specs.Plans.{failing, failure_of};
ghost use Rattle.cv_rule.specs.Stated.{IsLiveDerivation, IsLiveRule, step_of};

use crate::lines::bad_line;
use crate::listing::is_listed;
use crate::rewriting::{has_sort_of, is_rewritable, sort_at};
use crate::targets::{ends_with_equality, ends_with_falsity};
use cv_edit_changes::pruning::{Body, body_to_prune};
use cv_edit_changes::unletting::only_assignment;
use cv_edit_places::{Failure, has_site};
use cv_scene_view::{
    first_reading, has_place, is_bool_at, is_chosen, is_known, is_new, is_output_at, is_queried,
    is_term_at, is_type, part_at,
};
use cv_syntax::{NodeId, Work};
use cv_typing::Arrays;
use std::alloc::{AllocError, Global};

/// A step of these kinds, by the nodes of its terms.
#[derive(Clone, Copy, Debug)]
pub enum Rule {
    Split {
        place: u32,
        condition: NodeId,
    },
    Let {
        place: u32,
        name: u32,
        of_type: u32,
        term: NodeId,
    },
    New {
        place: u32,
        name: u32,
        of_type: u32,
    },
    Unnew {
        name: u32,
    },
    Rename {
        name: u32,
        to: u32,
    },
    Unlet {
        name: u32,
    },
    Rewrite {
        place: u32,
        term: NodeId,
        by: Option<NodeId>,
    },
    Prune {
        place: u32,
        body: Body,
        by: Option<NodeId>,
    },
}

/// Whether a game has a place, and a tree is a term there.
fn stands_at(
    alloc: Global,
    work: &Work,
    game: NodeId,
    arrays: &Arrays,
    place: u32,
    term: NodeId,
) -> Result<bool, AllocError>
    requires prepared { IsPrepared work.now.pool.trees work.now.decls game arrays.now }
    requires declared { All (IsLive (length work.now.pool.trees)) work.now.decls.list }
    requires term { term.0 < length work.now.pool.trees }
    requires short { size (tree_at work.now.pool.trees (Some term)) < 2 ^ 32 }
    ensures { IfOk result (λ b. b
        ≡ (scenes.has_place (scene_of work.now.pool work.now.decls game) place
        && terms.is_term_at (scene_of work.now.pool work.now.decls game) place
        (tree_at work.now.pool.trees (Some term)))) }
{
    if !has_place(work, game, place) {
        return Ok(false);
    }
    is_term_at(alloc, work, game, arrays, place, term)
}

/// Whether the type of a `let` is one, and its term stands at its place.
fn let_stands(
    alloc: Global,
    work: &Work,
    game: NodeId,
    arrays: &Arrays,
    place: u32,
    of_type: u32,
    term: NodeId,
) -> Result<bool, AllocError>
    requires prepared { IsPrepared work.now.pool.trees work.now.decls game arrays.now }
    requires declared { All (IsLive (length work.now.pool.trees)) work.now.decls.list }
    requires term { term.0 < length work.now.pool.trees }
    requires short { size (tree_at work.now.pool.trees (Some term)) < 2 ^ 32 }
    ensures { IfOk result (λ b. b
        ≡ (scenes.has_place (scene_of work.now.pool work.now.decls game) place
        && (scenes.is_type (scene_of work.now.pool work.now.decls game) of_type
        && terms.is_term_at (scene_of work.now.pool work.now.decls game) place
        (tree_at work.now.pool.trees (Some term))))) }
{
    if !is_type(work, game, of_type) {
        return Ok(false);
    }
    stands_at(alloc, work, game, arrays, place, term)
}

/// Whether what a step speaks of is there.
pub fn stands(
    alloc: Global,
    work: &Work,
    game: NodeId,
    arrays: &Arrays,
    rule: Rule,
) -> Result<bool, AllocError>
    requires prepared { IsPrepared work.now.pool.trees work.now.decls game arrays.now }
    requires declared { All (IsLive (length work.now.pool.trees)) work.now.decls.list }
    requires rule { IsLiveRule work.now.pool.trees rule }
    ensures { IfOk result (λ b. b ≡ (step_of work.now.pool.trees rule).stands
        (scene_of work.now.pool work.now.decls game)) }
{
    match rule {
        Rule::Split { place, condition } => stands_at(alloc, work, game, arrays, place, condition),
        Rule::Let {
            place,
            of_type,
            term,
            ..
        } => let_stands(alloc, work, game, arrays, place, of_type, term),
        Rule::New { place, of_type, .. } => {
            Ok(has_place(work, game, place) && is_type(work, game, of_type))
        }
        Rule::Unnew { name } => Ok(is_known(work, game, name)),
        Rule::Rename { name, .. } => Ok(is_known(work, game, name)),
        Rule::Unlet { name } => Ok(is_known(work, game, name)),
        Rule::Rewrite { place, term, .. } => stands_at(alloc, work, game, arrays, place, term),
        Rule::Prune { place, .. } => Ok(has_place(work, game, place)),
    }
}

/// The first condition of `split` that fails.
fn split_conditions(
    alloc: Global,
    work: &Work,
    game: NodeId,
    arrays: &Arrays,
    place: u32,
    condition: NodeId,
) -> Result<Option<Failure>, AllocError>
    requires prepared { IsPrepared work.now.pool.trees work.now.decls game arrays.now }
    requires term { condition.0 < length work.now.pool.trees }
    ensures { IfOk result (λ f. f
        ≡ failing (split_row (scene_of work.now.pool work.now.decls game) place
        (tree_at work.now.pool.trees (Some condition)))) }
{
    if !is_output_at(work, game, place) {
        return Ok(Some(Failure {
            condition: 1,
            place: 0,
        }));
    }
    if !is_bool_at(alloc, work, game, arrays, place, condition)? {
        return Ok(Some(Failure {
            condition: 2,
            place: 0,
        }));
    }
    Ok(None)
}

/// The first condition of `let` and of `new` that fails.
fn definition_conditions(work: &Work, game: NodeId, place: u32, x: u32) -> Option<Failure>
    requires live { game.0 < length work.now.pool.trees }
    requires fits { size (tree_at work.now.pool.trees (Some game)) < 2 ^ 32 }
    ensures of_let { (t : ℕ) (m : Tree) → result
        ≡ failing (let_row (scene_of work.now.pool work.now.decls game) place x t m) }
    ensures of_new { (t : ℕ) → result
        ≡ failing (new_row (scene_of work.now.pool work.now.decls game) place x t) }
{
    if !is_output_at(work, game, place) {
        return Some(Failure {
            condition: 1,
            place: 0,
        });
    }
    if !is_new(work, game, x) {
        return Some(Failure {
            condition: 2,
            place: 0,
        });
    }
    None
}

/// The first condition of `unnew` that fails.
fn unnew_conditions(work: &Work, game: NodeId, x: u32) -> Option<Failure>
    requires live { game.0 < length work.now.pool.trees }
    requires fits { size (tree_at work.now.pool.trees (Some game)) < 2 ^ 32 }
    requires declared { All (IsLive (length work.now.pool.trees)) work.now.decls.list }
    ensures { result ≡ failing (unnew_row (scene_of work.now.pool work.now.decls game) x) }
{
    if !is_chosen(work, game, x) {
        return Some(Failure {
            condition: 1,
            place: 0,
        });
    }
    if is_queried(work, game, x) {
        return Some(Failure {
            condition: 2,
            place: 0,
        });
    }
    match first_reading(&work.pool, game, x) {
        Some(place) => Some(Failure {
            condition: 2,
            place,
        }),
        None => None,
    }
}

/// The first condition of `rename` that fails.
fn rename_conditions(work: &Work, game: NodeId, arrays: &Arrays, x: u32, y: u32) -> Option<Failure>
    requires prepared { IsPrepared work.now.pool.trees work.now.decls game arrays.now }
    requires declared { All (IsLive (length work.now.pool.trees)) work.now.decls.list }
    ensures { result ≡ failing (rename_row (scene_of work.now.pool work.now.decls game) x y) }
{
    if !has_site(arrays, x) {
        return Some(Failure {
            condition: 1,
            place: 0,
        });
    }
    if !is_new(work, game, y) {
        return Some(Failure {
            condition: 2,
            place: 0,
        });
    }
    if is_queried(work, game, x) {
        return Some(Failure {
            condition: 3,
            place: 0,
        });
    }
    None
}

/// The first condition of `unlet` that fails.
fn unlet_conditions(
    work: &Work,
    game: NodeId,
    arrays: &Arrays,
    x: u32,
) -> Result<Option<Failure>, AllocError>
    requires prepared { IsPrepared work.now.pool.trees work.now.decls game arrays.now }
    requires declared { All (IsLive (length work.now.pool.trees)) work.now.decls.list }
    ensures { IfOk result (λ f. f
        ≡ failing (unlet_row (scene_of work.now.pool work.now.decls game) x)) }
{
    let Arrays::OfGame(directory) = arrays else {
        return Err(AllocError);
    };
    let Some(_) = only_assignment(&work.pool, game, directory, x) else {
        return Ok(Some(Failure {
            condition: 1,
            place: 0,
        }));
    };
    if is_queried(work, game, x) || is_listed(&work.pool, x, Some(game)) {
        return Ok(Some(Failure {
            condition: 2,
            place: 0,
        }));
    }
    Ok(None)
}

/// The first condition of `rewrite` that fails.
fn rewrite_conditions(
    alloc: Global,
    work: &Work,
    game: NodeId,
    arrays: &Arrays,
    place: u32,
    term: NodeId,
    by: Option<NodeId>,
) -> Result<Option<Failure>, AllocError>
    requires prepared { IsPrepared work.now.pool.trees work.now.decls game arrays.now }
    requires declared { All (IsLive (length work.now.pool.trees)) work.now.decls.list }
    requires term { term.0 < length work.now.pool.trees }
    requires by { IsLiveDerivation work.now.pool.trees by }
    ensures { IfOk result (λ f. f
        ≡ failing (rewrite_row (scene_of work.now.pool work.now.decls game) place
        (tree_at work.now.pool.trees (Some term)) (tree_at work.now.pool.trees by))) }
{
    let old = part_at(&work.pool, game, place);
    let sort = sort_at(alloc, work, game, arrays, place, old)?;
    if !is_rewritable(&work.pool, game, place, sort) {
        return Ok(Some(Failure {
            condition: 1,
            place,
        }));
    }
    let new = sort_at(alloc, work, game, arrays, place, Some(term))?;
    if !has_sort_of(sort, new) {
        return Ok(Some(Failure {
            condition: 2,
            place: 0,
        }));
    }
    if let Some(line) = bad_line(alloc, work, game, arrays, place, by)? {
        return Ok(Some(Failure {
            condition: 3,
            place: line,
        }));
    }
    if !ends_with_equality(&work.pool, by, old, Some(term)) {
        return Ok(Some(Failure {
            condition: 4,
            place: 0,
        }));
    }
    Ok(None)
}

/// The place of a body of the construct at a place of a game, if it has such a body.
fn place_to_prune(work: &Work, game: NodeId, place: u32, body: Body) -> Option<u32>
    requires live { game.0 < length work.now.pool.trees }
    requires fits { size (tree_at work.now.pool.trees (Some game)) < 2 ^ 32 }
    ensures { result ≡ option_map (λ b. b.body) (pruned place
        (scenes.part_at (tree_at work.now.pool.trees (Some game)) place) (part_of body)) }
{
    match part_at(&work.pool, game, place) {
        Some(construct) => body_to_prune(&work.pool, construct, place, body),
        None => None,
    }
}

/// The first condition of `prune` that fails.
fn prune_conditions(
    alloc: Global,
    work: &Work,
    game: NodeId,
    arrays: &Arrays,
    place: u32,
    body: Body,
    by: Option<NodeId>,
) -> Result<Option<Failure>, AllocError>
    requires prepared { IsPrepared work.now.pool.trees work.now.decls game arrays.now }
    requires declared { All (IsLive (length work.now.pool.trees)) work.now.decls.list }
    requires by { IsLiveDerivation work.now.pool.trees by }
    ensures { IfOk result (λ f. f
        ≡ failing (prune_row (scene_of work.now.pool work.now.decls game) place (part_of body)
        (tree_at work.now.pool.trees by))) }
{
    let Some(at) = place_to_prune(work, game, place, body) else {
        return Ok(Some(Failure {
            condition: 1,
            place: 0,
        }));
    };
    if let Some(line) = bad_line(alloc, work, game, arrays, at, by)? {
        return Ok(Some(Failure {
            condition: 2,
            place: line,
        }));
    }
    if !ends_with_falsity(&work.pool, by) {
        return Ok(Some(Failure {
            condition: 3,
            place: 0,
        }));
    }
    Ok(None)
}

/// The first condition of a step's row that fails.
pub fn unmet(
    alloc: Global,
    work: &Work,
    game: NodeId,
    arrays: &Arrays,
    rule: Rule,
) -> Result<Option<Failure>, AllocError>
    requires prepared { IsPrepared work.now.pool.trees work.now.decls game arrays.now }
    requires declared { All (IsLive (length work.now.pool.trees)) work.now.decls.list }
    requires rule { IsLiveRule work.now.pool.trees rule }
    ensures { IfOk result (λ f. f ≡ failing ((step_of work.now.pool.trees rule).row
        (scene_of work.now.pool work.now.decls game))) }
{
    match rule {
        Rule::Split { place, condition } => {
            split_conditions(alloc, work, game, arrays, place, condition)
        }
        Rule::Let { place, name, .. } => Ok(definition_conditions(work, game, place, name)),
        Rule::New { place, name, .. } => Ok(definition_conditions(work, game, place, name)),
        Rule::Unnew { name } => Ok(unnew_conditions(work, game, name)),
        Rule::Rename { name, to } => Ok(rename_conditions(work, game, arrays, name, to)),
        Rule::Unlet { name } => unlet_conditions(work, game, arrays, name),
        Rule::Rewrite { place, term, by } => {
            rewrite_conditions(alloc, work, game, arrays, place, term, by)
        }
        Rule::Prune { place, body, by } => {
            prune_conditions(alloc, work, game, arrays, place, body, by)
        }
    }
}

/// The first condition of a step that fails in a game with these arrays: 0, where what it speaks of isn't there.
pub fn conditions(
    alloc: Global,
    work: &Work,
    game: NodeId,
    arrays: &Arrays,
    rule: Rule,
) -> Result<Option<Failure>, AllocError>
    requires prepared { IsPrepared work.now.pool.trees work.now.decls game arrays.now }
    requires declared { All (IsLive (length work.now.pool.trees)) work.now.decls.list }
    requires rule { IsLiveRule work.now.pool.trees rule }
    ensures { IfOk result (λ f. f ≡ failure_of (scene_of work.now.pool work.now.decls game)
        (step_of work.now.pool.trees rule)) }
{
    if !stands(alloc, work, game, arrays, rule)? {
        return Ok(Some(Failure {
            condition: 0,
            place: 0,
        }));
    }
    unmet(alloc, work, game, arrays, rule)
}
