ghost use Rattle.std.specs.Prelude.{◌≡◌, ◌+◌, ◌<◌, ◌≤◌, ◌^◌, ◌∷◌, [], All, IfOk, IfSome, Some, length};
ghost use Rattle.cv_pool.specs.Nodes.{ChildBelow};
ghost use Rattle.cv_syntax_trees.specs.Tree as tree;
ghost use Rattle.cv_syntax.specs.Declarations.{declarations};
ghost use Rattle.cv_syntax.specs.PoolTrees.{tree_at};
ghost use Rattle.cv_directory.specs.Definitions.{entries_of, large_in};
ghost use Rattle.cv_directory.specs.Live.{IsLive};
ghost use Rattle.cv_directory.specs.Tables.{entries_in};
ghost use Rattle.cv_syntax_trees.specs.sites.Sites.{sites_of};
ghost use Rattle.cv_scene.specs.lines.Lines as lines;
ghost use Rattle.cv_scene.specs.lines.Lines.{lines_of};
ghost use Rattle.cv_typing.specs.Tables.{arrays_of, directory_in};
ghost use Rattle.cv_scope_rules.specs.typing.Signature.{OfGame};
ghost use Rattle.cv_scope_rules.specs.Phrases.{IsWellFormed};
ghost use Rattle.cv_scene.specs.Derivations.{first_bad_line};
ghost use Rattle.cv_scene.specs.Sights.{sight_at};
ghost use Rattle.cv_scene_view.specs.Kept.{scene_of};
ghost use Rattle.cv_edit_places.specs.Plans.{IsPlanned, failed};
ghost use Rattle.cv_rule_pick.specs.Looks.{IsLiveBranch, IsShortDerivation, arm_of};
ghost use Rattle.cv_rule_pick.specs.Needs.{made_of_pick, made_with};
ghost use Rattle.cv_rule_pick.specs.Picking as picking;
ghost use Rattle.cv_rule_pick.specs.Row.{pick_step};
ghost use Rattle.cv_rule_pick.specs.Stages.{IsGiven, IsStage, derived_row, named_row};
ghost use Rattle.cv_rule_pick.specs.Wanted.{given_cells, put};
ghost use Rattle.cv_edit_places.specs.Parts.{AreLive, made_by, stack_of};
ghost use Rattle.cv_scene.specs.Scenes.{part_at};
ghost use Rattle.cv_scope.specs.Held.{names_held};
ghost use Rattle.cv_scope_rules.specs.Scope.{names_of};
ghost use Rattle.cv_steps.specs.Steps.{Row};

use crate::branches::{OnlyBranch, only_branch};
use crate::indices::{are_indices, are_terms};
use crate::others::{Own, first_other};
use crate::putting::add_with_terms;
use crate::targets::{Given, claims, end_with, wanted_equations, wanted_guards};
use cv_costs::names::{is_one_queried, own_names};
use cv_derive::{DeriveFault, check};
use cv_derive_reasons::sizes::Sizes;
use cv_directory::Directory;
use cv_edit_places::{Change, Failure, Parts};
use cv_path::size_below;
use cv_scene_view::{has_place, indices_at, part_at, replications_at};
use cv_scope::NameKinds;
use cv_syntax::{Game, NodeId, Pool, Work, read_node};
use cv_typing::Arrays;
use std::alloc::{AllocError, Global};

/// A condition that fails, with its place.
fn failed(condition: u32, place: u32) -> Failure
    ensures { result ≡ failed condition place }
{
    Failure { condition, place }
}

/// The two derivations of a pick: at the body of the branch, and at the `find`.
#[derive(Clone, Copy)]
pub struct Derivations {
    pub at_body: Option<NodeId>,
    pub at_find: Option<NodeId>,
}

/// The number of the first line of a derivation at a place of a game that isn't right.
fn bad_line(
    alloc: Global,
    work: &Work,
    game: NodeId,
    arrays: &Arrays,
    place: u32,
    by: Option<NodeId>,
) -> Result<Option<u32>, AllocError>
    requires live { game.0 < length work.now.pool.trees }
    requires fits { tree.size (tree_at work.now.pool.trees (Some game)) < 2 ^ 32 }
    requires declared { All (IsLive (length work.now.pool.trees)) work.now.decls.list }
    requires formed { IsWellFormed (declarations work.now.pool.trees work.now.decls.list)
        (tree_at work.now.pool.trees (Some game)) }
    requires arrays { arrays_of arrays.now
        ≡ OfGame (sites_of (tree_at work.now.pool.trees (Some game))) }
    requires entries { IfSome (directory_in arrays.now) (λ d. entries_in work.now.pool.trees d
        ≡ entries_of (large_in work.now.decls.list)
        (tree_at work.now.pool.trees (Some game))) }
    requires by { ChildBelow (length work.now.pool.trees) by }
    requires few { 1 + lines.count (lines_of (tree_at work.now.pool.trees by)) < 2 ^ 32 }
    ensures { IfOk result (λ line. line ≡ first_bad_line
        (sight_at (scene_of work.now.pool work.now.decls game) place)
        (tree_at work.now.pool.trees by)) }
{
    let above = indices_at(alloc, work, game, place)?;
    let replications = replications_at(alloc, work, game, place)?;
    let rows = replications.as_slice();
    match check(
        work,
        Game { root: game },
        arrays,
        &Sizes::of(&work.pool, game),
        &above,
        rows,
        place,
        by,
        None,
    ) {
        Err(DeriveFault::LineBad(n)) => Ok(Some(n)),
        _ => Ok(None),
    }
}

/// The place of the body of the only branch of a `find` that stands at a place.
fn body_place(pool: &Pool, place: u32, branch: OnlyBranch) -> u32
    requires branch { IsLiveBranch (length pool.now.trees) branch }
    requires fits { picking.body_place place (arm_of pool.now.trees branch) < 2 ^ 32 }
    ensures { result ≡ picking.body_place place (arm_of pool.now.trees branch) }
{
    let list = place + 2 + size_below(pool, branch.binders);
    list + size_below(pool, branch.cells) + size_below(pool, branch.condition)
}

/// The first condition that fails of those on derivations.
fn underived(
    alloc: Global,
    work: &Work,
    game: NodeId,
    arrays: &Arrays,
    place: u32,
    branch: OnlyBranch,
    given: Given,
    by: Derivations,
) -> Result<Option<Failure>, AllocError>
    requires live { game.0 < length work.now.pool.trees }
    requires small { tree.size (tree_at work.now.pool.trees (Some game)) ≤ 50000 }
    requires declared { All (IsLive (length work.now.pool.trees)) work.now.decls.list }
    requires formed { IsWellFormed (declarations work.now.pool.trees work.now.decls.list)
        (tree_at work.now.pool.trees (Some game)) }
    requires arrays { arrays_of arrays.now
        ≡ OfGame (sites_of (tree_at work.now.pool.trees (Some game))) }
    requires entries { IfSome (directory_in arrays.now) (λ d. entries_in work.now.pool.trees d
        ≡ entries_of (large_in work.now.decls.list)
        (tree_at work.now.pool.trees (Some game))) }
    requires given { IsGiven work.now.pool.trees
        (scene_of work.now.pool work.now.decls game) place branch given }
    requires at_body { IsShortDerivation work.now.pool.trees by.at_body }
    requires at_find { IsShortDerivation work.now.pool.trees by.at_find }
    ensures { IfOk result (λ f. (rest : Row) → IsStage f (derived_row
        (scene_of work.now.pool work.now.decls game) place
        (tree_at work.now.pool.trees given.entry.terms) (tree_at work.now.pool.trees by.at_body)
        (tree_at work.now.pool.trees by.at_find) (arm_of work.now.pool.trees branch) rest) rest) }
{
    let pool = &work.pool;
    let body = body_place(pool, place, branch);
    if let Some(line) = bad_line(alloc, work, game, arrays, body, by.at_body)? {
        return Ok(Some(failed(2, line)));
    }
    let said = claims(alloc, pool, by.at_body)?;
    let wanted = wanted_equations(alloc, pool, branch.binders, given.terms)?;
    if !end_with(pool, given, said.as_slice(), wanted.as_slice()) {
        return Ok(Some(failed(3, 0)));
    }
    if let Some(line) = bad_line(alloc, work, game, arrays, place, by.at_find)? {
        return Ok(Some(failed(4, line)));
    }
    let said = claims(alloc, pool, by.at_find)?;
    let wanted = wanted_guards(alloc, pool, branch.cells, branch.condition)?;
    if !end_with(pool, given, said.as_slice(), wanted.as_slice()) {
        return Ok(Some(failed(5, 0)));
    }
    Ok(None)
}

/// The first condition that fails of those on the names of index variables: at the least place where one is named otherwise than
/// the rule allows, or at 0, where a query names one.
fn misnamed(
    alloc: Global,
    work: &Work,
    game: NodeId,
    place: u32,
    construct: NodeId,
    branch: OnlyBranch,
    given: Given,
) -> Result<Option<Failure>, AllocError>
    requires live { game.0 < length work.now.pool.trees }
    requires small { tree.size (tree_at work.now.pool.trees (Some game)) ≤ 50000 }
    requires declared { All (IsLive (length work.now.pool.trees)) work.now.decls.list }
    requires construct { construct.0 < length work.now.pool.trees }
    requires there { tree_at work.now.pool.trees (Some construct)
        ≡ part_at (tree_at work.now.pool.trees (Some game)) place }
    requires given { IsGiven work.now.pool.trees
        (scene_of work.now.pool work.now.decls game) place branch given }
    ensures { IfOk result (λ f. (rest : Row) → IsStage f (named_row
        (scene_of work.now.pool work.now.decls game) place (arm_of work.now.pool.trees branch)
        rest) rest) }
{
    let pool = &work.pool;
    let names = own_names(alloc, pool, read_node(pool, construct))?;
    if is_one_queried(work, game, &names) {
        return Ok(Some(failed(6, 0)));
    }
    let own = Own {
        arm: place + 1,
        behind: body_place(pool, place, branch) + size_below(pool, branch.body),
        binders: branch.binders,
        replications: given.replications,
        names: &names,
    };
    match first_other(pool, own, game) {
        Some(other) => Ok(Some(failed(6, other))),
        None => Ok(None),
    }
}

/// A tree with terms for index variables, as parts.
fn picked(
    alloc: Global,
    pool: &Pool,
    given: Given,
    body: Option<NodeId>,
) -> Result<Parts, AllocError>
    requires binders { ChildBelow (length pool.now.trees) given.binders }
    requires terms { ChildBelow (length pool.now.trees) given.terms }
    requires body { ChildBelow (length pool.now.trees) body }
    ensures stack { IfOk result (λ parts. stack_of pool.now.trees parts
        ≡ put pool.now.trees given.entry (tree_at pool.now.trees body) ∷ []) }
    ensures made { IfOk result (λ parts. made_by parts
        ≡ made_with (given_cells pool.now.trees given.entry)
        (tree_at pool.now.trees given.entry.terms) (tree_at pool.now.trees body)) }
    ensures live { IfOk result (λ parts. AreLive (length pool.now.trees) parts) }
{
    let mut parts = Parts::new(alloc);
    add_with_terms(
        alloc,
        pool,
        &mut parts,
        given.binders,
        given.replications,
        given.terms,
        body,
    )?;
    Ok(parts)
}

/// The names of a file and of a game, by what they are.
fn names_of(alloc: Global, work: &Work, game: NodeId) -> Result<NameKinds, AllocError>
    requires live { game.0 < length work.now.pool.trees }
    requires fits { tree.size (tree_at work.now.pool.trees (Some game)) < 2 ^ 32 }
    requires declared { All (IsLive (length work.now.pool.trees)) work.now.decls.list }
    ensures { IfOk result (λ names. names_held names
        ≡ names_of (declarations work.now.pool.trees work.now.decls.list)
        (tree_at work.now.pool.trees (Some game))) }
{
    let sites = Directory::of(alloc, &work.pool, &work.decls, game)?;
    NameKinds::of(alloc, &work.pool, &work.decls, game, sites)
}

/// The body that stands for the `find` at a place of a game from then on, with terms for its index variables, or the first
/// condition that fails.
pub fn plan(
    alloc: Global,
    work: &Work,
    game: NodeId,
    arrays: &Arrays,
    place: u32,
    terms: Option<NodeId>,
    by: Derivations,
) -> Result<Result<Change, Failure>, AllocError>
    requires live { game.0 < length work.now.pool.trees }
    requires small { tree.size (tree_at work.now.pool.trees (Some game)) ≤ 50000 }
    requires declared { All (IsLive (length work.now.pool.trees)) work.now.decls.list }
    requires formed { IsWellFormed (declarations work.now.pool.trees work.now.decls.list)
        (tree_at work.now.pool.trees (Some game)) }
    requires arrays { arrays_of arrays.now
        ≡ OfGame (sites_of (tree_at work.now.pool.trees (Some game))) }
    requires entries { IfSome (directory_in arrays.now) (λ d. entries_in work.now.pool.trees d
        ≡ entries_of (large_in work.now.decls.list)
        (tree_at work.now.pool.trees (Some game))) }
    requires terms { ChildBelow (length work.now.pool.trees) terms }
    requires short { tree.size (tree_at work.now.pool.trees terms) < 2 ^ 32 }
    requires at_body { IsShortDerivation work.now.pool.trees by.at_body }
    requires at_find { IsShortDerivation work.now.pool.trees by.at_find }
    ensures { IfOk result (IsPlanned work.now.pool.trees
        (scene_of work.now.pool work.now.decls game)
        (pick_step place (tree_at work.now.pool.trees terms)
        (tree_at work.now.pool.trees by.at_body) (tree_at work.now.pool.trees by.at_find)) place
        (made_of_pick place (tree_at work.now.pool.trees terms)
        (tree_at work.now.pool.trees (Some game)))) }
{
    if !has_place(work, game, place) {
        return Ok(Err(failed(0, 0)));
    }
    if !are_terms(alloc, work, game, arrays, place, terms)? {
        return Ok(Err(failed(0, 0)));
    }
    let Some(construct) = part_at(&work.pool, game, place) else {
        return Ok(Err(failed(1, 0)));
    };
    let Some(branch) = only_branch(&work.pool, Some(construct)) else {
        return Ok(Err(failed(1, 0)));
    };
    let names = names_of(alloc, work, game)?;
    let above = replications_at(alloc, work, game, place)?;
    let given = Given {
        binders: branch.binders,
        replications: above.as_slice(),
        terms,
    };
    if !are_indices(alloc, work, game, &names, arrays, place, given)? {
        return Ok(Err(failed(1, 0)));
    }
    if let Some(failure) = underived(alloc, work, game, arrays, place, branch, given, by)? {
        return Ok(Err(failure));
    }
    if let Some(failure) = misnamed(alloc, work, game, place, construct, branch, given)? {
        return Ok(Err(failure));
    }
    let parts = picked(alloc, &work.pool, given, branch.body)?;
    Ok(Ok(Change::Built { parts }))
}
