ghost use Rattle.std.specs.Prelude.{◌≡◌, ◌<◌, ◌^◌, All, IfOk, OnOk, Some, length};
ghost use Rattle.cv_syntax_trees.specs.sites.Sites.{sites_of};
ghost use Rattle.cv_syntax_trees.specs.declared.sites.sort.Sort.TheVariants.{BelowParameter};
ghost use Rattle.cv_scope_rules.specs.Context.{replications_below};
ghost use Rattle.cv_syntax_trees.specs.Tree.{size};
ghost use Rattle.cv_syntax.specs.PoolTrees.{tree_at};
ghost use Rattle.cv_scope_rules.specs.declared.typing.precedence.Precedence.TheVariants.{Newest};
ghost use Rattle.cv_directory.specs.Live.{IsLive};
ghost use Rattle.cv_scope_rules.specs.typing.Signature.{OfGame, boolean};
ghost use Rattle.cv_typing.specs.Tables.{above_of, arrays_of};
ghost use Rattle.cv_scope_rules.specs.typing.Wants.{bound};
ghost use Rattle.cv_scene.specs.Terms as terms;
ghost use Rattle.cv_scene_view.specs.Kept.{above_behind, scene_of};

use crate::games::is_there;
use crate::phrases::{Phrase, is_phrase};
use cv_path::{Lies, place_in};
use cv_syntax::{Head, NodeId, Work, read_node};
use cv_syntax_trees::sites::Sort;
use cv_typing::{Arrays, is_typed_term, sort_of_term};
use std::alloc::{AllocError, Global};
use std::collections::HashMap;

/// Notes the parameter of an index.
fn put_index(above: &mut HashMap<u32, Sort>, i: u32, n: u32) -> Result<(), AllocError>
    ensures { OnOk result (above_of above.new
        ≡ bound Newest (above_of above.old) i (BelowParameter n)) }
{
    above.insert(i, Sort::BelowParameter(n))?;
    Ok(())
}

/// Notes the index of a replication, unless its name is there.
fn bind_index(above: &mut HashMap<u32, Sort>, head: Head) -> Result<(), AllocError>
    ensures { OnOk result (above_of above.new ≡ above_behind head (above_of above.old)) }
{
    match head {
        Head::Repl(i, n) => {
            if above.contains_key(&i) {
                return Ok(());
            }
            put_index(above, i, n)
        }
        _ => Ok(()),
    }
}

/// The sorts of the indices of the replications above a place of a game.
#[tactic(auto, using(cv_path::proofs::Going::going))]
pub fn indices_at(
    alloc: Global,
    work: &Work,
    game: NodeId,
    place: u32,
) -> Result<HashMap<u32, Sort>, AllocError>
    requires live { game.0 < length work.now.pool.trees }
    requires fits { size (tree_at work.now.pool.trees (Some game)) < 2 ^ 32 }
    ensures { IfOk result (λ above. above_of above
        ≡ terms.above_at (scene_of work.now.pool work.now.decls game) place) }
{
    let mut above = HashMap::new(alloc);
    let mut at = Some(game);
    let mut left = place;
    'down: while let Some(k) = at {
        let node = read_node(&work.pool, k);
        match place_in(&work.pool, node, left) {
            Lies::Here => return Ok(above),
            Lies::Within(rest) => {
                at = node.first;
                left = rest;
            }
            Lies::Behind(rest) => {
                bind_index(&mut above, node.head)?;
                at = node.second;
                left = rest;
            }
        }
    }
    Ok(HashMap::new(alloc))
}

/// Notes the index of a replication with its parameter.
fn pass_replication(passed: &mut Vec<(u32, u32)>, head: Head) -> Result<(), AllocError>
    ensures { OnOk result (passed.new.items ≡ replications_below head passed.old.items) }
{
    match head {
        Head::Repl(i, n) => {
            passed.push((i, n))?;
            Ok(())
        }
        _ => Ok(()),
    }
}

/// The indices of the replications above a place of a game with their parameters, outermost first.
#[tactic(auto, using(cv_path::proofs::Going::going))]
pub fn replications_at(
    alloc: Global,
    work: &Work,
    game: NodeId,
    place: u32,
) -> Result<Vec<(u32, u32)>, AllocError>
    requires live { game.0 < length work.now.pool.trees }
    requires fits { size (tree_at work.now.pool.trees (Some game)) < 2 ^ 32 }
    ensures { IfOk result (λ passed. passed.items
        ≡ terms.replications_at (scene_of work.now.pool work.now.decls game) place) }
{
    let mut passed = Vec::new(alloc);
    let mut at = Some(game);
    let mut left = place;
    'down: while let Some(k) = at {
        let node = read_node(&work.pool, k);
        match place_in(&work.pool, node, left) {
            Lies::Here => return Ok(passed),
            Lies::Within(rest) => {
                at = node.first;
                left = rest;
            }
            Lies::Behind(rest) => {
                pass_replication(&mut passed, node.head)?;
                at = node.second;
                left = rest;
            }
        }
    }
    Ok(Vec::new(alloc))
}

/// Whether a tree is a term whose names are there at a place of a game, and that is typed.
pub fn is_term_at(
    alloc: Global,
    work: &Work,
    game: NodeId,
    arrays: &Arrays,
    place: u32,
    term: NodeId,
) -> Result<bool, AllocError>
    requires live { game.0 < length work.now.pool.trees }
    requires fits { size (tree_at work.now.pool.trees (Some game)) < 2 ^ 32 }
    requires declared { All (IsLive (length work.now.pool.trees)) work.now.decls.list }
    requires arrays { arrays_of arrays.now
        ≡ OfGame (sites_of (tree_at work.now.pool.trees (Some game))) }
    requires term { term.0 < length work.now.pool.trees }
    requires short { size (tree_at work.now.pool.trees (Some term)) < 2 ^ 32 }
    ensures { IfOk result (λ is_term. is_term
        ≡ terms.is_term_at (scene_of work.now.pool work.now.decls game) place
        (tree_at work.now.pool.trees (Some term))) }
{
    if !is_phrase(&work.pool, Phrase::Term, Some(term)) {
        return Ok(false);
    }
    let mut above = indices_at(alloc, work, game, place)?;
    if !is_there(
        &work.pool,
        &work.decls,
        arrays,
        &above,
        false,
        Phrase::Term,
        Some(term),
    ) {
        return Ok(false);
    }
    is_typed_term(alloc, work, arrays, &mut above, term)
}

/// Whether a sort is that of truth values.
fn is_boolean(sort: Option<Sort>) -> bool
    ensures { result ≡ terms.is_sort sort boolean }
{
    match sort {
        Some(Sort::OfType(t)) => t == 0,
        _ => false,
    }
}

/// Whether a term is a truth value at a place of a game.
pub fn is_bool_at(
    alloc: Global,
    work: &Work,
    game: NodeId,
    arrays: &Arrays,
    place: u32,
    term: NodeId,
) -> Result<bool, AllocError>
    requires live { game.0 < length work.now.pool.trees }
    requires fits { size (tree_at work.now.pool.trees (Some game)) < 2 ^ 32 }
    requires arrays { arrays_of arrays.now
        ≡ OfGame (sites_of (tree_at work.now.pool.trees (Some game))) }
    requires term { term.0 < length work.now.pool.trees }
    ensures { IfOk result (λ is_bool. is_bool
        ≡ terms.is_bool_at (scene_of work.now.pool work.now.decls game) place
        (tree_at work.now.pool.trees (Some term))) }
{
    let above = indices_at(alloc, work, game, place)?;
    let sort = sort_of_term(&work.pool, &work.decls, arrays, &above, Some(term));
    Ok(is_boolean(sort))
}
