ghost use Rattle.std.specs.Prelude.{◌≡◌, ◌<◌, ◌^◌, All, length, IfErr, IfOk, OnOk, None, Some};
ghost use Rattle.cv_syntax.specs.Declarations.{declarations};
ghost use Rattle.cv_syntax_trees.specs.Tree.{size};
ghost use Rattle.cv_syntax.specs.PoolTrees.{tree_at};
ghost use Rattle.cv_syntax_trees.specs.sites.Sites.{sites_of};
ghost use Rattle.cv_directory.specs.Tables.{seen};
ghost use Rattle.cv_directory.specs.Live.{IsLive};
ghost use Rattle.cv_scope_rules.specs.Refusals.{IsFirstRefusal, IsRefusalOf};
ghost use Rattle.cv_scope_rules.specs.Scope.{IsScoped, first_scope_fault};

use crate::names::NameKinds;
use crate::state::State;
use crate::walk::walk;
use cv_directory::Directory;
use cv_scope_rules::{Position, ScopeFault};
use cv_syntax::{Game, Work};
use std::alloc::Global;

/// Whether each read of a game is in scope, its names have their sites in different branches, its channels carry the
/// current indices and its replications are few and apart; or its first fault.
pub fn check(alloc: Global, work: &Work, game: Game) -> Result<(), ScopeFault>
    requires live { game.root.0 < length work.now.pool.trees }
    requires declared { All (IsLive (length work.now.pool.trees)) work.now.decls.list }
    requires fits { size (tree_at work.now.pool.trees (Some game.root)) < 2 ^ 32 }
    ensures scoped { OnOk result (IsScoped (declarations work.now.pool.trees work.now.decls.list)
        (tree_at work.now.pool.trees (Some game.root))) }
    ensures fault { IfErr result (IsFirstRefusal
        (declarations work.now.pool.trees work.now.decls.list)
        (tree_at work.now.pool.trees (Some game.root))) }
    ensures none { OnOk result (first_scope_fault
        (declarations work.now.pool.trees work.now.decls.list)
        (tree_at work.now.pool.trees (Some game.root)) ≡ None) }
    ensures found { IfErr result (IsRefusalOf
        (first_scope_fault (declarations work.now.pool.trees work.now.decls.list)
        (tree_at work.now.pool.trees (Some game.root)))) }
{
    let directory = Directory::of(alloc, &work.pool, &work.decls, game.root)?;
    match check_with(alloc, work, game, directory) {
        Ok(_directory) => Ok(()),
        Err(fault) => Err(fault),
    }
}

/// The same, of a game with this directory, which is given back.
pub fn check_with(
    alloc: Global,
    work: &Work,
    game: Game,
    directory: Directory,
) -> Result<Directory, ScopeFault>
    requires live { game.root.0 < length work.now.pool.trees }
    requires declared { All (IsLive (length work.now.pool.trees)) work.now.decls.list }
    requires fits { size (tree_at work.now.pool.trees (Some game.root)) < 2 ^ 32 }
    requires sites { seen directory ≡ sites_of (tree_at work.now.pool.trees (Some game.root)) }
    ensures scoped { OnOk result (IsScoped (declarations work.now.pool.trees work.now.decls.list)
        (tree_at work.now.pool.trees (Some game.root))) }
    ensures fault { IfErr result (IsFirstRefusal
        (declarations work.now.pool.trees work.now.decls.list)
        (tree_at work.now.pool.trees (Some game.root))) }
    ensures none { OnOk result (first_scope_fault
        (declarations work.now.pool.trees work.now.decls.list)
        (tree_at work.now.pool.trees (Some game.root)) ≡ None) }
    ensures found { IfErr result (IsRefusalOf
        (first_scope_fault (declarations work.now.pool.trees work.now.decls.list)
        (tree_at work.now.pool.trees (Some game.root)))) }
    ensures directory { IfOk result (λ d. d ≡ directory) }
{
    let names = NameKinds::of(alloc, &work.pool, &work.decls, game.root, directory)?;
    let mut state = State::new(alloc);
    walk(
        alloc,
        &work.pool,
        &names,
        &mut state,
        Position::Anywhere,
        0,
        Some(game.root),
    )?;
    Ok(names.into_directory())
}
