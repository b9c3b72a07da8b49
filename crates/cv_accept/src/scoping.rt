ghost use Rattle.std.specs.Prelude.{◌≡◌, ◌<◌, ◌+◌, ◌^◌, All, length, IfErr, IfOk, OnOk, None, Some};
ghost use Rattle.cv_syntax.specs.Declarations.{declarations};
ghost use Rattle.cv_syntax_trees.specs.Tree.{size};
ghost use Rattle.cv_syntax.specs.PoolTrees.{tree_at};
ghost use Rattle.cv_syntax_trees.specs.sites.Sites.{sites_of};
ghost use Rattle.cv_directory.specs.Tables.{seen};
ghost use Rattle.cv_directory.specs.Live.{IsLive};
ghost use Rattle.cv_scope_rules.specs.Refusals.{IsRefusalOf};
ghost use Rattle.cv_scope_rules.specs.Scope.{first_scope_fault};
ghost use Rattle.cv_accept.specs.Places as places;
ghost use Rattle.cv_accept.specs.Places.{HasPlace, refused_behind};

use cv_directory::Directory;
use cv_scope::check_with;
use cv_scope_rules::ScopeFault;
use cv_syntax::{Game, Work};
use std::alloc::Global;

/// The same fault, of a node that stands behind so many others.
fn behind(fault: ScopeFault, nodes: u32) -> ScopeFault
    requires { HasPlace nodes fault }
    ensures { result ≡ refused_behind nodes fault }
{
    match fault {
        ScopeFault::Unscoped(place) => ScopeFault::Unscoped(nodes + place),
        ScopeFault::TwoSites(place) => ScopeFault::TwoSites(nodes + place),
        ScopeFault::Channel(place) => ScopeFault::Channel(nodes + place),
        ScopeFault::Replications(place) => ScopeFault::Replications(nodes + place),
        ScopeFault::OutOfMemory => ScopeFault::OutOfMemory,
    }
}

/// Whether a game is in scope, or its first fault. So many nodes stand before the game in its file. It gives the game's
/// directory back.
pub fn check_game(
    alloc: Global,
    work: &Work,
    game: Game,
    nodes: u32,
    directory: Directory,
) -> Result<Directory, ScopeFault>
    requires live { game.root.0 < length work.now.pool.trees }
    requires declared { All (IsLive (length work.now.pool.trees)) work.now.decls.list }
    requires fits { nodes + size (tree_at work.now.pool.trees (Some game.root)) < 2 ^ 32 }
    requires sites { seen directory ≡ sites_of (tree_at work.now.pool.trees (Some game.root)) }
    ensures none { OnOk result (first_scope_fault
        (declarations work.now.pool.trees work.now.decls.list)
        (tree_at work.now.pool.trees (Some game.root)) ≡ None) }
    ensures found { IfErr result (IsRefusalOf (places.behind nodes
        (first_scope_fault (declarations work.now.pool.trees work.now.decls.list)
        (tree_at work.now.pool.trees (Some game.root))))) }
    ensures directory { IfOk result (λ d. d ≡ directory) }
{
    match check_with(alloc, work, game, directory) {
        Ok(directory) => Ok(directory),
        Err(fault) => Err(behind(fault, nodes)),
    }
}
