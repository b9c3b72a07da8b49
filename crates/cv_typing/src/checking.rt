ghost use Rattle.std.specs.Prelude.{◌≡◌, ◌<◌, ◌+◌, ◌^◌, ◌∷◌, [], All, None, length, IfErr, IfOk, OnOk, Some};
ghost use Rattle.cv_syntax.specs.Declarations.{declarations};
ghost use Rattle.cv_syntax_trees.specs.Tree.{size};
ghost use Rattle.cv_syntax.specs.PoolTrees.{tree_at};
ghost use Rattle.cv_syntax_trees.specs.sites.Sites.{sites_of};
ghost use Rattle.cv_directory.specs.Tables.{seen};
ghost use Rattle.cv_typing.specs.Lookups.{HasLiveArguments};
ghost use Rattle.cv_directory.specs.Live.{IsLive};
ghost use Rattle.cv_scope_rules.specs.typing.Parts.{IsTypedFile, IsTypedGame, file_parts, first_in, game_part};
ghost use Rattle.cv_scope_rules.specs.typing.Refusals.{IsFirstRefusal, IsRefusalOf, parts_size};

use crate::arrays::Arrays;
use crate::parts::check_declaration;
use crate::walk::walk;
use cv_directory::Directory;
use cv_scope_rules::typing::{Form, TypeFault, Want};
use cv_syntax::{Decls, File, Game, NodeId, Pool, Work};
use std::alloc::Global;
use std::collections::HashMap;

/// Whether a game is typed, or its first fault in preorder.
pub fn check_game(alloc: Global, work: &Work, game: Game) -> Result<(), TypeFault>
    requires live { game.root.0 < length work.now.pool.trees }
    requires declared { All (IsLive (length work.now.pool.trees)) work.now.decls.list }
    requires fits { size (tree_at work.now.pool.trees (Some game.root)) < 2 ^ 32 }
    ensures typed { OnOk result (IsTypedGame (declarations work.now.pool.trees work.now.decls.list)
        (tree_at work.now.pool.trees (Some game.root))) }
    ensures fault { IfErr result (IsFirstRefusal
        (declarations work.now.pool.trees work.now.decls.list)
        (game_part (tree_at work.now.pool.trees (Some game.root)) ∷ [])) }
{
    let directory = Directory::of(alloc, &work.pool, &work.decls, game.root)?;
    check_process(alloc, &work.pool, &work.decls, 0, game.root, directory)?;
    Ok(())
}

/// Whether a file is typed, or its first fault: in its equations, equivalences and queries in order, or in its process.
/// Of a typed file it gives the number of the process's first node in the preorder of the file, and its directory back.
pub fn check(
    alloc: Global,
    work: &Work,
    file: &File,
    directory: Directory,
) -> Result<(u32, Directory), TypeFault>
    requires live { file.now.game.root.0 < length work.now.pool.trees }
    requires declared { All (IsLive (length work.now.pool.trees)) work.now.decls.list }
    requires sites { seen directory
        ≡ sites_of (tree_at work.now.pool.trees (Some file.now.game.root)) }
    requires fits { parts_size (file_parts (declarations work.now.pool.trees work.now.decls.list)
        (tree_at work.now.pool.trees (Some file.now.game.root))) < 2 ^ 32 }
    ensures place { IfOk result (λ found. found.0 + size
        (tree_at work.now.pool.trees (Some file.now.game.root))
        ≡ parts_size (file_parts (declarations work.now.pool.trees work.now.decls.list)
        (tree_at work.now.pool.trees (Some file.now.game.root)))) }
    ensures directory { IfOk result (λ found. found.1 ≡ directory) }
    ensures none { OnOk result (first_in (declarations work.now.pool.trees work.now.decls.list) 0
        (file_parts (declarations work.now.pool.trees work.now.decls.list)
        (tree_at work.now.pool.trees (Some file.now.game.root))) ≡ None) }
    ensures found { IfErr result (IsRefusalOf
        (first_in (declarations work.now.pool.trees work.now.decls.list) 0
        (file_parts (declarations work.now.pool.trees work.now.decls.list)
        (tree_at work.now.pool.trees (Some file.now.game.root))))) }
    ensures typed { OnOk result (IsTypedFile (declarations work.now.pool.trees work.now.decls.list)
        (tree_at work.now.pool.trees (Some file.now.game.root))) }
    ensures fault { IfErr result (IsFirstRefusal
        (declarations work.now.pool.trees work.now.decls.list)
        (file_parts (declarations work.now.pool.trees work.now.decls.list)
        (tree_at work.now.pool.trees (Some file.now.game.root)))) }
{
    check_parts(alloc, &work.pool, &work.decls, file.game.root, directory)
}

/// The place of a process behind declarations, where all are typed, or their first fault.
fn check_parts(
    alloc: Global,
    pool: &Pool,
    decls: &Decls,
    root: NodeId,
    directory: Directory,
) -> Result<(u32, Directory), TypeFault>
    requires live { root.0 < length pool.now.trees }
    requires declared { All (IsLive (length pool.now.trees)) decls.now.list }
    requires sites { seen directory ≡ sites_of (tree_at pool.now.trees (Some root)) }
    requires fits { parts_size (file_parts (declarations pool.now.trees decls.now.list)
        (tree_at pool.now.trees (Some root))) < 2 ^ 32 }
    ensures place { IfOk result (λ found. found.0 + size (tree_at pool.now.trees (Some root))
        ≡ parts_size (file_parts (declarations pool.now.trees decls.now.list)
        (tree_at pool.now.trees (Some root)))) }
    ensures directory { IfOk result (λ found. found.1 ≡ directory) }
    ensures typed { OnOk result (first_in (declarations pool.now.trees decls.now.list) 0
        (file_parts (declarations pool.now.trees decls.now.list)
        (tree_at pool.now.trees (Some root))) ≡ None) }
    ensures fault { IfErr result (IsRefusalOf
        (first_in (declarations pool.now.trees decls.now.list) 0
        (file_parts (declarations pool.now.trees decls.now.list)
        (tree_at pool.now.trees (Some root))))) }
{
    let mut place = 0;
    'decls: for k in 0..decls.len() {
        let Some(decl) = decls.get(k) else {
            continue;
        };
        place = check_declaration(alloc, pool, decls, place, *decl)?;
    }
    let directory = check_process(alloc, pool, decls, place, root, directory)?;
    Ok((place, directory))
}

/// Whether a process that stands at a place is typed, or its first fault. It gives the directory of the process back.
pub fn check_process(
    alloc: Global,
    pool: &Pool,
    decls: &Decls,
    from: u32,
    root: NodeId,
    directory: Directory,
) -> Result<Directory, TypeFault>
    requires live { root.0 < length pool.now.trees }
    requires arguments { HasLiveArguments (length pool.now.trees) decls.now.list }
    requires sites { seen directory ≡ sites_of (tree_at pool.now.trees (Some root)) }
    requires fits { from + size (tree_at pool.now.trees (Some root)) < 2 ^ 32 }
    ensures directory { IfOk result (λ d. d ≡ directory) }
    ensures typed { OnOk result (first_in (declarations pool.now.trees decls.now.list) from
        (game_part (tree_at pool.now.trees (Some root)) ∷ []) ≡ None) }
    ensures fault { IfErr result (IsRefusalOf
        (first_in (declarations pool.now.trees decls.now.list) from
        (game_part (tree_at pool.now.trees (Some root)) ∷ []))) }
{
    let arrays = Arrays::OfGame(directory);
    let mut above = HashMap::new(alloc);
    walk(
        alloc,
        pool,
        decls,
        &arrays,
        &mut above,
        Want::Run(Form::InProcess),
        from,
        Some(root),
    )?;
    match arrays.into_directory() {
        Some(directory) => Ok(directory),
        None => unreachable!(),
    }
}
