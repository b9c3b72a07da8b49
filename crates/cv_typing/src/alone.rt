ghost use Rattle.std.specs.Prelude.{◌≡◌, ◌<◌, ◌^◌, All, not, is_some, length, IfOk, IfSome, OnOk, Some};
ghost use Rattle.cv_syntax.specs.Declarations.{declarations};
ghost use Rattle.cv_syntax_trees.specs.Tree.{size};
ghost use Rattle.cv_syntax.specs.PoolTrees.{tree_at};
ghost use Rattle.cv_syntax_trees.specs.sites.Sites.{sites_of};
ghost use Rattle.cv_directory.specs.Tables.{seen};
ghost use Rattle.cv_typing.specs.Lookups.{signature_in};
ghost use Rattle.cv_directory.specs.Live.{IsLive};
ghost use Rattle.cv_scope_rules.specs.typing.Parts.{game_part, nothing_above, signature_of};
ghost use Rattle.cv_typing.specs.Tables.{above_of};
ghost use Rattle.cv_scope_rules.specs.typing.Typing.{first_fault};
ghost use Rattle.cv_scope_rules.specs.typing.Wants.{AnyTerm, Run};
ghost use Rattle.cv_scope_rules.specs.declared.typing.form.Form.TheVariants.{InProcess};

use crate::arrays::Arrays;
use crate::checking::check_process;
use crate::walk::walk;
use cv_directory::Directory;
use cv_scope_rules::typing::Want;
use cv_syntax::{NodeId, Work};
use cv_syntax_trees::sites::Sort;
use std::alloc::{AllocError, Global};
use std::collections::HashMap;

/// Whether a term is typed below names of these sorts, which stay as they are.
pub fn is_typed_term(
    alloc: Global,
    work: &Work,
    arrays: &Arrays,
    above: &mut HashMap<u32, Sort>,
    term: NodeId,
) -> Result<bool, AllocError>
    requires live { term.0 < length work.now.pool.trees }
    requires declared { All (IsLive (length work.now.pool.trees)) work.now.decls.list }
    requires fits { size (tree_at work.now.pool.trees (Some term)) < 2 ^ 32 }
    ensures { IfOk result (λ typed. typed ≡ not (is_some (first_fault
        (signature_in work.now.pool.trees work.now.decls.list arrays.now) (above_of above.old)
        AnyTerm 0 (tree_at work.now.pool.trees (Some term))))) }
{
    match walk(
        alloc,
        &work.pool,
        &work.decls,
        arrays,
        above,
        Want::AnyTerm,
        0,
        Some(term),
    ) {
        Ok(_) => Ok(true),
        Err(fault) => {
            if fault.is_want_of_memory() {
                return Err(AllocError);
            }
            Ok(false)
        }
    }
}

/// The directory of a game, back again, where the game is typed.
pub fn is_typed_game(
    alloc: Global,
    work: &Work,
    root: NodeId,
    directory: Directory,
) -> Result<Option<Directory>, AllocError>
    requires live { root.0 < length work.now.pool.trees }
    requires declared { All (IsLive (length work.now.pool.trees)) work.now.decls.list }
    requires fits { size (tree_at work.now.pool.trees (Some root)) < 2 ^ 32 }
    requires sites { seen directory ≡ sites_of (tree_at work.now.pool.trees (Some root)) }
    ensures typed { IfOk result (λ back. is_some back ≡ not (is_some (first_fault
        (signature_of (declarations work.now.pool.trees work.now.decls.list)
        (game_part (tree_at work.now.pool.trees (Some root)))) nothing_above (Run InProcess) 0
        (tree_at work.now.pool.trees (Some root))))) }
    ensures directory { IfOk result (λ back. IfSome back (λ d. d ≡ directory)) }
{
    match check_process(alloc, &work.pool, &work.decls, 0, root, directory) {
        Ok(back) => Ok(Some(back)),
        Err(fault) => {
            if fault.is_want_of_memory() {
                return Err(AllocError);
            }
            Ok(None)
        }
    }
}
