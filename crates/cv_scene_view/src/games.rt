ghost use Rattle.std.specs.Prelude.{◌≡◌, ◌<◌, ◌^◌, ◌&&◌, ◌||◌, All, IfOk, IfSome, List, Some, is_some, length, not};
ghost use Rattle.cv_meaning.specs.Interpretation.{is_constant_of};
ghost use Rattle.cv_pool.specs.KindTree.{KindTree};
ghost use Rattle.cv_pool.specs.Nodes.{ChildBelow};
ghost use Rattle.cv_syntax.specs.Declarations.{declarations};
ghost use Rattle.cv_syntax_trees.specs.Tree.{size};
ghost use Rattle.cv_syntax.specs.PoolTrees.{tree_at};
ghost use Rattle.cv_syntax_trees.specs.sites.Sites.{sites_of};
ghost use Rattle.cv_directory.specs.Definitions.{entries_of, large_in};
ghost use Rattle.cv_directory.specs.Tables.{entries_in, seen};
ghost use Rattle.cv_directory.specs.Live.{IsLive};
ghost use Rattle.cv_scope_rules.specs.typing.Signature.{OfGame, function_in};
ghost use Rattle.cv_typing.specs.Tables.{arrays_of, directory_in};
ghost use Rattle.cv_scope.specs.Held.{names_held};
ghost use Rattle.cv_scope_rules.specs.Refusals.{named};
ghost use Rattle.cv_scope_rules.specs.Scope.{first_scope_fault};
ghost use Rattle.cv_scope_rules.specs.Phrases as grammar;
ghost use Rattle.cv_scene.specs.Terms as terms;
ghost use Rattle.cv_scene_view.specs.Kept.{has_index_name, names_there, has_variable};
ghost use Rattle.cv_scene_view.specs.phrases.Phrases.{phrase_of};

use crate::phrases::{Phrase, is_phrase, parts};
use cv_directory::Directory;
use cv_scope::{NameKinds, check_with};
use cv_scope_rules::ScopeFault;
use cv_syntax::{Decls, Game, Head, NodeId, Pool, Work, read_node};
use cv_syntax_trees::sites::Sort;
use cv_typing::{Arrays, function_sort, is_typed_game};
use std::alloc::{AllocError, Global};
use std::collections::HashMap;

/// Whether a node binds no constant.
fn head_binds_none(names: &NameKinds, head: Head) -> bool
    ensures { result ≡ grammar.head_binds_none (names_held names.now).constant head }
{
    match head {
        Head::Repl(x, _) => !names.is_constant(x),
        Head::New(x, _) => !names.is_constant(x),
        Head::Let(x, _) => !names.is_constant(x),
        Head::Binder(x, _) => !names.is_constant(x),
        Head::Key(x) => !names.is_constant(x),
        Head::Call(x, _) => !names.is_constant(x),
        _ => true,
    }
}

/// Whether a tree binds no constant.
fn binds_none(pool: &Pool, names: &NameKinds, tree: Option<NodeId>) -> bool
    requires { ChildBelow (length pool.now.trees) tree }
    ensures { result ≡ grammar.binds_none (names_held names.now).constant
        (tree_at pool.now.trees tree) }
{
    let mut at = tree;
    'tree: while let Some(k) = at {
        let node = read_node(pool, k);
        if !head_binds_none(names, node.head) {
            return false;
        }
        if !binds_none(pool, names, node.first) {
            return false;
        }
        at = node.second;
    }
    true
}

/// Whether a name is an index: one of those above, or anywhere also one of the whole game's.
fn is_index(arrays: &Arrays, above: &HashMap<u32, Sort>, everywhere: bool, i: u32) -> bool
    ensures { result ≡ has_index_name above.now arrays.now everywhere i }
{
    above.contains_key(&i) || (everywhere && arrays.index(i).is_some())
}

/// Whether a name is a variable of the game.
#[tactic(auto, using(crate::proofs::Whole::wholes))]
fn is_variable(arrays: &Arrays, x: u32) -> bool
    ensures { result ≡ has_variable arrays.now x }
{
    arrays.arity(x).is_some()
}

/// Whether a name is a function.
fn is_function(decls: &Decls, f: u32) -> bool
    ensures { (trees : List KindTree)
        → result ≡ is_some (function_in (declarations trees decls.now.list) f) }
{
    function_sort(decls, f).is_some()
}

/// Whether a name that stands bare is there.
fn is_name_there(
    decls: &Decls,
    arrays: &Arrays,
    above: &HashMap<u32, Sort>,
    everywhere: bool,
    x: u32,
) -> bool
    ensures { (trees : List KindTree)
        → result ≡ (has_index_name above.now arrays.now everywhere x
        || (is_some (function_in (declarations trees decls.now.list) x)
        || has_variable arrays.now x)) }
{
    if is_index(arrays, above, everywhere, x) {
        return true;
    }
    if is_function(decls, x) {
        return true;
    }
    is_variable(arrays, x)
}

/// Whether what a node of a phrase names is there.
fn head_is_there(
    decls: &Decls,
    arrays: &Arrays,
    above: &HashMap<u32, Sort>,
    everywhere: bool,
    phrase: Phrase,
    head: Head,
) -> bool
    ensures { (trees : List KindTree)
        → result ≡ terms.head_is_there (names_there (declarations trees decls.now.list)
        above.now arrays.now everywhere) (phrase_of phrase) head }
{
    match head {
        Head::Leaf(x) => match phrase {
            Phrase::OneCell => is_variable(arrays, x),
            _ => is_name_there(decls, arrays, above, everywhere, x),
        },
        Head::Read(x) => is_variable(arrays, x),
        Head::Apply(f) => is_function(decls, f),
        _ => true,
    }
}

/// Whether all that a phrase names is there.
pub fn is_there(
    pool: &Pool,
    decls: &Decls,
    arrays: &Arrays,
    above: &HashMap<u32, Sort>,
    everywhere: bool,
    phrase: Phrase,
    tree: Option<NodeId>,
) -> bool
    requires { ChildBelow (length pool.now.trees) tree }
    ensures { result ≡ terms.is_there (names_there (declarations pool.now.trees decls.now.list)
        above.now arrays.now everywhere) (phrase_of phrase) (tree_at pool.now.trees tree) }
{
    let mut expected = phrase;
    let mut at = tree;
    'tree: while let Some(k) = at {
        let node = read_node(pool, k);
        if !head_is_there(decls, arrays, above, everywhere, expected, node.head) {
            return false;
        }
        let Some((first, second)) = parts(expected, node.head) else {
            return false;
        };
        if !is_there(pool, decls, arrays, above, everywhere, first, node.first) {
            return false;
        }
        expected = second;
        at = node.second;
    }
    true
}

/// Whether a refusal names no fault.
fn is_want_of_memory(fault: ScopeFault) -> bool
    ensures { result ≡ not (is_some (named fault)) }
{
    match fault {
        ScopeFault::OutOfMemory => true,
        _ => false,
    }
}

/// The directory of a game, back again, where the game is in array scope.
fn is_scoped(
    alloc: Global,
    work: &Work,
    game: Game,
    directory: Directory,
) -> Result<Option<Directory>, AllocError>
    requires live { game.root.0 < length work.now.pool.trees }
    requires declared { All (IsLive (length work.now.pool.trees)) work.now.decls.list }
    requires fits { size (tree_at work.now.pool.trees (Some game.root)) < 2 ^ 32 }
    requires sites { seen directory ≡ sites_of (tree_at work.now.pool.trees (Some game.root)) }
    ensures scoped { IfOk result (λ back. is_some back ≡ not (is_some (first_scope_fault
        (declarations work.now.pool.trees work.now.decls.list)
        (tree_at work.now.pool.trees (Some game.root))))) }
    ensures directory { IfOk result (λ back. IfSome back (λ d. d ≡ directory)) }
{
    match check_with(alloc, work, game, directory) {
        Ok(back) => Ok(Some(back)),
        Err(fault) => {
            if is_want_of_memory(fault) {
                return Err(AllocError);
            }
            Ok(None)
        }
    }
}

/// What a game with this directory, typed and in scope, has to read, where it binds no constant and each name that it
/// reads is there.
fn is_closed(
    alloc: Global,
    work: &Work,
    game: Game,
    directory: Directory,
) -> Result<Option<Arrays>, AllocError>
    requires live { game.root.0 < length work.now.pool.trees }
    requires declared { All (IsLive (length work.now.pool.trees)) work.now.decls.list }
    requires sites { seen directory ≡ sites_of (tree_at work.now.pool.trees (Some game.root)) }
    ensures closed { IfOk result (λ found. is_some found ≡ (grammar.binds_none
        (is_constant_of (declarations work.now.pool.trees work.now.decls.list))
        (tree_at work.now.pool.trees (Some game.root))
        && terms.is_there (terms.names_anywhere
        (declarations work.now.pool.trees work.now.decls.list)
        (tree_at work.now.pool.trees (Some game.root))) grammar.Inputs
        (tree_at work.now.pool.trees (Some game.root)))) }
    ensures directory { IfOk result (λ found. IfSome found (λ a.
        directory_in a ≡ Some directory)) }
{
    let names = NameKinds::of(alloc, &work.pool, &work.decls, game.root, directory)?;
    if !binds_none(&work.pool, &names, Some(game.root)) {
        return Ok(None);
    }
    let arrays = Arrays::OfGame(names.into_directory());
    let above = HashMap::new(alloc);
    if !is_there(
        &work.pool,
        &work.decls,
        &arrays,
        &above,
        true,
        Phrase::Inputs,
        Some(game.root),
    ) {
        return Ok(None);
    }
    Ok(Some(arrays))
}

/// What there is to read in a game, by the directory that is made of it, where it is a game.
pub fn is_game(alloc: Global, work: &Work, game: Game) -> Result<Option<Arrays>, AllocError>
    requires live { game.root.0 < length work.now.pool.trees }
    requires declared { All (IsLive (length work.now.pool.trees)) work.now.decls.list }
    requires fits { size (tree_at work.now.pool.trees (Some game.root)) < 2 ^ 32 }
    ensures game { IfOk result (λ found. is_some found ≡ terms.is_game
        (declarations work.now.pool.trees work.now.decls.list)
        (tree_at work.now.pool.trees (Some game.root))) }
    ensures arrays { IfOk result (λ found. IfSome found (λ a.
        arrays_of a ≡ OfGame (sites_of (tree_at work.now.pool.trees (Some game.root))))) }
    ensures entries { IfOk result (λ found. IfSome found (λ a. IfSome (directory_in a) (λ d.
        entries_in work.now.pool.trees d ≡ entries_of (large_in work.now.decls.list)
        (tree_at work.now.pool.trees (Some game.root))))) }
{
    if !is_phrase(&work.pool, Phrase::Inputs, Some(game.root)) {
        return Ok(None);
    }
    let made = Directory::of(alloc, &work.pool, &work.decls, game.root)?;
    let Some(typed) = is_typed_game(alloc, work, game.root, made)? else {
        return Ok(None);
    };
    let Some(scoped) = is_scoped(alloc, work, game, typed)? else {
        return Ok(None);
    };
    is_closed(alloc, work, game, scoped)
}
