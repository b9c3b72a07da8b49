ghost use Rattle.std.specs.Prelude.{◌≡◌, ◌<◌, ◌||◌, All, Some, length};
ghost use Rattle.cv_pool.specs.Nodes.{ChildBelow};
ghost use Rattle.cv_syntax.specs.Declarations.{declarations};
ghost use Rattle.cv_syntax.specs.PoolTrees.{tree_at};
ghost use Rattle.cv_directory.specs.Live.{IsLive};
ghost use Rattle.cv_scene.specs.Scenes as scenes;
ghost use Rattle.cv_scene_view.specs.Kept.{is_type_class, scene_of};

use cv_syntax::{Class, Head, NameId, NodeId, Pool, Work, query_at, read_node};

/// Whether a node has a name as that of a variable or of an index.
fn head_names(x: u32, head: Head) -> bool
    ensures { result ≡ scenes.head_names x head }
{
    match head {
        Head::Repl(y, _) => y == x,
        Head::Name(y) => y == x,
        Head::New(y, _) => y == x,
        Head::Let(y, _) => y == x,
        Head::Binder(y, _) => y == x,
        Head::Leaf(y) => y == x,
        Head::Read(y) => y == x,
        Head::Key(y) => y == x,
        Head::Call(y, _) => y == x,
        _ => false,
    }
}

/// Whether a node of a tree has a name as that of a variable or of an index.
pub fn names(pool: &Pool, x: u32, tree: Option<NodeId>) -> bool
    requires { ChildBelow (length pool.now.trees) tree }
    ensures { result ≡ scenes.names x (tree_at pool.now.trees tree) }
{
    let mut at = tree;
    'tree: while let Some(k) = at {
        let node = read_node(pool, k);
        if head_names(x, node.head) {
            return true;
        }
        if names(pool, x, node.first) {
            return true;
        }
        at = node.second;
    }
    false
}

/// Whether the file or the game has a name.
pub fn is_known(work: &Work, game: NodeId, x: u32) -> bool
    requires { game.0 < length work.now.pool.trees }
    ensures { result ≡ ((scene_of work.now.pool work.now.decls game).known x
        || scenes.names x (tree_at work.now.pool.trees (Some game))) }
{
    x < work.decls.own() || names(&work.pool, x, Some(game))
}

/// Whether neither the file nor the game has a name.
pub fn is_new(work: &Work, game: NodeId, x: u32) -> bool
    requires { game.0 < length work.now.pool.trees }
    ensures { result ≡ scenes.is_new (scene_of work.now.pool work.now.decls game) x }
{
    work.decls.own() <= x && !names(&work.pool, x, Some(game))
}

/// Whether names of a class are types.
fn is_type_name(class: Class) -> bool
    ensures { result ≡ is_type_class class }
{
    match class {
        Class::TypeName { .. } => true,
        _ => false,
    }
}

/// Whether a name is declared as one of a type.
pub fn is_type(work: &Work, game: NodeId, t: u32) -> bool
    ensures { result ≡ scenes.is_type (scene_of work.now.pool work.now.decls game) t }
{
    is_type_name(work.decls.class(NameId(t)))
}

/// Whether a query asks for the secrecy of a variable.
fn asks_for(pool: &Pool, x: u32, query: NodeId) -> bool
    requires { query.0 < length pool.now.trees }
    ensures { result ≡ scenes.asks_for x (tree_at pool.now.trees (Some query)) }
{
    match read_node(pool, query).head {
        Head::Secret(y) => y == x,
        Head::SecretOnce(y) => y == x,
        _ => false,
    }
}

/// Whether a query of the file asks for the secrecy of a variable.
pub fn is_queried(work: &Work, game: NodeId, x: u32) -> bool
    requires { All (IsLive (length work.now.pool.trees)) work.now.decls.list }
    ensures { result ≡ scenes.is_queried (scene_of work.now.pool work.now.decls game) x }
{
    'decls: for k in 0..work.decls.len() {
        let Some(query) = query_at(&work.decls, k) else {
            continue;
        };
        if asks_for(&work.pool, x, query) {
            return true;
        }
    }
    false
}
