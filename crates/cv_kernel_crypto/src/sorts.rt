ghost use Rattle.std.specs.Prelude.{◌≡◌, ◌<◌, List, length};
ghost use Rattle.cv_pool.specs.KindTree.{KindTree};
ghost use Rattle.cv_pool.specs.Nodes.{ChildBelow};
ghost use Rattle.cv_syntax.specs.Declarations.{declarations};
ghost use Rattle.cv_syntax.specs.PoolTrees.{tree_at};
ghost use Rattle.cv_scene_view.specs.Kept.{is_type_class};
ghost use Rattle.cv_steps_laws.specs.crypto.Sorts as sorts;
ghost use Rattle.cv_kernel_crypto.specs.Roles.{binds_one, is_of, is_parameter_class};

use cv_syntax::children::second_of;
use cv_syntax::{Class, Decls, Head, NameId, NodeId, Opened, Pool, read_node};

/// What a name in a game is to be declared as.
#[derive(Clone, Copy)]
enum Role {
    OfType,
    OfParameter,
}

/// Whether names of a class are types.
fn is_type_name(class: Class) -> bool
    ensures { result ≡ is_type_class class }
{
    matches!(class, Class::TypeName { .. })
}

/// Whether names of a class are parameters.
fn is_parameter_name(class: Class) -> bool
    ensures { result ≡ is_parameter_class class }
{
    matches!(class, Class::Param)
}

/// Whether a name is declared as one of a role; `bool` is the type 0.
fn is_declared(decls: &Decls, role: Role, x: u32) -> bool
    ensures { (trees : List KindTree) → result ≡ is_of (declarations trees decls.now.list) role x }
{
    let class = decls.class(NameId(x));
    match role {
        Role::OfType => x == 0 || is_type_name(class),
        Role::OfParameter => is_parameter_name(class),
    }
}

/// Whether what a binder names is declared as one of a role.
fn is_binder_of(decls: &Decls, role: Role, head: Head) -> bool
    ensures { (trees : List KindTree) →
        result ≡ binds_one (is_of (declarations trees decls.now.list) role) head }
{
    match head {
        Head::Binder(_, x) => is_declared(decls, role, x),
        _ => true,
    }
}

/// Whether what the binders of a list name is declared as one of a role.
fn are_declared(pool: &Pool, decls: &Decls, role: Role, binders: Option<NodeId>) -> bool
    requires { ChildBelow (length pool.now.trees) binders }
    ensures { result ≡ sorts.are_declared (is_of (declarations pool.now.trees decls.now.list) role)
        (tree_at pool.now.trees binders) }
{
    let mut at = binders;
    'binders: while let Some(n) = at {
        let node = read_node(pool, n);
        if !is_binder_of(decls, role, node.head) {
            return false;
        }
        at = node.second;
    }
    true
}

/// Whether the types and parameters that a node names are declared.
fn names_declared(pool: &Pool, decls: &Decls, node: Opened) -> bool
    requires { ChildBelow (length pool.now.trees) node.first }
    ensures { result ≡ sorts.names_declared (declarations pool.now.trees decls.now.list) node.head
        (tree_at pool.now.trees node.first) }
{
    match node.head {
        Head::Repl(_, n) => is_declared(decls, Role::OfParameter, n),
        Head::New(_, t) => is_declared(decls, Role::OfType, t),
        Head::Let(_, t) => is_declared(decls, Role::OfType, t),
        Head::In(_) => are_declared(pool, decls, Role::OfType, second_of(pool, node.first)),
        Head::Branch => are_declared(pool, decls, Role::OfParameter, node.first),
        _ => true,
    }
}

/// Whether the types and parameters that a tree names are declared.
pub(crate) fn has_declared_sorts(pool: &Pool, decls: &Decls, tree: Option<NodeId>) -> bool
    requires { ChildBelow (length pool.now.trees) tree }
    ensures { result ≡ sorts.has_declared_sorts (declarations pool.now.trees decls.now.list)
        (tree_at pool.now.trees tree) }
{
    let mut at = tree;
    'tree: while let Some(n) = at {
        let node = read_node(pool, n);
        if !names_declared(pool, decls, node) {
            return false;
        }
        if !has_declared_sorts(pool, decls, node.first) {
            return false;
        }
        at = node.second;
    }
    true
}
