ghost use Rattle.std.specs.Prelude.{◌≡◌, ◌<◌, length, IfSome};
ghost use Rattle.cv_pool.specs.Nodes.{ChildBelow};
ghost use Rattle.cv_syntax.specs.Classes.{declaration_in};
ghost use Rattle.cv_syntax.specs.PoolTrees.{tree_at};
ghost use Rattle.cv_typing.specs.Lookups.{callee_in, event_args_in, fixed_decl};
ghost use Rattle.cv_syntax_trees.specs.sites.Counting as counting;
ghost use Rattle.cv_scope_rules.specs.typing.Signature.{names_in};

use cv_syntax::{Class, Decl, Decls, Head, NameId, NodeId, Pool, read_node};

/// A function: the list of the types of its arguments, and the type of its result.
#[derive(Clone, Copy, Debug)]
pub struct Callee {
    pub arguments: Option<NodeId>,
    pub result: u32,
}

/// The function of a name.
pub fn find_function(decls: &Decls, f: u32) -> Option<Callee>
    ensures { result ≡ callee_in decls.now.list f }
{
    match decls.find(NameId(f)) {
        Some(
            Decl::Name {
                class: Class::Fun { .. },
                args,
                result: Some(t),
                ..
            },
        ) => Some(Callee {
            arguments: *args,
            result: t.0,
        }),
        _ => None,
    }
}

/// The list of the types of an event's arguments.
pub fn event_arguments(decls: &Decls, e: u32) -> Option<NodeId>
    ensures { result ≡ event_args_in decls.now.list e }
{
    match decls.find(NameId(e)) {
        Some(
            Decl::Name {
                class: Class::Event,
                args,
                ..
            },
        ) => *args,
        _ => None,
    }
}

/// Whether `new` may choose of a type.
pub fn is_fixed(decls: &Decls, t: u32) -> bool
    ensures { result ≡ fixed_decl (declaration_in decls.now.list t) }
{
    match decls.class(NameId(t)) {
        Class::TypeName { fixed, .. } => fixed,
        _ => false,
    }
}

/// How many items a list has.
pub fn count(pool: &Pool, list: Option<NodeId>) -> usize
    requires { ChildBelow (length pool.now.trees) list }
    ensures { result ≡ counting.count (tree_at pool.now.trees list) }
{
    let mut n = 0;
    let mut at = list;
    'list: while let Some(k) = at {
        n += 1;
        at = read_node(pool, k).second;
    }
    n
}

/// How many names a list of names has.
pub fn count_names(pool: &Pool, list: Option<NodeId>) -> usize
    requires { ChildBelow (length pool.now.trees) list }
    ensures { result ≡ length (names_in (tree_at pool.now.trees list)) }
{
    let mut n = 0;
    let mut at = list;
    'list: while let Some(k) = at {
        let cell = read_node(pool, k);
        let Head::Name(_) = cell.head else {
            return n;
        };
        n += 1;
        at = cell.second;
    }
    n
}
