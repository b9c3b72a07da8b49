ghost use Rattle.std.specs.Prelude.{◌≡◌};
ghost use Rattle.cv_syntax_trees.specs.Tree.{Node, Tree};
ghost use Rattle.cv_directory.specs.Definitions.{is_other, large_in};
ghost use Rattle.cv_syntax_trees.specs.sites.Sites.{binder_sort};

use cv_syntax::{Class, Decls, Head, NameId};
use cv_syntax_trees::sites::Sort;

/// The sort that a binder gives: that of an index, or of a value of a type.
pub fn sort_of_binder(is_index: bool, name: u32) -> Sort
    ensures { result ≡ binder_sort is_index name }
{
    if is_index {
        Sort::BelowParameter(name)
    } else {
        Sort::OfType(name)
    }
}

/// Whether a type is declared as large.
fn is_large(decls: &Decls, t: u32) -> bool
    ensures { result ≡ large_in decls.now.list t }
{
    match decls.class(NameId(t)) {
        Class::TypeName { large, .. } => large,
        _ => false,
    }
}

/// Whether a node is no `new` of a large type.
pub fn is_other_node(decls: &Decls, head: Head) -> bool
    ensures { (a b : Tree) → result ≡ is_other (large_in decls.now.list) (Node head a b) }
{
    match head {
        Head::New(_, t) => !is_large(decls, t),
        _ => true,
    }
}
