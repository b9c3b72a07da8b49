ghost use Rattle.std.specs.Prelude.{◌≡◌, ℕ, true};
ghost use Rattle.cv_scene.specs.Scenes as scenes;
ghost use Rattle.cv_steps.specs.Renaming as renaming;
ghost use Rattle.cv_edit_names.specs.Cells as cells;
ghost use Rattle.cv_edit_names.specs.Kept.{naming_in};
ghost use Rattle.cv_edit_names.specs.Naming as specs;
ghost use Rattle.cv_edit_names.specs.Parts as parts;

use crate::naming::{Naming, name_at};
use cv_syntax::Head;

/// Whether a node has a name as that of a variable or of an index.
fn head_names(x: u32, head: Head) -> bool
    ensures { result ≡ scenes.head_names x head }
{
    match head {
        Head::Repl(i, _) => i == x,
        Head::Name(i) => i == x,
        Head::New(z, _) => z == x,
        Head::Let(z, _) => z == x,
        Head::Binder(z, _) => z == x,
        Head::Leaf(z) => z == x,
        Head::Read(z) => z == x,
        Head::Key(z) => z == x,
        Head::Call(z, _) => z == x,
        _ => false,
    }
}

/// A node with a name as that of a variable or of an index, where it has one.
fn with_name(y: u32, head: Head) -> Head
    ensures { (x : ℕ) → scenes.head_names x head ≡ true →
        result ≡ renaming.renamed_head x y head }
{
    match head {
        Head::Repl(_, n) => Head::Repl(y, n),
        Head::Name(_) => Head::Name(y),
        Head::New(_, t) => Head::New(y, t),
        Head::Let(_, t) => Head::Let(y, t),
        Head::Binder(_, t) => Head::Binder(y, t),
        Head::Leaf(_) => Head::Leaf(y),
        Head::Read(_) => Head::Read(y),
        Head::Key(_) => Head::Key(y),
        Head::Call(_, l) => Head::Call(y, l),
        other => other,
    }
}

/// A node of the definition at a place, with its name in place of the variable's.
pub(crate) fn named_head(naming: &Naming, place: u32, head: Head) -> Head
    ensures { result ≡ renaming.renamed_head naming.now.variable
        (specs.name_at (naming_in naming.now) place) head }
{
    if head_names(naming.variable, head) {
        return with_name(name_at(naming, place), head);
    }
    head
}

/// The head of a process that stands at a place.
pub(crate) fn split_head(naming: &Naming, place: u32, head: Head) -> Head
    ensures { result ≡ parts.split_head (naming_in naming.now) place head }
{
    match head {
        Head::Repl(i, n) => Head::Repl(i, n),
        _ => named_head(naming, place, head),
    }
}

/// A read of the variable, with the name that it has, if any.
pub(crate) fn called_head(head: Head, name: Option<u32>) -> Head
    ensures { result ≡ cells.called_head head name }
{
    let Some(y) = name else {
        return head;
    };
    match head {
        Head::Leaf(_) => Head::Leaf(y),
        Head::Read(_) => Head::Read(y),
        other => other,
    }
}
