ghost use Rattle.std.specs.Prelude.{◌≡◌};
ghost use Rattle.cv_scene.specs.Scenes as scenes;
ghost use Rattle.cv_steps.specs.Renaming as renaming;

use cv_syntax::Head;

/// Whether a node has a name as that of a variable or of an index.
pub(crate) fn head_names(x: u32, head: Head) -> bool
    ensures { result ≡ scenes.head_names x head }
{
    match head {
        Head::Repl(i, _) => i == x,
        Head::Name(i) => i == x,
        Head::New(z, _) => z == x,
        Head::Let(z, _) => z == x,
        Head::Binder(z, _) => z == x,
        Head::Leaf(z) => z == x,
        Head::Read(z) => z == x,
        Head::Key(z) => z == x,
        Head::Call(z, _) => z == x,
        _ => false,
    }
}

/// A name, and another one in the place of a variable's.
fn renamed_name(x: u32, y: u32, z: u32) -> u32
    ensures { result ≡ renaming.renamed_name x y z }
{
    if z == x { y } else { z }
}

/// A node, with another name in the place of a variable's.
pub(crate) fn renamed_head(x: u32, y: u32, head: Head) -> Head
    ensures { result ≡ renaming.renamed_head x y head }
{
    match head {
        Head::Repl(i, n) => Head::Repl(renamed_name(x, y, i), n),
        Head::Name(i) => Head::Name(renamed_name(x, y, i)),
        Head::New(z, t) => Head::New(renamed_name(x, y, z), t),
        Head::Let(z, t) => Head::Let(renamed_name(x, y, z), t),
        Head::Binder(z, t) => Head::Binder(renamed_name(x, y, z), t),
        Head::Leaf(z) => Head::Leaf(renamed_name(x, y, z)),
        Head::Read(z) => Head::Read(renamed_name(x, y, z)),
        Head::Key(z) => Head::Key(renamed_name(x, y, z)),
        Head::Call(z, l) => Head::Call(renamed_name(x, y, z), l),
        other => other,
    }
}
