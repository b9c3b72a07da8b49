ghost use Rattle.std.specs.Prelude.{◌≡◌};
ghost use Rattle.cv_scope.specs.heads.Heads.{variable_of as variable_by};

use cv_syntax::Head;

/// The variable that a node with this head defines by itself.
pub fn variable_of(head: Head) -> Option<u32>
    ensures { result ≡ variable_by head }
{
    match head {
        Head::New(x, _) => Some(x),
        Head::Let(x, _) => Some(x),
        Head::Key(x) => Some(x),
        Head::Call(x, _) => Some(x),
        _ => None,
    }
}
