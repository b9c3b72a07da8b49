ghost use Rattle.std.specs.Prelude.{◌≡◌};
ghost use Rattle.cv_syntax.specs.PoolTrees.{head_of_kind, kind_of_head};

use cv_pool::Kind;
use cv_syntax_trees::{Code, Head};

/// The kind that a pool keeps of a node with this head.
pub fn kind_of(head: Head) -> Kind
    ensures { result ≡ kind_of_head head }
{
    let Code { tag, a, b } = head.code();
    Kind { tag, a, b }
}

/// The head of a node of this kind. A kind of no head counts as a call.
pub fn head_of(kind: Kind) -> Head
    ensures { result ≡ head_of_kind kind }
{
    let Kind { tag, a, b } = kind;
    Head::of(Code { tag, a, b })
}
