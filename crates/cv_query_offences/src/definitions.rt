ghost use Rattle.std.specs.Prelude.{◌≡◌, ◌+◌, ◌<◌, ◌^◌, ◌&&◌, IfErr, IfOk, None, OnOk, Some, length, not};
ghost use Rattle.cv_pool.specs.Nodes.{ChildBelow};
ghost use Rattle.cv_syntax_trees.specs.Tree.{Tree, size};
ghost use Rattle.cv_syntax.specs.PoolTrees.{tree_at};
ghost use Rattle.cv_scope_rules.specs.Made.{made_by};
ghost use Rattle.cv_scope_rules.specs.Sites.{Variable};
ghost use Rattle.cv_query_certificates.specs.Secrets as secrets;
ghost use Rattle.cv_query_offences.specs.Passing as passing;

use cv_path::is_definition;
use cv_syntax::{Head, NodeId, Opened, Pool, read_node};

/// Which definitions of a variable are passed over.
#[derive(Clone, Copy)]
pub enum Passing {
    Nothing,
    /// Each `new`.
    Choices,
    /// Each `new` of a type.
    ChoicesOf(u32),
}

/// Whether a definition is passed over.
fn is_passed(over: Passing, head: Head) -> bool
    ensures { (a : Tree) → result ≡ passing.is_passed over head a }
{
    match over {
        Passing::Nothing => false,
        Passing::Choices => matches!(head, Head::New(_, _)),
        Passing::ChoicesOf(t) => match head {
            Head::New(_, u) => u == t,
            _ => false,
        },
    }
}

/// Whether a node defines a variable and isn't passed over.
fn is_other(pool: &Pool, over: Passing, x: u32, node: Opened) -> bool
    requires { ChildBelow (length pool.now.trees) node.first }
    ensures { result ≡ (made_by node.head (tree_at pool.now.trees node.first) (Variable x)
        && not (passing.is_passed over node.head (tree_at pool.now.trees node.first))) }
{
    is_definition(pool, node, x) && !is_passed(over, node.head)
}

/// The place behind a tree that stands at a place, where it has no other definition of a variable than those that are passed
/// over; or the place of the first other one.
fn definition_but(
    pool: &Pool,
    over: Passing,
    x: u32,
    from: u32,
    tree: Option<NodeId>,
) -> Result<u32, u32>
    requires live { ChildBelow (length pool.now.trees) tree }
    requires fits { from + size (tree_at pool.now.trees tree) < 2 ^ 32 }
    ensures none { OnOk result (secrets.first_definition_but (passing.is_passed over) x from
        (tree_at pool.now.trees tree) ≡ None) }
    ensures next { IfOk result (λ next. next ≡ from + size (tree_at pool.now.trees tree)) }
    ensures found { IfErr result (λ p. secrets.first_definition_but (passing.is_passed over) x from
        (tree_at pool.now.trees tree) ≡ Some p) }
{
    let mut place = from;
    let mut at = tree;
    'tree: while let Some(k) = at {
        let node = read_node(pool, k);
        if is_other(pool, over, x, node) {
            return Err(place);
        }
        match definition_but(pool, over, x, place + node.head.weight(), node.first) {
            Ok(next) => place = next,
            Err(found) => return Err(found),
        }
        at = node.second;
    }
    Ok(place)
}

/// The first place of a game where a variable is defined otherwise than it is passed over.
pub(crate) fn first_definition_but(pool: &Pool, game: NodeId, over: Passing, x: u32) -> Option<u32>
    requires live { game.0 < length pool.now.trees }
    requires fits { size (tree_at pool.now.trees (Some game)) < 2 ^ 32 }
    ensures { result ≡ secrets.first_definition_but (passing.is_passed over) x 0
        (tree_at pool.now.trees (Some game)) }
{
    match definition_but(pool, over, x, 0, Some(game)) {
        Ok(_) => None,
        Err(found) => Some(found),
    }
}
