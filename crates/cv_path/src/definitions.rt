ghost use Rattle.std.specs.Prelude.{◌≡◌, length};
ghost use Rattle.cv_pool.specs.Nodes.{ChildBelow};
ghost use Rattle.cv_syntax.specs.PoolTrees.{tree_at};
ghost use Rattle.cv_scope_rules.specs.Sites.{Variable};
ghost use Rattle.cv_scope_rules.specs.Made.{is_bound, made_by};

use cv_syntax::children::second_of;
use cv_syntax::{Head, NodeId, Opened, Pool, read_node};

/// Whether a list of binders binds a variable.
#[tactic(auto, using(crate::proofs::Binders::binders))]
pub fn is_bound(pool: &Pool, list: Option<NodeId>, x: u32) -> bool
    requires { ChildBelow (length pool.now.trees) list }
    ensures { result ≡ is_bound (tree_at pool.now.trees list) x }
{
    let mut at = list;
    'binders: while let Some(n) = at {
        let node = read_node(pool, n);
        let Head::Binder(y, _) = node.head else {
            return false;
        };
        if x == y {
            return true;
        }
        at = node.second;
    }
    false
}

/// Whether a construct defines a variable.
pub fn is_definition(pool: &Pool, node: Opened, x: u32) -> bool
    requires { ChildBelow (length pool.now.trees) node.first }
    ensures { result ≡ made_by node.head (tree_at pool.now.trees node.first) (Variable x) }
{
    match node.head {
        Head::New(y, _) => x == y,
        Head::Let(y, _) => x == y,
        Head::Key(y) => x == y,
        Head::Call(y, _) => x == y,
        Head::In(_) => is_bound(pool, second_of(pool, node.first), x),
        Head::Branch => is_bound(pool, node.first, x),
        _ => false,
    }
}
