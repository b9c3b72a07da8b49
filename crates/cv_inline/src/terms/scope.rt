ghost use Rattle.std.specs.Prelude.{◌≡◌, length, option_map};
ghost use Rattle.cv_pool.specs.Nodes.{ChildBelow};
ghost use Rattle.cv_syntax_trees.specs.Tree.{Tree};
ghost use Rattle.cv_syntax.specs.PoolTrees.{tree_at};
ghost use Rattle.cv_meaning.specs.contexts.Inlined as bodies;
ghost use Rattle.cv_inline.specs.terms.Scopes.{called_by, scope_in, standing_in};

use cv_syntax::{Head, NodeId, Pool, read_node};

/// What a name of a right body stands for: the key, a variable of this call, or, for the index of a find, a call of a site
/// at indices.
#[derive(Drop)]
pub enum Standing {
    TheKey,
    Own,
    CallOf { site: u32, indices: Vec<u32> },
}

/// A name with what it stands for.
#[derive(Drop)]
pub struct Entry {
    pub name: u32,
    pub standing: Standing,
}

/// A call of a site at indices of a find.
#[derive(Clone, Copy)]
pub struct Called<'a> {
    pub site: u32,
    pub indices: &'a [u32],
}

/// What a name stands for, if it is in a scope. The newest name is the last.
pub fn standing_of(scope: &[Entry], x: u32) -> Option<&Standing>
    ensures { (here : Tree) → option_map (λ s. standing_in here s.now) result
        ≡ bodies.standing_of (scope_in here scope.now) x }
{
    let mut left = scope.len();
    'newest: while left > 0 {
        left -= 1;
        if scope[left].name == x {
            return Some(&scope[left].standing);
        }
    }
    None
}

/// The call for which a term stands, if it is the index of a find.
pub fn call_in<'a>(pool: &Pool, scope: &'a [Entry], term: Option<NodeId>) -> Option<Called<'a>>
    requires { ChildBelow (length pool.now.trees) term }
    ensures { (here : Tree) → called_by here result
        ≡ bodies.call_in (scope_in here scope.now) (tree_at pool.now.trees term) }
{
    let node = read_node(pool, term?);
    let Head::Leaf(u) = node.head else {
        return None;
    };
    match standing_of(scope, u)? {
        Standing::CallOf { site, indices } => Some(Called {
            site: *site,
            indices: indices.as_slice(),
        }),
        _ => None,
    }
}
