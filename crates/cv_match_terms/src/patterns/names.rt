ghost use Rattle.std.specs.Prelude.{◌≡◌, length};
ghost use Rattle.cv_pool.specs.Nodes.{ChildBelow};
ghost use Rattle.cv_syntax_trees.specs.Tree.{first, second};
ghost use Rattle.cv_syntax.specs.PoolTrees.{tree_at};
ghost use Rattle.cv_meaning.specs.Correspondences.{typed_names};
ghost use Rattle.cv_meaning.specs.contexts.Groups.{function_of, group_of};
ghost use Rattle.cv_scene.specs.Refusals.{is_among};
ghost use Rattle.cv_match_terms.specs.patterns.Searches.{is_name};
ghost use Rattle.cv_scene.specs.Sights as sights;

use cv_path::is_bound;
use cv_syntax::children::{first_of, second_of};
use cv_syntax::{Head, NodeId, Pool, read_node};

/// The name of a side's key and its type.
#[tactic(auto, using(crate::proofs::patterns::Listed::listed))]
pub fn key_of(pool: &Pool, side: Option<NodeId>) -> (u32, u32)
    requires { ChildBelow (length pool.now.trees) side }
    ensures { result ≡ (group_of (tree_at pool.now.trees side)).key }
{
    let Some(n) = first_of(pool, side) else {
        return (0, 0);
    };
    match read_node(pool, n).head {
        Head::Binder(x, t) => (x, t),
        _ => (0, 0),
    }
}

/// The binders of a function's coins.
pub fn coins_of(pool: &Pool, f: Option<NodeId>) -> Option<NodeId>
    requires { ChildBelow (length pool.now.trees) f }
    ensures tree { tree_at pool.now.trees result ≡ first (first (tree_at pool.now.trees f)) }
    ensures live { ChildBelow (length pool.now.trees) result }
{
    first_of(pool, first_of(pool, f))
}

/// The binders of a function's arguments.
pub fn arguments_of(pool: &Pool, f: Option<NodeId>) -> Option<NodeId>
    requires { ChildBelow (length pool.now.trees) f }
    ensures tree { tree_at pool.now.trees result ≡ second (first (tree_at pool.now.trees f)) }
    ensures live { ChildBelow (length pool.now.trees) result }
{
    second_of(pool, first_of(pool, f))
}

/// The body of a function.
pub fn body_of(pool: &Pool, f: Option<NodeId>) -> Option<NodeId>
    requires { ChildBelow (length pool.now.trees) f }
    ensures tree { tree_at pool.now.trees result
        ≡ (function_of (tree_at pool.now.trees f)).body }
    ensures live { ChildBelow (length pool.now.trees) result }
{
    second_of(pool, f)
}

/// Whether a list of binders has a name.
#[tactic(auto, using(crate::proofs::patterns::Listed::listed))]
fn is_listed(pool: &Pool, list: Option<NodeId>, x: u32) -> bool
    requires { ChildBelow (length pool.now.trees) list }
    ensures { result ≡ is_among (typed_names (tree_at pool.now.trees list)) x }
{
    is_bound(pool, list, x)
}

/// Whether a name is that of an argument of a function.
#[tactic(auto, using(crate::proofs::patterns::Listed::listed))]
pub fn is_argument_name(pool: &Pool, f: Option<NodeId>, x: u32) -> bool
    requires { ChildBelow (length pool.now.trees) f }
    ensures { result ≡ is_among (function_of (tree_at pool.now.trees f)).arguments x }
{
    is_listed(pool, arguments_of(pool, f), x)
}

/// Whether a name is that of a side's key, or of a coin or an argument of a function.
#[tactic(auto, using(crate::proofs::patterns::Listed::listed))]
pub fn is_name(pool: &Pool, side: Option<NodeId>, f: Option<NodeId>, x: u32) -> bool
    requires side { ChildBelow (length pool.now.trees) side }
    requires function { ChildBelow (length pool.now.trees) f }
    ensures { result ≡ is_name (group_of (tree_at pool.now.trees side))
        (function_of (tree_at pool.now.trees f)) x }
{
    key_of(pool, side).0 == x
        || (is_listed(pool, coins_of(pool, f), x) || is_argument_name(pool, f, x))
}

/// The variable that a term reads, if it is such a read.
#[tactic(auto, using(crate::proofs::patterns::Listed::listed))]
pub fn variable_of(pool: &Pool, term: Option<NodeId>) -> Option<u32>
    requires { ChildBelow (length pool.now.trees) term }
    ensures { result ≡ sights.variable_of (tree_at pool.now.trees term) }
{
    match read_node(pool, term?).head {
        Head::Leaf(x) => Some(x),
        Head::Read(x) => Some(x),
        _ => None,
    }
}
