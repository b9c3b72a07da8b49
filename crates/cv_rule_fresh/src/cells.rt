ghost use Rattle.std.specs.Prelude.{◌≡◌, ◌<◌, length};
ghost use Rattle.cv_pool.specs.Nodes.{ChildBelow};
ghost use Rattle.cv_syntax_trees.specs.Tree.{same_tree};
ghost use Rattle.cv_syntax.specs.PoolTrees.{tree_at};
ghost use Rattle.cv_scope_rules.specs.Context.{cell_of};

use cv_derive_reasons::cells::{front, is_cell_under};
use cv_syntax::{NodeId, Pool};

/// Whether a term is the cell of a variable below replications.
pub(crate) fn is_cell(
    pool: &Pool,
    term: Option<NodeId>,
    x: u32,
    replications: &[(u32, u32)],
) -> bool
    requires { ChildBelow (length pool.now.trees) term }
    ensures { result ≡ same_tree (tree_at pool.now.trees term) (cell_of replications.now x) }
{
    let none = front(replications, 0);
    is_cell_under(pool, term, x, replications, none, None)
}
