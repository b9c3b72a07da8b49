ghost use Rattle.std.specs.Prelude.{◌≡◌, ◌+◌, ◌<◌, ◌∷◌, OnOk, length};
ghost use Rattle.cv_pool.specs.Nodes.{ChildBelow};
ghost use Rattle.cv_syntax.specs.PoolTrees.{tree_at};
ghost use Rattle.cv_scope_rules.specs.Context.{cells_of};
ghost use Rattle.cv_edit_places.specs.Parts.{AreLive, made_by, stack_of};
ghost use Rattle.cv_rule_pick.specs.Needs.{made_with};
ghost use Rattle.cv_rule_pick.specs.Picking.{with_terms};

use crate::cells::term_of;
use cv_edit_places::Parts;
use cv_syntax::{NodeId, Pool, read_node};
use std::alloc::{AllocError, Global};

/// Lists a tree with terms for the cells of the variables that binders bind.
pub(crate) fn add_with_terms(
    alloc: Global,
    pool: &Pool,
    parts: &mut Parts,
    binders: Option<NodeId>,
    replications: &[(u32, u32)],
    terms: Option<NodeId>,
    start: Option<NodeId>,
) -> Result<(), AllocError>
    requires binders { ChildBelow (length pool.now.trees) binders }
    requires terms { ChildBelow (length pool.now.trees) terms }
    requires start { ChildBelow (length pool.now.trees) start }
    ensures stack { OnOk result (stack_of pool.now.trees parts.new
        ≡ with_terms (cells_of replications.now (tree_at pool.now.trees binders))
        (tree_at pool.now.trees terms) (tree_at pool.now.trees start)
        ∷ stack_of pool.now.trees parts.old) }
    ensures made { OnOk result (made_by parts.new ≡ made_by parts.old
        + made_with (cells_of replications.now (tree_at pool.now.trees binders))
        (tree_at pool.now.trees terms) (tree_at pool.now.trees start)) }
    ensures live { OnOk result (AreLive (length pool.now.trees) parts.old
        → AreLive (length pool.now.trees) parts.new) }
{
    let mut heads = Vec::new(alloc);
    let mut at = start;
    'chain: while let Some(k) = at {
        let node = read_node(pool, k);
        if let Some(term) = term_of(pool, k, binders, replications, terms) {
            parts.there(term)?;
            return parts.close(heads);
        }
        add_with_terms(alloc, pool, parts, binders, replications, terms, node.first)?;
        heads.push(node.head)?;
        at = node.second;
    }
    parts.there(None)?;
    parts.close(heads)
}
