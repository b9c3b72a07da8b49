ghost use Rattle.std.specs.Prelude.{◌≡◌, ◌<◌, IfSome, length, option_map};
ghost use Rattle.cv_pool.specs.Nodes.{ChildBelow};
ghost use Rattle.cv_syntax_trees.specs.declared.head.Head.TheVariants.{Eq, Leaf};
ghost use Rattle.cv_syntax_trees.specs.Tree.{Node, lone, same_tree};
ghost use Rattle.cv_syntax.specs.PoolTrees.{tree_at};
ghost use Rattle.cv_scope_rules.specs.Context.{items};
ghost use Rattle.cv_scene.specs.Late as late;
ghost use Rattle.cv_scene.specs.lines.Inferences as inferences;
ghost use Rattle.cv_derive_lines.specs.citing.Bookmarks.{CanCite, visible_to};
ghost use Rattle.cv_derive.specs.Current.{left_behind};

use cv_derive_lines::citing::{Citing, cited_term};
use cv_derive_reasons::inferences::{is_alone, sides};
use cv_syntax::children::is_empty;
use cv_syntax::{Head, NodeId, Pool, read_node, same};

/// Whether the line that is cited says that a term is equal to an index.
#[tactic(auto, using(cv_derive_reasons::proofs::inferences::Forms::opened))]
fn is_index_by(
    pool: &Pool,
    citing: &Citing,
    line: Option<NodeId>,
    term: Option<NodeId>,
    index: u32,
) -> bool
    requires citing { CanCite pool.now.trees citing.now }
    requires line { ChildBelow (length pool.now.trees) line }
    requires term { ChildBelow (length pool.now.trees) term }
    ensures { result ≡ same_tree (inferences.cited_term (visible_to pool.now.trees citing.now)
        (tree_at pool.now.trees line)) (Node Eq (tree_at pool.now.trees term) (lone (Leaf index))) }
{
    let claim = cited_term(pool, citing, line);
    let Some((left, right)) = sides(pool, Head::Eq, claim) else {
        return false;
    };
    same(pool, left, term) && is_alone(pool, Head::Leaf(index), right)
}

/// The lines that are left behind a term that is an index, or of which the next line says that it is equal to it.
fn lines_behind(
    pool: &Pool,
    citing: &Citing,
    index: u32,
    term: Option<NodeId>,
    lines: Option<NodeId>,
) -> Option<Option<NodeId>>
    requires citing { CanCite pool.now.trees citing.now }
    requires term { ChildBelow (length pool.now.trees) term }
    requires lines { ChildBelow (length pool.now.trees) lines }
    ensures left { option_map (λ l. items (tree_at pool.now.trees l)) result
        ≡ left_behind (visible_to pool.now.trees citing.now) index (tree_at pool.now.trees term)
        (items (tree_at pool.now.trees lines)) }
    ensures live { IfSome result (λ l. ChildBelow (length pool.now.trees) l) }
{
    if is_alone(pool, Head::Leaf(index), term) {
        return Some(lines);
    }
    let Some(n) = lines else {
        return None;
    };
    let line = read_node(pool, n);
    if !is_index_by(pool, citing, line.first, term, index) {
        return None;
    }
    Some(line.second)
}

/// Whether terms are the outermost indices of replications, in order, where cited lines say of some that they are equal.
pub(crate) fn are_current(
    pool: &Pool,
    citing: &Citing,
    replications: &[(u32, u32)],
    terms: Option<NodeId>,
    lines: Option<NodeId>,
) -> bool
    requires citing { CanCite pool.now.trees citing.now }
    requires terms { ChildBelow (length pool.now.trees) terms }
    requires lines { ChildBelow (length pool.now.trees) lines }
    ensures { result ≡ late.are_current (visible_to pool.now.trees citing.now) replications.now
        (items (tree_at pool.now.trees terms)) (items (tree_at pool.now.trees lines)) }
{
    let mut count = 0;
    let mut at = terms;
    let mut cited = lines;
    'terms: while let Some(n) = at {
        let node = read_node(pool, n);
        let Some(replication) = replications.get(count) else {
            return false;
        };
        let Some(behind) = lines_behind(pool, citing, replication.0, node.first, cited) else {
            return false;
        };
        count += 1;
        at = node.second;
        cited = behind;
    }
    is_empty(pool, cited)
}
