ghost use Rattle.std.specs.Prelude.{◌≡◌, ◌-◌, ◌<◌, ◌≤◌, ◌∷◌, ℕ, [], IfSome, drop, length};
ghost use Rattle.cv_pool.specs.Nodes.{ChildBelow};
ghost use Rattle.cv_syntax_trees.specs.Tree.{Tree};
ghost use Rattle.cv_syntax.specs.PoolTrees.{tree_at};
ghost use Rattle.cv_scene.specs.lines.Ends.{is_end};
ghost use Rattle.cv_scene.specs.lines.Lines.{Holds, lines_of, statements};
ghost use Rattle.cv_query_entries.specs.terms.Parts.{found_tree};
ghost use Rattle.cv_query_entries.specs.ends.Said.{is_that};

use crate::terms::Found;
use cv_derive_lines::{Claim, claim_of, line_of};
use cv_syntax::{NodeId, Pool, read_node};

/// The last lines, as many as there are before the rest.
pub(crate) fn last_lines(pool: &Pool, lines: Option<NodeId>, rest: Option<NodeId>) -> Option<NodeId>
    requires lines { ChildBelow (length pool.now.trees) lines }
    requires rest { ChildBelow (length pool.now.trees) rest }
    ensures lines { (k : ℕ) → statements (lines_of (tree_at pool.now.trees rest))
        ≡ drop k (statements (lines_of (tree_at pool.now.trees lines)))
        → k ≤ length (statements (lines_of (tree_at pool.now.trees lines)))
        → statements (lines_of (tree_at pool.now.trees result))
        ≡ drop (length (statements (lines_of (tree_at pool.now.trees lines))) - k)
        (statements (lines_of (tree_at pool.now.trees lines))) }
    ensures live { ChildBelow (length pool.now.trees) result }
{
    let mut start = lines;
    let mut ahead = rest;
    'lines: while let Some(a) = ahead {
        let there = read_node(pool, a);
        let Some(s) = start else {
            return None;
        };
        let here = read_node(pool, s);
        start = here.second;
        ahead = there.second;
    }
    start
}

/// The term of the last line, if that line says that a term is true.
pub(crate) fn last_term(pool: &Pool, lines: Option<NodeId>) -> Option<Found>
    requires { ChildBelow (length pool.now.trees) lines }
    ensures term { (t : Tree) → is_that (found_tree pool.now.trees result) t
        ≡ is_end (statements (lines_of (tree_at pool.now.trees lines))) (Holds t ∷ []) }
    ensures live { IfSome result (λ f. ChildBelow (length pool.now.trees) f.term) }
{
    let Some(n) = lines else {
        return None;
    };
    let first = read_node(pool, n);
    let Some(k) = last_lines(pool, lines, first.second) else {
        return None;
    };
    let last = read_node(pool, k);
    match claim_of(line_of(pool, last.first)) {
        Claim::Holds(term) => Some(Found { term }),
        Claim::IsDefined(_) => None,
    }
}
