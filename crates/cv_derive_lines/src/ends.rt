ghost use Rattle.std.specs.Prelude.{◌≡◌, ◌<◌, ◌^◌, IfSome, drop, length, option_map};
ghost use Rattle.cv_pool.specs.Nodes.{ChildBelow};
ghost use Rattle.cv_syntax.specs.PoolTrees.{tree_at};
ghost use Rattle.cv_scene.specs.lines.Ends as ends;
ghost use Rattle.cv_scene.specs.lines.Lines.{Holds, lines_of, statements};
ghost use Rattle.cv_derive_lines.specs.Lasts.{last_of};
ghost use Rattle.cv_derive_lines.specs.Views.{IsClaimBelow, statement_of};

use crate::lines::{Claim, claim_of, line_of};
use cv_syntax::children::is_empty;
use cv_syntax::{NodeId, Pool, read_node, same};

/// Whether two lines say the same.
fn same_claim(pool: &Pool, left: Claim, right: Claim) -> bool
    requires left { IsClaimBelow (length pool.now.trees) left }
    requires right { IsClaimBelow (length pool.now.trees) right }
    ensures { result ≡ ends.same_statement (statement_of pool.now.trees left)
        (statement_of pool.now.trees right) }
{
    match left {
        Claim::Holds(t) => match right {
            Claim::Holds(u) => same(pool, t, u),
            Claim::IsDefined(_) => false,
        },
        Claim::IsDefined(c) => match right {
            Claim::Holds(_) => false,
            Claim::IsDefined(d) => same(pool, c, d),
        },
    }
}

/// How many lines stand outside blocks.
fn outer(pool: &Pool, lines: Option<NodeId>) -> u32
    requires live { ChildBelow (length pool.now.trees) lines }
    requires fits { length (statements (lines_of (tree_at pool.now.trees lines))) < 2 ^ 32 }
    ensures { result ≡ length (statements (lines_of (tree_at pool.now.trees lines))) }
{
    let mut total = 0;
    let mut at = lines;
    'lines: while let Some(k) = at {
        let node = read_node(pool, k);
        total += 1;
        at = node.second;
    }
    total
}

/// The lines behind so many outside blocks.
fn skip(pool: &Pool, lines: Option<NodeId>, k: u32) -> Option<NodeId>
    requires { ChildBelow (length pool.now.trees) lines }
    ensures lines { statements (lines_of (tree_at pool.now.trees result))
        ≡ drop k (statements (lines_of (tree_at pool.now.trees lines))) }
    ensures live { ChildBelow (length pool.now.trees) result }
{
    let mut left = k;
    let mut at = lines;
    'lines: while let Some(n) = at {
        if left == 0 {
            return at;
        }
        left -= 1;
        at = read_node(pool, n).second;
    }
    None
}

/// Whether the lines outside blocks say the same, one by one.
fn same_lines(pool: &Pool, lines: Option<NodeId>, targets: Option<NodeId>) -> bool
    requires lines { ChildBelow (length pool.now.trees) lines }
    requires targets { ChildBelow (length pool.now.trees) targets }
    ensures { result ≡ ends.same_statements (statements (lines_of (tree_at pool.now.trees lines)))
        (statements (lines_of (tree_at pool.now.trees targets))) }
{
    let mut at = lines;
    let mut behind = targets;
    'lines: while let Some(n) = at {
        let line = read_node(pool, n);
        let Some(k) = behind else {
            return false;
        };
        let target = read_node(pool, k);
        let left = claim_of(line_of(pool, line.first));
        let right = claim_of(line_of(pool, target.first));
        if !same_claim(pool, left, right) {
            return false;
        }
        at = line.second;
        behind = target.second;
    }
    is_empty(pool, behind)
}

/// Whether the last lines outside blocks are the targets, in order.
pub fn ends_with(pool: &Pool, by: Option<NodeId>, targets: Option<NodeId>) -> bool
    requires by { ChildBelow (length pool.now.trees) by }
    requires targets { ChildBelow (length pool.now.trees) targets }
    requires few { length (statements (lines_of (tree_at pool.now.trees by))) < 2 ^ 32 }
    requires few_targets { length (statements (lines_of (tree_at pool.now.trees targets)))
        < 2 ^ 32 }
    ensures { result ≡ ends.ends_with (tree_at pool.now.trees by)
        (tree_at pool.now.trees targets) }
{
    let lines = outer(pool, by);
    let wanted = outer(pool, targets);
    if lines < wanted {
        return false;
    }
    same_lines(pool, skip(pool, by, lines - wanted), targets)
}

/// Whether the last line outside blocks says that a term is true.
pub fn ends_in(pool: &Pool, lines: Option<NodeId>, term: Option<NodeId>) -> bool
    requires lines { ChildBelow (length pool.now.trees) lines }
    requires term { ChildBelow (length pool.now.trees) term }
    ensures { result ≡ ends.ends_in (statements (lines_of (tree_at pool.now.trees lines)))
        (Holds (tree_at pool.now.trees term)) }
{
    let mut at = lines;
    'lines: while let Some(n) = at {
        let node = read_node(pool, n);
        let claim = claim_of(line_of(pool, node.first));
        if is_empty(pool, node.second) {
            return same_claim(pool, claim, Claim::Holds(term));
        }
        at = node.second;
    }
    false
}

/// What the last line outside blocks says.
pub fn last_claim(pool: &Pool, lines: Option<NodeId>) -> Option<Claim>
    requires { ChildBelow (length pool.now.trees) lines }
    ensures claim { option_map (statement_of pool.now.trees) result
        ≡ last_of (statements (lines_of (tree_at pool.now.trees lines))) }
    ensures live { IfSome result (IsClaimBelow (length pool.now.trees)) }
{
    let mut last = None;
    let mut at = lines;
    'lines: while let Some(n) = at {
        let node = read_node(pool, n);
        last = Some(claim_of(line_of(pool, node.first)));
        at = node.second;
    }
    last
}
