ghost use Rattle.std.specs.Prelude.{◌≡◌, ◌+◌, ◌<◌, ◌^◌, ◌↔◌, ℕ, All, Err, IfSome, IsOk, None, Some, false, length};
ghost use Rattle.cv_pool.specs.Nodes.{ChildBelow};
ghost use Rattle.cv_syntax.specs.Declarations.{declarations};
ghost use Rattle.cv_syntax_trees.specs.Tree.{size};
ghost use Rattle.cv_syntax.specs.PoolTrees.{tree_at};
ghost use Rattle.cv_directory.specs.Definitions.{entries_of, large_in};
ghost use Rattle.cv_syntax_trees.specs.sites.Sites.{sites_of};
ghost use Rattle.cv_directory.specs.Tables.{entries_in};
ghost use Rattle.cv_directory.specs.Live.{IsLive};
ghost use Rattle.cv_scope_rules.specs.typing.Signature.{OfGame};
ghost use Rattle.cv_typing.specs.Tables.{above_of, arrays_of, directory_in};
ghost use Rattle.cv_scope_rules.specs.Phrases.{IsWellFormed};
ghost use Rattle.cv_scene.specs.Derivations as derivations;
ghost use Rattle.cv_scene.specs.Derivations.{Derives, first_bad_line};
ghost use Rattle.cv_scene.specs.Sights.{is_condition, sight_at};
ghost use Rattle.cv_scene.specs.Terms.{above_at, replications_at};
ghost use Rattle.cv_scene_view.specs.Kept.{scene_of};
ghost use Rattle.cv_scene.specs.lines.Ends.{ends_with as ends_so};
ghost use Rattle.cv_scene.specs.lines.Lines as derived;
ghost use Rattle.cv_scene.specs.lines.Lines.{lines_of, statements};
ghost use Rattle.cv_scene.specs.Reasons as reasons;
ghost use Rattle.cv_derive_lines.specs.Views.{IsClaimBelow, statement_of};
ghost use Rattle.cv_derive_lines.specs.citing.Bookmarks.{AreLines, Serves};
ghost use Rattle.cv_derive_reasons.specs.sizes.Sizes.{AreSizes};
ghost use Rattle.cv_derive.specs.Searching.{first_bad_in};
ghost use Rattle.cv_derive.specs.Seen.{IsAssumedBelow, Sees, assumed_of, sight_of, trees_of, visible_of};
ghost use Rattle.cv_derive.specs.Verdicts.{verdict_of};
ghost use Rattle.cv_derive.specs.declared.checking.DeriveFault.TheVariants.{LineBad, Targets};

use crate::reasons::is_right;
use crate::sight::{Assumed, Sight};
use cv_derive_lines::citing::{Bookmarks, Citing};
use cv_derive_lines::terms::is_condition;
use cv_derive_lines::{Claim, Line, count, ends_in, ends_with, line_of};
use cv_derive_reasons::sizes::Sizes;
use cv_syntax::{Game, NodeId, Work, read_node};
use cv_syntax_trees::sites::Sort;
use cv_typing::Arrays;
use std::collections::HashMap;

/// Why a derivation doesn't derive the targets.
#[derive(Clone, Copy, Debug, PartialEq, Eq)]
pub enum DeriveFault {
    /// The line of this number is the first that isn't right. Lines count from 1, those inside blocks too.
    LineBad(u32),
    /// Each line is right, and the last ones aren't the targets.
    Targets,
}

/// Whether a term is a truth value at the place.
fn is_condition_here(s: &Sight, term: Option<NodeId>) -> bool
    requires sees { Sees s.now }
    requires term { ChildBelow (length (trees_of s.now)) term }
    ensures { result ≡ is_condition (sight_of s.now) (tree_at (trees_of s.now) term) }
{
    is_condition(s.work, s.arrays, s.above, term)
}

/// Whether a conclusion by cases is right: the condition is a truth value, and both blocks end with the conclusion.
fn is_right_split(
    s: &Sight,
    condition: Option<NodeId>,
    first: Option<NodeId>,
    second: Option<NodeId>,
    conclusion: Option<NodeId>,
) -> bool
    requires sees { Sees s.now }
    requires condition { ChildBelow (length (trees_of s.now)) condition }
    requires first { ChildBelow (length (trees_of s.now)) first }
    requires second { ChildBelow (length (trees_of s.now)) second }
    requires conclusion { ChildBelow (length (trees_of s.now)) conclusion }
    ensures { result ≡ derivations.is_right_split (sight_of s.now)
        (tree_at (trees_of s.now) condition)
        (lines_of (tree_at (trees_of s.now) first)) (lines_of (tree_at (trees_of s.now) second))
        (tree_at (trees_of s.now) conclusion) }
{
    let pool = &s.work.pool;
    is_condition_here(s, condition)
        && ends_in(pool, first, conclusion)
        && ends_in(pool, second, conclusion)
}

/// Whether the line of a number is right, by what it says and its reason.
fn is_right_line(
    s: &Sight,
    bookmarks: &Bookmarks,
    assumed: Assumed,
    number: u32,
    claim: Claim,
    reason: Option<NodeId>,
) -> bool
    requires sees { Sees s.now }
    requires kept { AreLines (trees_of s.now) (lines_of (tree_at (trees_of s.now) s.now.lines))
        number bookmarks.now }
    requires assumed { IsAssumedBelow (length (trees_of s.now)) assumed }
    requires claim { IsClaimBelow (length (trees_of s.now)) claim }
    requires reason { ChildBelow (length (trees_of s.now)) reason }
    ensures { result ≡ reasons.is_right (sight_of s.now) (assumed_of (trees_of s.now) assumed)
        (visible_of s.now number) (statement_of (trees_of s.now) claim)
        (tree_at (trees_of s.now) reason) }
{
    let citing = Citing {
        lines: s.lines,
        bookmarks,
        number,
    };
    is_right(s, assumed, &citing, claim, reason)
}

/// The number of the first of these lines that isn't right, where the first of them has a number. The lines around that are
/// kept serve them.
pub(crate) fn first_bad(
    s: &Sight,
    around: &Bookmarks,
    assumed: Assumed,
    start: u32,
    lines: Option<NodeId>,
) -> Option<u32>
    requires sees { Sees s.now }
    requires assumed { IsAssumedBelow (length (trees_of s.now)) assumed }
    requires live { ChildBelow (length (trees_of s.now)) lines }
    requires serves { Serves (trees_of s.now) (lines_of (tree_at (trees_of s.now) s.now.lines))
        around.now start (lines_of (tree_at (trees_of s.now) lines)) }
    ensures { result ≡ first_bad_in (lines_of (tree_at (trees_of s.now) s.now.lines))
        (sight_of s.now) (assumed_of (trees_of s.now) assumed) start
        (lines_of (tree_at (trees_of s.now) lines)) }
{
    let pool = &s.work.pool;
    let mut kept = around.inside();
    let mut n = start;
    let mut at = lines;
    'lines: while let Some(k) = at {
        let node = read_node(pool, k);
        match line_of(pool, node.first) {
            Line::By { claim, reason } => {
                if !is_right_line(s, &kept, assumed, n, claim, reason) {
                    return Some(n);
                }
                kept.keep(n, claim, node.second);
                n += 1;
            }
            Line::Cases {
                condition,
                first,
                second,
                conclusion,
            } => {
                let middle = n + count(pool, first);
                let end = middle + count(pool, second);
                if let Some(bad) = first_bad(s, &kept, Assumed::Holds(condition), n, first) {
                    return Some(bad);
                }
                if let Some(bad) = first_bad(s, &kept, Assumed::Fails(condition), middle, second) {
                    return Some(bad);
                }
                if !is_right_split(s, condition, first, second, conclusion) {
                    return Some(end);
                }
                kept.keep(end, Claim::Holds(conclusion), node.second);
                n = end + 1;
            }
        }
        at = node.second;
    }
    None
}

/// Checks that a derivation at a place of a game derives the targets: each line is right, and the last lines outside blocks are
/// the targets. The sizes that are known save counting. It takes no memory.
pub fn check(
    work: &Work,
    game: Game,
    arrays: &Arrays,
    sizes: &Sizes,
    above: &HashMap<u32, Sort>,
    replications: &[(u32, u32)],
    place: u32,
    by: Option<NodeId>,
    targets: Option<NodeId>,
) -> Result<(), DeriveFault>
    requires live { game.root.0 < length work.now.pool.trees }
    requires fits { size (tree_at work.now.pool.trees (Some game.root)) < 2 ^ 32 }
    requires lines { ChildBelow (length work.now.pool.trees) by }
    requires targets { ChildBelow (length work.now.pool.trees) targets }
    requires few { 1 + derived.count (lines_of (tree_at work.now.pool.trees by)) < 2 ^ 32 }
    requires few_targets { length (statements (lines_of (tree_at work.now.pool.trees targets)))
        < 2 ^ 32 }
    requires declared { All (IsLive (length work.now.pool.trees)) work.now.decls.list }
    requires formed { IsWellFormed (declarations work.now.pool.trees work.now.decls.list)
        (tree_at work.now.pool.trees (Some game.root)) }
    requires arrays { arrays_of arrays.now
        ≡ OfGame (sites_of (tree_at work.now.pool.trees (Some game.root))) }
    requires entries { IfSome (directory_in arrays.now) (λ d. entries_in work.now.pool.trees d
        ≡ entries_of (large_in work.now.decls.list)
        (tree_at work.now.pool.trees (Some game.root))) }
    requires sizes { AreSizes work.now.pool.trees sizes.now }
    requires above { above_of above.now
        ≡ above_at (scene_of work.now.pool work.now.decls game.root) place }
    requires replications { replications.now
        ≡ replications_at (scene_of work.now.pool work.now.decls game.root) place }
    ensures verdict { result ≡ verdict_of
        (sight_at (scene_of work.now.pool work.now.decls game.root) place)
        (tree_at work.now.pool.trees by) (tree_at work.now.pool.trees targets) }
    ensures right { IsOk result ↔ Derives
        (sight_at (scene_of work.now.pool work.now.decls game.root) place)
        (tree_at work.now.pool.trees by) (tree_at work.now.pool.trees targets) }
    ensures line { (n : ℕ) → (result ≡ Err (LineBad n)) ↔ (first_bad_line
        (sight_at (scene_of work.now.pool work.now.decls game.root) place)
        (tree_at work.now.pool.trees by) ≡ Some n) }
    ensures targets { (result ≡ Err Targets) ↔ ((first_bad_line
        (sight_at (scene_of work.now.pool work.now.decls game.root) place)
        (tree_at work.now.pool.trees by) ≡ None)
        × (ends_so (tree_at work.now.pool.trees by) (tree_at work.now.pool.trees targets)
        ≡ false)) }
{
    let sight = Sight {
        work,
        game,
        arrays,
        above,
        replications,
        sizes,
        place,
        second: None,
        lines: by,
    };
    if let Some(n) = first_bad(&sight, &Bookmarks::new(), Assumed::Nothing, 1, by) {
        return Err(DeriveFault::LineBad(n));
    }
    if !ends_with(&work.pool, by, targets) {
        return Err(DeriveFault::Targets);
    }
    Ok(())
}
