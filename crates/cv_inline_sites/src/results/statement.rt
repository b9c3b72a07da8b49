ghost use Rattle.std.specs.Prelude.{◌≡◌, ◌∷◌, All, IfOk, length};
ghost use Rattle.cv_pool.specs.Nodes.{ChildBelow};
ghost use Rattle.cv_syntax.specs.PoolTrees.{tree_at};
ghost use Rattle.cv_inline.specs.NextGame as games;
ghost use Rattle.cv_inline.specs.NextGame.{result_for};
ghost use Rattle.cv_inline.specs.terms.Callers.{HasLiveCaller};
ghost use Rattle.cv_inline.specs.terms.Drawings.{drawn_in};
ghost use Rattle.cv_inline.specs.terms.Stacks.{stack};
ghost use Rattle.cv_inline_sites.specs.results.Outcomes.{IsLiveOutcome, results_in};

use crate::results::outcome::{Outcome, add_outcome, outcome_of};
use cv_inline::terms::{Calling, Drawing, copy, nothing, put};
use cv_syntax::{Head, Make, NodeId, Pool, read_node};
use std::alloc::AllocError;

/// Adds the result for a variable, or else the term itself.
fn result_or(
    pool: &Pool,
    drawn: &Drawing,
    callings: &[Calling],
    results: &[Outcome],
    parts: &mut Vec<Make>,
    x: u32,
    term: Option<NodeId>,
) -> Result<(), AllocError>
    requires callings { All (HasLiveCaller (length pool.now.trees)) callings.now }
    requires results { All (IsLiveOutcome (length pool.now.trees)) results.now }
    requires term { ChildBelow (length pool.now.trees) term }
    ensures { IfOk result (λ _. stack parts.new.items ≡ result_for
        (results_in pool.now.trees (drawn_in drawn.now) callings.now results.now) x
        (tree_at pool.now.trees term) ∷ stack parts.old.items) }
{
    match outcome_of(results, x) {
        Some(found) => add_outcome(pool, drawn, callings, parts, found),
        None => copy(pool, parts, term),
    }
}

/// Adds a term of a statement, with the results of its calls in place of their answers.
#[tactic(auto, using(cv_syntax::proofs::Trees::empty_at), unfolding(cv_inline::specs::NextGame::with_results))]
pub fn with_results(
    pool: &Pool,
    drawn: &Drawing,
    callings: &[Calling],
    results: &[Outcome],
    parts: &mut Vec<Make>,
    term: Option<NodeId>,
) -> Result<(), AllocError>
    requires callings { All (HasLiveCaller (length pool.now.trees)) callings.now }
    requires results { All (IsLiveOutcome (length pool.now.trees)) results.now }
    requires term { ChildBelow (length pool.now.trees) term }
    ensures { IfOk result (λ _. stack parts.new.items ≡ games.with_results
        (results_in pool.now.trees (drawn_in drawn.now) callings.now results.now)
        (tree_at pool.now.trees term) ∷ stack parts.old.items) }
{
    let Some(n) = term else {
        return nothing(parts);
    };
    let node = read_node(pool, n);
    match node.head {
        Head::Leaf(x) => result_or(pool, drawn, callings, results, parts, x, term),
        Head::Read(x) => result_or(pool, drawn, callings, results, parts, x, term),
        head => {
            with_results(pool, drawn, callings, results, parts, node.first)?;
            with_results(pool, drawn, callings, results, parts, node.second)?;
            put(parts, head)
        }
    }
}
