ghost use Rattle.std.specs.Prelude.{◌≡◌, ◌∷◌, ℕ, List, All, IfOk, IfSome, length, option_map};
ghost use Rattle.cv_pool.specs.KindTree.{KindTree};
ghost use Rattle.cv_pool.specs.Nodes.{ChildBelow};
ghost use Rattle.cv_syntax_trees.specs.Tree.{Tree};
ghost use Rattle.cv_meaning.specs.contexts.Inlined.{Drawn};
ghost use Rattle.cv_inline.specs.NextGame.{result_for};
ghost use Rattle.cv_inline.specs.declared.terms.calling.Calling.{Calling};
ghost use Rattle.cv_inline.specs.terms.Callers.{HasLiveCaller};
ghost use Rattle.cv_inline.specs.terms.Drawings.{drawn_in};
ghost use Rattle.cv_inline.specs.terms.Stacks.{stack};
ghost use Rattle.cv_inline_sites.specs.results.Outcomes.{IsLiveOutcome, or_else, outcome_tree, results_in};

use cv_inline::terms::{Calling, Drawing, Entry, in_game, lone};
use cv_syntax::{Head, Make, NodeId, Pool};
use std::alloc::AllocError;

/// The result of a call, for the variable that takes its answer: a term of the caller's body, in a scope. The caller
/// is given by its place among the sites; without a site the result is `false`.
#[derive(Drop)]
pub struct Outcome {
    pub answer: u32,
    pub site: usize,
    pub scope: Vec<Entry>,
    pub term: Option<NodeId>,
}

/// The newest result for a variable. The newest is the last.
pub(crate) fn outcome_of(results: &[Outcome], x: u32) -> Option<&Outcome>
    ensures tree { (trees : List KindTree) (d : Drawn) (callings : List Calling) (t : Tree) →
        or_else t (option_map (λ o. outcome_tree trees d callings o.now) result)
        ≡ result_for (results_in trees d callings results.now) x t }
    ensures live { (live : ℕ) → All (IsLiveOutcome live) results.now →
        IfSome result (λ o. IsLiveOutcome live o.now) }
{
    let mut left = results.len();
    'newest: while left > 0 {
        left -= 1;
        if results[left].answer == x {
            return Some(&results[left]);
        }
    }
    None
}

/// Adds a result.
pub(crate) fn add_outcome(
    pool: &Pool,
    drawn: &Drawing,
    callings: &[Calling],
    parts: &mut Vec<Make>,
    outcome: &Outcome,
) -> Result<(), AllocError>
    requires callings { All (HasLiveCaller (length pool.now.trees)) callings.now }
    requires outcome { IsLiveOutcome (length pool.now.trees) outcome.now }
    ensures { IfOk result (λ _. stack parts.new.items
        ≡ outcome_tree pool.now.trees (drawn_in drawn.now) callings.now outcome.now
        ∷ stack parts.old.items) }
{
    match callings.get(outcome.site) {
        Some(calling) => in_game(
            pool,
            drawn,
            &calling.caller,
            outcome.scope.as_slice(),
            parts,
            outcome.term,
        ),
        None => lone(parts, Head::No),
    }
}
