ghost use Rattle.std.specs.Prelude.{◌≡◌, ◌∷◌, ℕ, List, All, IfOk, slice_get};
ghost use Rattle.cv_pool.specs.KindTree.{KindTree};
ghost use Rattle.cv_pool.specs.Nodes.{ChildBelow};
ghost use Rattle.cv_meaning.specs.contexts.Inlined.{Drawn};
ghost use Rattle.cv_inline.specs.declared.terms.calling.Calling.{Calling};
ghost use Rattle.cv_inline_sites.specs.results.Outcomes.{IsLiveOutcome, results_in, term_of};

use crate::pairs::copy_of;
use crate::results::outcome::Outcome;
use cv_inline::terms::Entry;
use cv_syntax::NodeId;
use std::alloc::{AllocError, Global};

/// A copy of results.
fn copies(alloc: Global, results: &[Outcome]) -> Result<Vec<Outcome>, AllocError>
    ensures results { IfOk result (λ copies. (trees : List KindTree) (d : Drawn)
        (callings : List Calling) →
        results_in trees d callings copies.items ≡ results_in trees d callings results.now) }
    ensures live { IfOk result (λ copies. (live : ℕ) → All (IsLiveOutcome live) results.now →
        All (IsLiveOutcome live) copies.items) }
{
    let mut copies = Vec::new(alloc);
    'results: for k in 0..results.len() {
        let outcome = &results[k];
        let scope = copy_of(alloc, outcome.scope.as_slice())?;
        copies.push(Outcome {
            answer: outcome.answer,
            site: outcome.site,
            scope,
            term: outcome.term,
        })?;
    }
    Ok(copies)
}

/// Results with one more, the newest.
pub fn with_newest(
    alloc: Global,
    results: &[Outcome],
    answer: u32,
    site: usize,
    scope: &[Entry],
    term: Option<NodeId>,
) -> Result<Vec<Outcome>, AllocError>
    ensures results { IfOk result (λ more. (trees : List KindTree) (d : Drawn)
        (callings : List Calling) → results_in trees d callings more.items
        ≡ (answer, term_of trees d (slice_get callings site) scope.now term)
        ∷ results_in trees d callings results.now) }
    ensures live { IfOk result (λ more. (live : ℕ) → All (IsLiveOutcome live) results.now →
        ChildBelow live term → All (IsLiveOutcome live) more.items) }
{
    let mut more = copies(alloc, results)?;
    let scope = copy_of(alloc, scope)?;
    more.push(Outcome {
        answer,
        site,
        scope,
        term,
    })?;
    Ok(more)
}
