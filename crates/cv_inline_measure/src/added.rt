ghost use Rattle.std.specs.Prelude.{◌≡◌, ℕ};
ghost use Rattle.cv_syntax_trees.specs.Tree.{Tree};
ghost use Rattle.cv_inline_laws.specs.extents.Extents as extents;
ghost use Rattle.cv_inline_laws.specs.extents.Extents.{Extent, extent};
ghost use Rattle.cv_inline_measure.specs.Counts.{IsTold, measure_in};
ghost use Rattle.cv_syntax.specs.limits.Limits.{told};

use crate::measuring::Measure;

/// What a body adds to a game: nodes of its own, places of results, and these results.
#[derive(Clone, Copy)]
pub(crate) struct Added {
    pub(crate) own: u32,
    pub(crate) places: u32,
    pub(crate) results: u32,
}

/// What a result adds.
#[tactic(auto, using(crate::proofs::Adding::result_told))]
pub(crate) fn of_result(measure: Measure, count: u32) -> Added
    ensures { (m : Tree) → count ≡ told (extent (measure_in measure) m) →
        IsTold result (extents.of_result (measure_in measure) m) }
{
    Added {
        own: 0,
        places: measure.one_copy(),
        results: count,
    }
}

/// What two bodies add side by side.
#[tactic(auto, using(crate::proofs::Adding::beside_told))]
pub(crate) fn beside(measure: Measure, a: Added, b: Added) -> Added
    ensures { (e f : Extent) → IsTold a e → IsTold b f →
        IsTold result (extents.beside (measure_in measure) e f) }
{
    Added {
        own: measure.join(a.own, b.own),
        places: measure.join(a.places, b.places),
        results: measure.join(a.results, b.results),
    }
}

/// What a body adds below a node with parts of its own.
#[tactic(auto, using(crate::proofs::Adding::under_told))]
pub(crate) fn under(measure: Measure, parts: u32, a: Added) -> Added
    ensures { (n : ℕ) (e : Extent) → parts ≡ told n → IsTold a e →
        IsTold result (extents.under (measure_in measure) 1 n e) }
{
    let below = measure.below(1);
    Added {
        own: measure.over_node(measure.one_copy(), 1, parts, a.own),
        places: measure.along(below, a.places),
        results: measure.along(below, a.results),
    }
}
