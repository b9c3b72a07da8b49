// The bodies of tests to which no run comes, by what is known there.
use cv_closure::Theory;
use cv_closure_lines::{Derivation, Target, derive};
use cv_direct_search::Effort;
use cv_grounds::{Grounds, Part, Survey};
use cv_syntax::Pool;
use std::alloc::{AllocError, Global};

/// A body to which no run comes: its number among those of the survey, the body, and a derivation that ends with `false` there.
#[derive(Drop)]
pub(crate) struct Unreached {
    pub(crate) number: usize,
    pub(crate) part: Part,
    pub(crate) by: Derivation,
}

/// A derivation that no run comes to a body, where what is known there contradicts itself.
fn never(
    alloc: Global,
    pool: &Pool,
    survey: &Survey,
    theory: &Theory,
    part: Part,
    effort: &mut Effort,
) -> Result<Option<Derivation>, AllocError> {
    effort.begin();
    let grounds = Grounds::at(alloc, pool, survey, theory, part.last, effort.left)?;
    effort.left = grounds.closure.effort();
    if effort.left == 0 {
        return Ok(None);
    }
    derive(alloc, &grounds.closure, &[Target::Never])
}

/// The first body to which no run comes, of those from this number on, where one is found with the effort that is left.
pub(crate) fn first_unreached(
    alloc: Global,
    pool: &Pool,
    survey: &Survey,
    theory: &Theory,
    from: usize,
    effort: &mut Effort,
) -> Result<Option<Unreached>, AllocError> {
    for (number, part) in survey.parts().iter().enumerate() {
        if number >= from {
            if let Some(by) = never(alloc, pool, survey, theory, *part, effort)? {
                let part = *part;
                return Ok(Some(Unreached { number, part, by }));
            }
        }
    }
    Ok(None)
}
