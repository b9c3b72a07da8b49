use crate::measuring::Measure;
use cv_inline::terms::{Calling, Drawing};
use cv_syntax::Pool;

/// What a next game is made from: the pool, the drawn names, the sites and the name of the right key. And by what it is
/// measured.
#[derive(Clone, Copy)]
pub(crate) struct Setting<'a> {
    pub(crate) pool: &'a Pool,
    pub(crate) drawn: &'a Drawing,
    pub(crate) callings: &'a [Calling],
    pub(crate) right_key: u32,
    pub(crate) measure: Measure,
}
