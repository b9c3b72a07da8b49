use crate::change::Change;
use cv_bound::Cost;

/// The number of a condition that fails, and the place where it does; 0, where it names none.
#[derive(Clone, Copy, Debug, PartialEq, Eq)]
pub struct Failure {
    pub condition: u32,
    pub place: u32,
}

/// A change with what it costs.
#[derive(Drop)]
pub struct Priced {
    pub change: Change,
    pub cost: Cost,
}
