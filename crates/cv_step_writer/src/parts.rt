// The parts of a step, each node behind its items.

mod certificates;
mod items;
mod lines;
mod reasons;
mod steps;

pub(crate) use lines::push_lines;
pub(crate) use steps::push_step;
