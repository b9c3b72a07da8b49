// The draws and the finds of the sites of a context.

mod bodies;
mod draws;
mod finds;

pub use draws::draws_of;
pub use finds::label_draws;
