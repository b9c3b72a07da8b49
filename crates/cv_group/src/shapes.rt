// What is asked of the sides of an equivalence without names: terms as bodies, indices of branches, and shapes.

mod shapes;

pub use shapes::{bodies_are_terms, bound_at, have_one_index, shapes_agree};
