// Terms under a substitution that isn't carried out.

mod instances;
mod substitution;

pub use instances::same_instance;
pub use substitution::{is_name_under, same_under};
