// Scripts, from their tokens: the steps of a proof block, by the table of scripts.
mod error;
mod planting;
mod reading;
mod scripts;

pub use error::ScriptError;
pub use scripts::script;
