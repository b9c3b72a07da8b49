// The machine through which every step of a proof passes: what a step leads to, and sequences of games.
#![tactic(auto)]

mod applying;
mod closing;
mod elementary;
mod error;
mod keeping;
mod places;
mod planning;
mod reducing;
mod rooms;
mod sequence;

pub use closing::{Closing, closing_of};
pub use cv_kernel_crypto::games::Next;
pub use error::{PushError, Refusal, RuleError};
pub use sequence::Sequence;
