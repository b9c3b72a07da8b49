// The pairs of an injective correspondence, and of a variable's secrecy in many sessions: whether each is derived, and whether the variables
// whose values are taken to differ are chosen at random from large types.

mod distinct;
mod ends;
mod proving;
mod secrets;
mod sights;
mod testing;

pub(crate) use distinct::first_unfit_name;
pub(crate) use secrets::first_wrong_secret;
pub(crate) use testing::first_wrong_pair;
