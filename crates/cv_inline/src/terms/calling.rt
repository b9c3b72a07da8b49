use crate::terms::caller::Caller;
use cv_syntax::NodeId;

/// A site, with the node of the right function that is called there.
#[derive(Drop)]
pub struct Calling {
    pub caller: Caller,
    pub function: NodeId,
}
