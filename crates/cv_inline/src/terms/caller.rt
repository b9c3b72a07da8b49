use cv_syntax::NodeId;

/// A site: its number, the bound of its function and the names that this assigns, the replications above the site, and
/// the index terms of its key.
#[derive(Drop)]
pub struct Caller {
    pub number: u32,
    pub bound: u32,
    pub names: Vec<u32>,
    pub replications: Vec<(u32, u32)>,
    pub key: Option<NodeId>,
}
