use cv_syntax::NodeId;
use cv_syntax_trees::sites::Sort;

/// The first definition of a variable.
#[derive(Drop)]
pub struct Site {
    /// The replications above it, by index and parameter, outermost first.
    pub replications: Vec<(u32, u32)>,
    /// The sort of the variable's values.
    pub sort: Sort,
    /// The place of the node that defines it.
    pub place: u32,
    /// The node that defines it.
    pub node: NodeId,
}

/// What a directory has of a name.
#[derive(Drop)]
pub struct Entry {
    /// The first definition of the variable.
    pub site: Option<Site>,
    /// How many definitions there are, up to the greatest number of 32 bits.
    pub count: u32,
    /// The place of the first definition that is no `new` of a large type.
    pub other: Option<u32>,
    /// The parameter of the index.
    pub index: Option<u32>,
}
