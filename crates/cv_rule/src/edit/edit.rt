use cv_edit_changes::pruning::Body;
use cv_edit_places::Change;

/// How a game changes.
#[derive(Drop)]
pub enum Edit {
    /// What stands at a place changes.
    At { place: u32, change: Change },
    /// The definitions of a variable go.
    Without { name: u32 },
    /// A variable has another name.
    Renamed { name: u32, to: u32 },
    /// The only definition of a variable, a `let`, goes, and each read of the variable is its term.
    Unlet { name: u32 },
    /// Each definition of a variable has the next one of these names.
    Split { name: u32, names: Vec<u32> },
    /// A body of the construct at a place goes.
    WithoutBody { place: u32, body: Body },
}
