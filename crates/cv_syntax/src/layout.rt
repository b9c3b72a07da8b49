ghost use Rattle.std.specs.Prelude.{◌≡◌};
ghost use Rattle.cv_syntax.specs.Layouts.{shape_of, layout_of, fits, IsLaidOut};

use cv_syntax_trees::Head;

/// How the children of a node are laid out in its tree.
#[derive(Clone, Copy, Debug, PartialEq, Eq)]
pub enum Layout {
    /// No children.
    Lone,
    /// One, first.
    One,
    /// Two, first and second.
    Two,
    /// One, and a list of two.
    Three,
    /// A list.
    Listed,
    /// A list of all but the last, and the last.
    Rest,
    /// The same, below the channel of an input.
    Taking,
    /// The same, below the channel of an output.
    Giving,
    /// A list, a condition and a body, all second.
    Chosen,
}

impl Layout {
    /// The layout of a node with so many children.
    #[tactic(auto, using(crate::proofs::Arrangements::laid_out))]
    pub fn of(head: Head, count: usize) -> Layout
        ensures layout { result ≡ layout_of head count }
        ensures laid { IsLaidOut result count }
    {
        let shape = Layout::shape(head);
        if count == 0 {
            Layout::Lone
        } else if shape.fits(count) {
            shape
        } else {
            Layout::Rest
        }
    }

    /// The layout that a head has with as many children as it asks for.
    fn shape(head: Head) -> Layout
        ensures { result ≡ shape_of head }
    {
        match head {
            Head::Par | Head::Let(_, _) | Head::Eq | Head::And | Head::Or => Layout::Two,
            Head::Not => Layout::One,
            Head::If => Layout::Three,
            Head::Read(_) | Head::Apply(_) => Layout::Listed,
            Head::In(_) => Layout::Taking,
            Head::Out(_) => Layout::Giving,
            Head::Branch => Layout::Chosen,
            _ => Layout::Rest,
        }
    }

    /// Whether so many children can be laid out like this.
    fn fits(self, count: usize) -> bool
        ensures { result ≡ fits self count }
    {
        match self {
            Layout::Lone => count == 0,
            Layout::One => count == 1,
            Layout::Two => count == 2,
            Layout::Three => count == 3,
            Layout::Listed => true,
            Layout::Rest | Layout::Taking | Layout::Giving => count > 0,
            Layout::Chosen => count > 1,
        }
    }
}
