ghost use Rattle.std.specs.Prelude.{◌≡◌};
ghost use Rattle.cv_inline_laws.specs.extents.Extents as extents;
ghost use Rattle.cv_inline_measure.specs.Counts.{measure_in};
ghost use Rattle.cv_syntax.specs.limits.Limits.{told};

/// What trees are measured by: all nodes, or those of the longest path.
#[derive(Clone, Copy)]
pub(crate) enum Measure {
    Nodes,
    Path,
}

impl Measure {
    /// What parts side by side have.
    pub(crate) fn join(self, m: u32, n: u32) -> u32
        ensures { result ≡ told ((measure_in self).join m n) }
    {
        match self {
            Measure::Nodes => m.saturating_add(n),
            Measure::Path => m.max(n),
        }
    }

    /// What a part that stands in each copy has over the copies.
    pub(crate) fn along(self, part: u32, copies: u32) -> u32
        ensures { result ≡ told ((measure_in self).along part copies) }
    {
        match self {
            Measure::Nodes => part.saturating_mul(copies),
            Measure::Path => part.saturating_add(copies),
        }
    }

    /// A single copy.
    pub(crate) fn one_copy(self) -> u32
        ensures { result ≡ (measure_in self).one_copy }
    {
        match self {
            Measure::Nodes => 1,
            Measure::Path => 0,
        }
    }

    /// One copy below a node, by the weight of the node.
    pub(crate) fn below(self, weight: u32) -> u32
        ensures { result ≡ (measure_in self).below weight }
    {
        match self {
            Measure::Nodes => 1,
            Measure::Path => weight,
        }
    }

    /// What a node has over the copies, by what its children have.
    #[tactic(auto, using(crate::proofs::Counting::node_told))]
    pub(crate) fn over_node(self, copies: u32, weight: u32, first: u32, second: u32) -> u32
        ensures { result ≡ told (extents.over_node (measure_in self) copies weight first second) }
    {
        let node = self.along(weight, copies);
        let children = self.join(first, second);
        let below = self.along(self.below(weight), children);
        self.join(node, below)
    }
}
