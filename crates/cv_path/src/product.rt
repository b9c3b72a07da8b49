ghost use Rattle.std.specs.Prelude.{◌≡◌, length, option_map, slice_get};

use arrayvec::ArrayVec;
use cv_syntax::NameId;

/// A product of parameters, in order: how many copies there are of a place. It has at most 16 factors.
#[derive(Drop, Clone, Debug, PartialEq, Eq)]
pub struct Product {
    pub parameters: ArrayVec<u32, 16>,
}

impl Product {
    /// How many factors there are.
    pub fn len(&self) -> u32
        ensures { result ≡ length self.now.parameters.items }
    {
        self.parameters.len() as u32
    }

    /// The parameter at a place, counted from 0.
    pub fn name(&self, k: u32) -> Option<NameId>
        ensures { option_map (λ n. n.0) result ≡ slice_get self.now.parameters.items k }
    {
        match self.parameters.get(k as usize) {
            Some(n) => Some(NameId(*n)),
            None => None,
        }
    }
}
