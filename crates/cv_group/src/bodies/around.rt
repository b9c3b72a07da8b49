ghost use Rattle.std.specs.Prelude.{◌≡◌};
ghost use Rattle.cv_group.specs.bodies.Levels.{around_of};

use crate::symbols::Symbols;
use std::alloc::Global;
use std::collections::HashSet;

/// What the body of a function may name besides what it binds.
#[derive(Drop)]
pub struct Around {
    /// What the file declares.
    pub symbols: Symbols,
    /// The names of the key and of what the function takes.
    pub taken: HashSet<u32>,
    /// The bound of the function.
    pub bound: u32,
    /// What the functions of the side bind, with their bounds.
    pub names: HashSet<(u32, u32)>,
}

impl Around {
    /// Around no function.
    pub fn new(alloc: Global, symbols: Symbols) -> Around
        ensures { result.symbols ≡ symbols }
    {
        Around {
            symbols,
            taken: HashSet::new(alloc),
            bound: 0,
            names: HashSet::new(alloc),
        }
    }

    /// Whether a name may be read at each place of the body.
    pub fn is_outside(&self, x: u32) -> bool
        ensures { result ≡ (around_of self.now).outside x }
    {
        self.symbols.constants.contains(&x) || self.taken.contains(&x)
    }

    /// Whether a name may be called.
    pub fn is_callable(&self, f: u32) -> bool
        ensures { result ≡ (around_of self.now).callable f }
    {
        self.symbols.functions.contains(&f)
    }

    /// Whether the functions with a bound bind a name.
    pub fn binds(&self, bound: u32, x: u32) -> bool
        ensures { result ≡ (around_of self.now).names bound x }
    {
        self.names.contains(&(bound, x))
    }
}
