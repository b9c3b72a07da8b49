ghost use Rattle.std.specs.Prelude.{◌≡◌, ◌+◌, ◌++◌, ◌∷◌, [], OnOk, replicate};
ghost use Rattle.cv_syntax.specs.declared.make.Make.TheVariants.{Nothing, Over};
ghost use Rattle.cv_syntax_trees.specs.declared.head.Head.TheVariants.{Cons};

use cv_parse_grammar::Role;
use cv_syntax::{Head, Make};
use std::alloc::{AllocError, Global};

/// A use of a name: what for, the number of the name, and how many tokens are left where it stands.
#[derive(Clone, Copy)]
pub struct NameUse {
    pub role: Role,
    pub name: u32,
    pub left: usize,
}

/// What reading leaves, in the order of the text: the uses of names, and the parts of trees.
#[derive(Drop)]
pub struct Trail {
    pub uses: Vec<NameUse>,
    pub makes: Vec<Make>,
}

impl Trail {
    /// Nothing was read.
    pub fn new(alloc: Global) -> Trail
        ensures uses { result.uses.items ≡ [] }
        ensures makes { result.makes.items ≡ [] }
    {
        Trail {
            uses: Vec::new(alloc),
            makes: Vec::new(alloc),
        }
    }
}

/// Makes a list of so many trees, which were made before.
#[tactic(auto, using(crate::proofs::Made::makes))]
pub fn close_chain(makes: &mut Vec<Make>, count: usize) -> Result<(), AllocError>
    ensures { OnOk result (makes.new.items
        ≡ makes.old.items ++ Nothing ∷ replicate count (Over Cons)) }
{
    makes.push(Make::Nothing)?;
    'cells: for _ in 0..count {
        makes.push(Make::Over(Head::Cons))?;
    }
    Ok(())
}
