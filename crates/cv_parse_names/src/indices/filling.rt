ghost use Rattle.std.specs.Prelude.{◌≡◌, ◌≤◌, ◌++◌, IfOk};
ghost use Rattle.cv_syntax.specs.Postorder.{postorder};
ghost use Rattle.cv_syntax_trees.specs.Tree.{Tree};
ghost use Rattle.cv_parse_grammar.specs.Filled.{filled};

use crate::indices::context::{next_context, open};
use crate::indices::current::Current;
use crate::indices::sites::first_sites;
use crate::indices::writing::write_part;
use cv_syntax::Make;
use std::alloc::{AllocError, Global};

/// The parts of the game that a process stands for.
pub fn fill(alloc: Global, makes: &[Make]) -> Result<Vec<Make>, AllocError>
    ensures { (t : Tree) → makes.now ≡ postorder t
        → IfOk result (λ parts. parts.items ≡ postorder (filled t)) }
{
    let sites = first_sites(alloc, makes)?;
    let mut current = Current::new(alloc);
    let mut stack = Vec::new(alloc);
    let mut parts = Vec::new(alloc);
    let mut at = makes.len();
    'parts: while at > 0 {
        at -= 1;
        let context = next_context(&mut stack);
        write_part(&mut parts, &sites, &current, context, makes[at])?;
        open(&mut stack, &mut current, context, makes[at])?;
    }
    parts.reverse();
    Ok(parts)
}
