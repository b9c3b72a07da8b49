ghost use Rattle.std.specs.Prelude.{◌≡◌, OnOk};
ghost use Rattle.cv_scope_rules.specs.Context.{replications_below};
ghost use Rattle.cv_scene.specs.Scenes.{head_reads};

use cv_syntax::Head;
use std::alloc::AllocError;

/// Whether a node reads a variable or names it in a `defined` list.
pub fn is_reading(x: u32, head: Head) -> bool
    ensures { result ≡ head_reads x head }
{
    match head {
        Head::Leaf(y) => y == x,
        Head::Read(y) => y == x,
        _ => false,
    }
}

/// Notes the index of a replication with its parameter.
pub fn pass_replication(passed: &mut Vec<(u32, u32)>, head: Head) -> Result<(), AllocError>
    ensures { OnOk result (passed.new.items ≡ replications_below head passed.old.items) }
{
    match head {
        Head::Repl(i, n) => {
            passed.push((i, n))?;
            Ok(())
        }
        _ => Ok(()),
    }
}
