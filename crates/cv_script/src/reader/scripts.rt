ghost use Rattle.std.specs.Prelude.{◌≡◌, ◌+◌, ◌<◌, ◌≤◌, ◌^◌, All, Some, length, IfOk, OnErr, OnOk};
ghost use Rattle.cv_pool.specs.PoolView.{Grows};
ghost use Rattle.cv_parse_tables.specs.terminals.ScriptSigns.{between, script_signs as signs_of_script};
ghost use Rattle.cv_script.specs.reader.Scripts.{ReadsScript, script_of, script_read, trees_of};
ghost use Rattle.cv_syntax.specs.limits.Limits.{nodes_of};
ghost use Rattle.cv_script.specs.reader.Trees.{script_nodes};
ghost use Rattle.cv_syntax.specs.PoolTrees.{tree_at};

use crate::Step;
use crate::reader::ScriptError;
use crate::reader::planting::plant_steps;
use crate::reader::reading::read;
use cv_lex::Tokens;
use cv_parse_notation::Sign;
use cv_parse_tables::terminals::script_signs;
use cv_parse_terms::Trail;
use cv_syntax::{Pool, Work};
use std::alloc::Global;

/// Reads a script from signs that begin at a token into a pool.
fn script_in(
    alloc: Global,
    pool: &mut Pool,
    signs: &[Sign],
    from: u32,
) -> Result<Vec<Step>, ScriptError>
    requires few { from + length signs.now < 2 ^ 32 }
    ensures reads { ReadsScript (script_of pool.old.limit (length pool.old.trees) from signs.now)
        pool.new.trees result }
    ensures live { IfOk result (λ v. All (λ s. s.0.0 < length pool.new.trees) v.items) }
    ensures few { IfOk result (λ v. length pool.new.trees
        ≤ length pool.old.trees + script_nodes (trees_of pool.new.trees v.items)) }
    ensures room { OnOk result (length pool.new.trees ≤ pool.old.limit) }
    ensures small { IfOk result (λ v. All (λ s. nodes_of (tree_at pool.new.trees (Some s.0))
        ≤ pool.old.limit) v.items) }
    ensures grows { Grows pool.old pool.new }
    ensures kept { OnErr result (pool.new.trees ≡ pool.old.trees) }
{
    let mut trail = Trail::new(alloc);
    read(signs, from, &mut trail)?;
    plant_steps(alloc, pool, &trail.makes)
}

/// Reads a script from the tokens from one on, before another, each step with its semicolon.
/// New names are put behind the others, without a class; where no script is read they are taken back.
pub fn script(
    alloc: Global,
    work: &mut Work,
    tokens: &Tokens,
    range: (u32, u32),
) -> Result<Vec<Step>, ScriptError>
    requires order { range.0 ≤ range.1 }
    requires end { range.1 < length tokens.now }
    requires few { length work.old.names + length tokens.now < 2 ^ 32 }
    ensures reads { ReadsScript (script_read work.old.pool.limit (length work.old.pool.trees)
        work.old.names tokens.now range.0 range.1) work.new.pool.trees result }
    ensures live { IfOk result (λ v. All (λ s. s.0.0 < length work.new.pool.trees) v.items) }
    ensures few { IfOk result (λ v. length work.new.pool.trees
        ≤ length work.old.pool.trees + script_nodes (trees_of work.new.pool.trees v.items)) }
    ensures room { OnOk result (length work.new.pool.trees ≤ work.old.pool.limit) }
    ensures small { IfOk result (λ v. All (λ s. nodes_of (tree_at work.new.pool.trees (Some s.0))
        ≤ work.old.pool.limit) v.items) }
    ensures names { OnOk result (work.new.names
        ≡ (signs_of_script work.old.names (between range.0 range.1 tokens.now)).names) }
    ensures decls { work.new.decls ≡ work.old.decls }
    ensures grows { Grows work.old.pool work.new.pool }
    ensures same_names { OnErr result (work.new.names ≡ work.old.names) }
    ensures same_trees { OnErr result (work.new.pool.trees ≡ work.old.pool.trees) }
{
    let before = work.names.len();
    let (from, to) = range;
    let signs = script_signs(alloc, &mut work.names, tokens, from, to)?;
    let outcome = script_in(alloc, &mut work.pool, &signs, from);
    if outcome.is_err() {
        work.names.keep(before);
    }
    outcome
}
