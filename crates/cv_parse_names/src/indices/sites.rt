ghost use Rattle.std.specs.Prelude.{◌≡◌, ◌+◌, ◌-◌, ◌<◌, ◌≤◌, ◌^◌, ◌++◌, ◌∷◌, [], ℕ, length, IfOk, OnOk};
ghost use Rattle.cv_syntax.specs.Postorder.{postorder};
ghost use Rattle.cv_syntax_trees.specs.Tree.{Tree};
ghost use Rattle.cv_parse_grammar.specs.Filled.{first_site, under as below};
ghost use Rattle.cv_parse_names.specs.indices.Current.{numbers_of};
ghost use Rattle.cv_parse_names.specs.indices.Sites.{defined_by, part_before as part, tasks_at};

use cv_syntax::{Head, Make};
use std::alloc::{AllocError, Global};
use std::collections::HashMap;

/// What is left to do.
#[derive(Clone, Copy, Debug, PartialEq, Eq)]
enum Task {
    /// Looks for definitions in the next tree, below so many replications.
    Look(usize),
    /// Notes a definition that stands before those noted so far.
    Define(u32, usize),
}

/// How many replications stand above the first definition of each variable.
pub fn first_sites(alloc: Global, makes: &[Make]) -> Result<HashMap<u32, usize>, AllocError>
    ensures { (t : Tree) → makes.now ≡ postorder t
        → IfOk result (λ sites. numbers_of sites ≡ λ x. first_site x 0 t) }
{
    let mut sites = HashMap::new(alloc);
    let mut tasks = Vec::new(alloc);
    tasks.push(Task::Look(0))?;
    let mut at = makes.len();
    'tasks: while let Some(task) = tasks.pop() {
        match task {
            Task::Define(name, level) => {
                sites.insert(name, level)?;
            }
            Task::Look(level) => {
                add_tasks(&mut tasks, level, part_before(makes, at))?;
                at = at.saturating_sub(1);
            }
        }
    }
    Ok(sites)
}

/// The last of the first parts.
fn part_before(makes: &[Make], at: usize) -> Make
    requires { at ≤ length makes.now }
    ensures { result ≡ part makes.now at }
{
    if at == 0 {
        Make::Nothing
    } else {
        makes[at - 1]
    }
}

/// Adds what is left to do at a part.
fn add_tasks(tasks: &mut Vec<Task>, level: usize, make: Make) -> Result<(), AllocError>
    requires { level + 1 < 2 ^ 64 }
    ensures { OnOk result (tasks.new.items ≡ tasks.old.items ++ tasks_at level make) }
{
    let Make::Over(head) = make else {
        return Ok(());
    };
    if let Some(name) = defined_name(head) {
        tasks.push(Task::Define(name, level))?;
    }
    tasks.push(Task::Look(level))?;
    tasks.push(Task::Look(under(head, level)))?;
    Ok(())
}

/// The variable that a node defines.
fn defined_name(head: Head) -> Option<u32>
    ensures { result ≡ defined_by head }
{
    match head {
        Head::New(name, _) | Head::Let(name, _) | Head::Binder(name, _) => Some(name),
        _ => None,
    }
}

/// How many replications stand above the continuation of a node.
fn under(head: Head, level: usize) -> usize
    requires { level + 1 < 2 ^ 64 }
    ensures { result ≡ below head level }
{
    match head {
        Head::Repl(_, _) => level + 1,
        _ => level,
    }
}
