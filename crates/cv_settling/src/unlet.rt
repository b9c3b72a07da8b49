// The `let`s whose term may stand for their variable.
use cv_grounds::{nodes_up_to, open};
use cv_settling_overview::variables::Variable;
use cv_settling_overview::walk::Overview;
use cv_syntax::{Head, NodeId, Pool};
use std::collections::HashSet;

/// Whether a term is a constant, or a read of at most as many nodes as a read of a variable below so many indices.
fn is_short(pool: &Pool, term: NodeId, indices: u32) -> bool {
    let Some(node) = open(pool, term) else {
        return false;
    };
    match node.head {
        Head::Leaf(_) => true,
        Head::Read(_) => {
            let most = indices.saturating_add(1);
            nodes_up_to(pool, term, most) <= most
        }
        _ => false,
    }
}

/// Whether the term of a variable's only definition, a `let`, may stand for it.
fn is_candidate(pool: &Pool, variable: Variable) -> bool {
    if variable.sites != 1 || variable.cells != 0 {
        return false;
    }
    match variable.term {
        Some(term) => {
            let is_read_once = variable.reads <= 1 && !variable.in_condition;
            is_read_once || is_short(pool, term, variable.indices)
        }
        None => false,
    }
}

/// A variable whose `let` may be left out: the first one, where so many are passed over.
pub(crate) fn find(
    pool: &Pool,
    overview: &Overview,
    queried: &HashSet<u32>,
    left: &mut u32,
) -> Option<u32> {
    for x in overview.variables.order() {
        if is_candidate(pool, overview.variables.get(*x)) && !queried.contains(x) {
            if *left == 0 {
                return Some(*x);
            }
            *left -= 1;
        }
    }
    None
}
