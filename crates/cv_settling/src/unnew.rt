// The variables that are chosen and named nowhere.
use cv_settling_overview::variables::Variable;
use cv_settling_overview::walk::Overview;
use std::collections::HashSet;

/// Whether all definitions of a variable are `new`, and nothing names it.
fn is_unused(variable: Variable) -> bool {
    variable.sites == variable.restrictions && variable.reads == 0 && variable.cells == 0
}

/// A variable whose choices may be left out: the first one, where so many are passed over.
pub(crate) fn find(overview: &Overview, queried: &HashSet<u32>, left: &mut u32) -> Option<u32> {
    for x in overview.variables.order() {
        if is_unused(overview.variables.get(*x)) && !queried.contains(x) {
            if *left == 0 {
                return Some(*x);
            }
            *left -= 1;
        }
    }
    None
}
