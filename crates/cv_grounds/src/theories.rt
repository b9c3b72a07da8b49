// What a file declares of its functions and types.
use crate::nodes::{binders, open};
use crate::translating::translate_pattern;
use cv_closure::{Equation, Terms, Theory};
use cv_syntax::{Class, Decl, Decls, NodeId, Pool};
use std::alloc::{AllocError, Global};
use std::collections::HashSet;

/// How many terms the equations of a file have at most, for the closure.
const MOST_PATTERNS: u32 = 10_000;

/// Adds an equation, by its number, where there is room for it.
fn add_equation(
    alloc: Global,
    pool: &Pool,
    theory: &mut Theory,
    number: u32,
    n: NodeId,
) -> Result<(), AllocError> {
    let Some(node) = open(pool, n) else {
        return Ok(());
    };
    let Some(body) = node.second else {
        return Ok(());
    };
    let Some(term) = translate_pattern(alloc, &mut theory.patterns, pool, body)? else {
        return Ok(());
    };
    let variables = binders(alloc, pool, node.first)?;
    theory.equations.push(Equation {
        number,
        variables,
        term,
    })?;
    Ok(())
}

/// The declared equations, the functions that are `[data]`, and the types that are `[large]`.
pub fn theory_of(alloc: Global, pool: &Pool, decls: &Decls) -> Result<Theory, AllocError> {
    let mut theory = Theory {
        patterns: Terms::new(alloc, MOST_PATTERNS)?,
        equations: Vec::new(alloc),
        data: HashSet::new(alloc),
        large: HashSet::new(alloc),
    };
    let mut equations = 0_u32;
    for k in 0..decls.len() {
        match decls.get(k) {
            Some(
                Decl::Name {
                    id,
                    class: Class::Fun { data_like: true },
                    ..
                },
            ) => {
                theory.data.insert(id.0)?;
            }
            Some(
                Decl::Name {
                    id,
                    class: Class::TypeName { large: true, .. },
                    ..
                },
            ) => {
                theory.large.insert(id.0)?;
            }
            Some(Decl::Equation(n)) => {
                equations = equations.saturating_add(1);
                add_equation(alloc, pool, &mut theory, equations, *n)?;
            }
            _ => {}
        }
    }
    Ok(theory)
}
