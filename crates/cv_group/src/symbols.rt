ghost use Rattle.std.specs.Prelude.{◌≡◌, List, All, length, IfOk, IfSome};
ghost use Rattle.std.specs.Option.{option_copied};
ghost use Rattle.cv_pool.specs.KindTree.{KindTree};
ghost use Rattle.cv_syntax.specs.Declarations.{declarations};
ghost use Rattle.cv_syntax.specs.NameSets.{is_in};
ghost use Rattle.cv_meaning.specs.Interpretation.{is_constant_of};
ghost use Rattle.cv_directory.specs.Live.{IsLive};
ghost use Rattle.cv_group.specs.Tables.{constant_in, function_in, symbols_in};
ghost use Rattle.cv_group_rules.specs.Symbols as rule;

use cv_syntax::children::is_empty;
use cv_syntax::{Class, Decl, Decls, Pool};
use std::alloc::{AllocError, Global};
use std::collections::HashSet;

/// What a file declares that a body may name.
#[derive(Drop)]
pub struct Symbols {
    /// Its constants.
    pub constants: HashSet<u32>,
    /// Its functions, with the constants.
    pub functions: HashSet<u32>,
}

/// The name of a constant's declaration.
fn constant(pool: &Pool, decl: Option<&Decl>) -> Option<u32>
    requires { IfSome (option_copied decl) (IsLive (length pool.now.trees)) }
    ensures { result ≡ constant_in pool.now.trees (option_copied decl.entry) }
{
    match decl {
        Some(
            Decl::Name {
                id,
                class: Class::Fun { .. },
                args,
                ..
            },
        ) => if is_empty(pool, *args) {
            Some(id.0)
        } else {
            None
        },
        _ => None,
    }
}

/// The constants that a file declares.
fn constants_of(alloc: Global, pool: &Pool, decls: &Decls) -> Result<HashSet<u32>, AllocError>
    requires { All (IsLive (length pool.now.trees)) decls.now.list }
    ensures { IfOk result (λ s. is_in s
        ≡ is_constant_of (declarations pool.now.trees decls.now.list)) }
{
    let mut constants = HashSet::new(alloc);
    'decls: for k in 0..decls.len() {
        let Some(x) = constant(pool, decls.get(k)) else {
            continue;
        };
        constants.insert(x)?;
    }
    Ok(constants)
}

/// The name of a function's declaration.
fn function(decl: Option<&Decl>) -> Option<u32>
    ensures { result ≡ function_in (option_copied decl.entry) }
{
    match decl {
        Some(
            Decl::Name {
                id,
                class: Class::Fun { .. },
                ..
            },
        ) => Some(id.0),
        _ => None,
    }
}

/// The functions that a file declares, with its constants.
fn functions_of(alloc: Global, decls: &Decls) -> Result<HashSet<u32>, AllocError>
    ensures { (trees : List KindTree) → IfOk result (λ s. is_in s
        ≡ rule.is_function_of (declarations trees decls.now.list)) }
{
    let mut functions = HashSet::new(alloc);
    'decls: for k in 0..decls.len() {
        let Some(f) = function(decls.get(k)) else {
            continue;
        };
        functions.insert(f)?;
    }
    Ok(functions)
}

/// The constants and the functions that a file declares.
pub fn symbols_of(alloc: Global, pool: &Pool, decls: &Decls) -> Result<Symbols, AllocError>
    requires { All (IsLive (length pool.now.trees)) decls.now.list }
    ensures { IfOk result (λ s. symbols_in s
        ≡ rule.symbols_of (declarations pool.now.trees decls.now.list)) }
{
    let constants = constants_of(alloc, pool, decls)?;
    let functions = functions_of(alloc, decls)?;
    Ok(Symbols {
        constants,
        functions,
    })
}
