ghost use Rattle.std.specs.Prelude.{◌≡◌, ℕ, List, IfOk, Some, true};
ghost use Rattle.cv_syntax_trees.specs.Tree.{Tree};
ghost use Rattle.cv_syntax_trees.specs.sites.Sites.{sites_of};
ghost use Rattle.cv_directory.specs.Tables.{seen};
ghost use Rattle.cv_scope_rules.specs.Phrases.{Inputs, is_phrase};
ghost use Rattle.cv_scene.specs.Contexts as contexts;
ghost use Rattle.cv_scene.specs.Refusals.{new_of};
ghost use Rattle.cv_context.specs.products.Products.{parameters_by};

use cv_directory::Directory;
use std::alloc::{AllocError, Global};

/// The parameters of the replications above the first definition of a variable, outermost first. Where the variable is the key of
/// an equivalence in a game, this definition is its only one, a `new`: so often keys are chosen.
pub fn keys_of(alloc: Global, directory: &Directory, key: u32) -> Result<Vec<u32>, AllocError>
    ensures first { IfOk result (λ ns. ns.items
        ≡ parameters_by ((seen directory.now).variable key)) }
    ensures only { (game : Tree) (definition : ℕ × List (ℕ × ℕ)) → is_phrase Inputs game ≡ true
        → seen directory.now ≡ sites_of game → new_of game key ≡ Some definition
        → IfOk result (λ ns. ns.items ≡ contexts.parameters_of definition.1) }
{
    let mut parameters = Vec::new(alloc);
    let mut k = 0;
    'parameters: while let Some(n) = directory.parameter(key, k) {
        parameters.push(n)?;
        k += 1;
    }
    Ok(parameters)
}
