ghost use Rattle.std.specs.Prelude.{◌≡◌, ◌∷◌, ◌++◌, [], IfOk, length, map};
ghost use Rattle.cv_pool.specs.Nodes.{ChildBelow};
ghost use Rattle.cv_syntax.specs.PoolTrees.{tree_at};
ghost use Rattle.cv_meaning.specs.Correspondences.{typed_names};
ghost use Rattle.cv_inline.specs.Draws.{argument_draws};
ghost use Rattle.cv_meaning.specs.contexts.Roles as roles;
ghost use Rattle.cv_inline_sites.specs.listing.Listed.{draw_in, variable_draw};

use cv_inline::terms::Index;
use cv_syntax::{Head, NodeId, Pool, read_node};
use std::alloc::AllocError;

/// What a name is drawn for: the key, a name that a site binds, or an index of a find.
#[derive(Clone, Copy, Debug, PartialEq, Eq, Hash)]
pub enum Role {
    Key,
    Variable { site: u32, name: u32 },
    OfFind(Index),
}

/// A name that is drawn: what for, and from which name.
#[derive(Clone, Copy, Debug)]
pub struct Draw {
    pub role: Role,
    pub base: u32,
}

/// Adds the draw for a name that a site binds.
pub fn add_variable(draws: &mut Vec<Draw>, site: u32, name: u32) -> Result<(), AllocError>
    ensures { IfOk result (λ _. map draw_in draws.new.items
        ≡ map draw_in draws.old.items ++ variable_draw site name ∷ []) }
{
    draws.push(Draw {
        role: Role::Variable { site, name },
        base: name,
    })?;
    Ok(())
}

/// Adds the draws for the arguments of a site.
pub fn add_arguments(
    pool: &Pool,
    draws: &mut Vec<Draw>,
    site: u32,
    binders: Option<NodeId>,
) -> Result<(), AllocError>
    requires { ChildBelow (length pool.now.trees) binders }
    ensures { IfOk result (λ _. map draw_in draws.new.items ≡ map draw_in draws.old.items
        ++ argument_draws site (typed_names (tree_at pool.now.trees binders))) }
{
    let mut at = binders;
    'binders: while let Some(n) = at {
        let node = read_node(pool, n);
        let Head::Binder(x, _) = node.head else {
            return Ok(());
        };
        add_variable(draws, site, x)?;
        at = node.second;
    }
    Ok(())
}
