ghost use Rattle.std.specs.Prelude.{◌≡◌, ◌<◌, ◌^◌, Some, length};
ghost use Rattle.std.specs.List.{list_any};
ghost use Rattle.cv_pool.specs.Nodes.{ChildBelow};
ghost use Rattle.cv_syntax.specs.Declarations.{declarations};
ghost use Rattle.cv_syntax_trees.specs.Tree.{same_tree, size};
ghost use Rattle.cv_syntax.specs.PoolTrees.{tree_at};
ghost use Rattle.cv_directory.specs.Definitions.{entries_of, large_in};
ghost use Rattle.cv_directory.specs.Tables.{entries_in};
ghost use Rattle.cv_scope_rules.specs.Context.{Context};
ghost use Rattle.cv_scope_rules.specs.Phrases.{IsWellFormed};
ghost use Rattle.cv_scene.specs.Reasons.{is_tree};
ghost use Rattle.cv_scene.specs.Sights.{at_site, from_one};
ghost use Rattle.cv_derive_reasons.specs.sizes.Sizes.{AreSizes};
ghost use Rattle.cv_derive.specs.Sites.{IsSite, site_in};

use crate::defined::is_defined_under;
use crate::facts::is_fact_under;
use arrayvec::ArrayVec;
use cv_derive_facts::behind;
use cv_derive_reasons::cells::{only_definition, replications_of, variable};
use cv_derive_reasons::sizes::Sizes;
use cv_directory::Directory;
use cv_syntax::children::first_of;
use cv_syntax::{Game, NodeId, Work};

/// The place of the process behind the only definition of a variable, and the replications above it.
#[derive(Drop)]
struct Site {
    place: u32,
    replications: ArrayVec<(u32, u32), 8>,
}

/// The site of the variable of a cell, where there is one definition of it. The process is looked for from the definition's own
/// node on, so that nothing before it is counted.
fn site_of(work: &Work, game: Game, directory: &Directory, cell: Option<NodeId>) -> Option<Site>
    requires live { game.root.0 < length work.now.pool.trees }
    requires fits { size (tree_at work.now.pool.trees (Some game.root)) < 2 ^ 32 }
    requires formed { IsWellFormed (declarations work.now.pool.trees work.now.decls.list)
        (tree_at work.now.pool.trees (Some game.root)) }
    requires entries { entries_in work.now.pool.trees directory.now
        ≡ entries_of (large_in work.now.decls.list) (tree_at work.now.pool.trees (Some game.root)) }
    requires cell { ChildBelow (length work.now.pool.trees) cell }
    ensures { IsSite (tree_at work.now.pool.trees (Some game.root))
        (site_in (tree_at work.now.pool.trees (Some game.root))
        (tree_at work.now.pool.trees cell)) result }
{
    let x = variable(&work.pool, cell)?;
    let Some(definition) = only_definition(directory, x) else {
        return None;
    };
    let root = directory.node(x)?;
    let within = behind(work, Game { root }, 0)?;
    Some(Site {
        place: definition + within,
        replications: replications_of(directory, x),
    })
}

/// Whether a term is the fact of this number at the site of a cell's variable, with the cell's index terms for the indices.
pub(crate) fn is_site_fact(
    work: &Work,
    sizes: &Sizes,
    game: Game,
    directory: &Directory,
    cell: Option<NodeId>,
    k: u32,
    term: Option<NodeId>,
) -> bool
    requires live { game.root.0 < length work.now.pool.trees }
    requires fits { size (tree_at work.now.pool.trees (Some game.root)) < 2 ^ 32 }
    requires sizes { AreSizes work.now.pool.trees sizes.now }
    requires formed { IsWellFormed (declarations work.now.pool.trees work.now.decls.list)
        (tree_at work.now.pool.trees (Some game.root)) }
    requires entries { entries_in work.now.pool.trees directory.now
        ≡ entries_of (large_in work.now.decls.list) (tree_at work.now.pool.trees (Some game.root)) }
    requires cell { ChildBelow (length work.now.pool.trees) cell }
    requires term { ChildBelow (length work.now.pool.trees) term }
    ensures { result ≡ is_tree (from_one (at_site (λ (Γ : Context). Γ.facts)
        (tree_at work.now.pool.trees cell)
        (site_in (tree_at work.now.pool.trees (Some game.root))
        (tree_at work.now.pool.trees cell))) k) (tree_at work.now.pool.trees term) }
{
    let Some(site) = site_of(work, game, directory, cell) else {
        return false;
    };
    let indices = site.replications.as_slice();
    let terms = first_of(&work.pool, cell);
    is_fact_under(
        work, sizes, game, site.place, indices, indices, terms, k, term,
    )
}

/// Whether a cell is directly defined at the site of another cell's variable, with that cell's index terms for the indices.
pub(crate) fn is_site_cell(
    work: &Work,
    sizes: &Sizes,
    game: Game,
    directory: &Directory,
    cell: Option<NodeId>,
    defined: Option<NodeId>,
) -> bool
    requires live { game.root.0 < length work.now.pool.trees }
    requires fits { size (tree_at work.now.pool.trees (Some game.root)) < 2 ^ 32 }
    requires sizes { AreSizes work.now.pool.trees sizes.now }
    requires formed { IsWellFormed (declarations work.now.pool.trees work.now.decls.list)
        (tree_at work.now.pool.trees (Some game.root)) }
    requires entries { entries_in work.now.pool.trees directory.now
        ≡ entries_of (large_in work.now.decls.list) (tree_at work.now.pool.trees (Some game.root)) }
    requires cell { ChildBelow (length work.now.pool.trees) cell }
    requires defined { ChildBelow (length work.now.pool.trees) defined }
    ensures { result ≡ list_any (same_tree (tree_at work.now.pool.trees defined))
        (at_site (λ (Γ : Context). Γ.cells) (tree_at work.now.pool.trees cell)
        (site_in (tree_at work.now.pool.trees (Some game.root))
        (tree_at work.now.pool.trees cell))) }
{
    let Some(site) = site_of(work, game, directory, cell) else {
        return false;
    };
    let indices = site.replications.as_slice();
    let terms = first_of(&work.pool, cell);
    is_defined_under(
        work, sizes, game, site.place, indices, indices, terms, defined,
    )
}
