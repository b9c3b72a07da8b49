ghost use Rattle.std.specs.Prelude.{◌≡◌, ℕ, List, ◌∷◌, ◌<◌, ◌++◌, All, OnOk, [], map};
ghost use Rattle.cv_pool.specs.KindTree.{KindTree};
ghost use Rattle.cv_pool.specs.Nodes.{ChildBelow};
ghost use Rattle.cv_scene.specs.Instances.{Matching};
ghost use Rattle.cv_match_terms.specs.patterns.Sites.{HasInstance, IsInstanceIn, IsLiveSite, found_call, found_site, site_in};

use cv_syntax::NodeId;
use std::alloc::{AllocError, Global};

/// A function of which a term is an instance, by position and by node.
#[derive(Clone, Copy)]
pub struct Found {
    pub position: u32,
    pub function: Option<NodeId>,
}

/// The nodes of the terms that stand for the names of a function: for the key, and for each coin and each argument in their
/// order. A node is missing only where the body doesn't read the name.
#[derive(Drop)]
pub struct Instance {
    pub key: Option<NodeId>,
    pub coins: Vec<Option<NodeId>>,
    pub arguments: Vec<Option<NodeId>>,
}

/// An instance, by the place of its term, with the function of which the term is an instance.
#[derive(Drop)]
pub struct Site {
    pub place: u32,
    /// The position of the function on the left side, from 0.
    pub function: u32,
    pub term: NodeId,
    /// The node of the function.
    pub pattern: Option<NodeId>,
    /// The indices of the replications above the term with their parameters, outermost first.
    pub replications: Vec<(u32, u32)>,
    pub instance: Instance,
}

/// Notes a site below replications.
pub fn note_site(
    alloc: Global,
    sites: &mut Vec<Site>,
    passed: &[(u32, u32)],
    place: u32,
    term: NodeId,
    found: Found,
    instance: Instance,
) -> Result<(), AllocError>
    ensures noted { (trees : List KindTree) (M : Matching)
        → OnOk result (map (site_in trees M) sites.new.items
        ≡ map (site_in trees M) sites.old.items
        ++ found_site trees M place passed.now term found ∷ []) }
    ensures live { (n : ℕ) → All (IsLiveSite n) sites.old.items → term.0 < n
        → ChildBelow n found.function → OnOk result (All (IsLiveSite n) sites.new.items) }
    ensures instances { (trees : List KindTree) (M : Matching)
        → All (HasInstance trees M) sites.old.items
        → IsInstanceIn trees (found_call trees M term found).instance instance
        → OnOk result (All (HasInstance trees M) sites.new.items) }
{
    let replications = Vec::from_slice(alloc, passed)?;
    sites.push(Site {
        place,
        function: found.position,
        term,
        pattern: found.function,
        replications,
        instance,
    })?;
    Ok(())
}
