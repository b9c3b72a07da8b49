ghost use Rattle.std.specs.Prelude.{◌≡◌, ◌<◌, ◌^◌, Some, length};
ghost use Rattle.cv_pool.specs.Nodes.{ChildBelow};
ghost use Rattle.cv_syntax_trees.specs.Tree.{Empty, Node, same_tree, size};
ghost use Rattle.cv_syntax.specs.PoolTrees.{tree_at};
ghost use Rattle.cv_syntax_trees.specs.declared.head.Head.TheVariants.{Not};
ghost use Rattle.cv_scope_rules.specs.Above.{stands_at};
ghost use Rattle.cv_scene.specs.Reasons.{is_tree};
ghost use Rattle.cv_scene.specs.Sights.{from_one};
ghost use Rattle.cv_scene.specs.Terms.{replications_by};
ghost use Rattle.cv_derive_facts.specs.Facts.{equation_of, fact_of, term_of};
ghost use Rattle.cv_derive_facts.specs.Walks.{node_of};
ghost use Rattle.cv_derive_reasons.specs.substitution.Under.{under};
ghost use Rattle.cv_derive_reasons.specs.sizes.Sizes.{AreSizes};
ghost use Rattle.cv_derive.specs.Standing.{facts_under};

use crate::known::fact;
use cv_derive_facts::Fact;
use cv_derive_reasons::cells::{front, is_cell_under};
use cv_derive_reasons::inferences::sides;
use cv_derive_reasons::sizes::Sizes;
use cv_derive_reasons::substitution::same_under;
use cv_syntax::children::is_empty;
use cv_syntax::{Game, Head, NodeId, Pool, Work, read_node};

/// Whether a term is the equation of a `let` below replications, with terms for names.
#[tactic(auto, using(crate::proofs::Patterns::patterns))]
fn is_equation_under(
    pool: &Pool,
    term: Option<NodeId>,
    definition: NodeId,
    replications: &[(u32, u32)],
    names: &[(u32, u32)],
    terms: Option<NodeId>,
) -> bool
    requires term { ChildBelow (length pool.now.trees) term }
    requires terms { ChildBelow (length pool.now.trees) terms }
    requires definition { definition.0 < length pool.now.trees }
    ensures { result ≡ same_tree (tree_at pool.now.trees term)
        (under names.now (tree_at pool.now.trees terms)
        (equation_of replications.now (tree_at pool.now.trees (Some definition)))) }
{
    let node = read_node(pool, definition);
    let Head::Let(x, _) = node.head else {
        return is_empty(pool, term);
    };
    let Some((left, right)) = sides(pool, Head::Eq, term) else {
        return false;
    };
    is_cell_under(pool, left, x, replications, names, terms)
        && same_under(pool, right, node.first, names, terms)
}

/// Whether a term says that a condition doesn't hold, with terms for names.
#[tactic(auto, using(crate::proofs::Patterns::patterns))]
fn is_denial_under(
    pool: &Pool,
    term: Option<NodeId>,
    condition: NodeId,
    names: &[(u32, u32)],
    terms: Option<NodeId>,
) -> bool
    requires term { ChildBelow (length pool.now.trees) term }
    requires terms { ChildBelow (length pool.now.trees) terms }
    requires condition { condition.0 < length pool.now.trees }
    ensures { result ≡ same_tree (tree_at pool.now.trees term)
        (under names.now (tree_at pool.now.trees terms)
        (Node Not (tree_at pool.now.trees (Some condition)) Empty)) }
{
    let Some((denied, rest)) = sides(pool, Head::Not, term) else {
        return false;
    };
    same_under(pool, denied, Some(condition), names, terms) && is_empty(pool, rest)
}

/// Whether a term is what a fact says below replications, with terms for names.
#[tactic(auto, using(crate::proofs::Patterns::patterns))]
fn says(
    pool: &Pool,
    term: Option<NodeId>,
    known: Fact,
    replications: &[(u32, u32)],
    names: &[(u32, u32)],
    terms: Option<NodeId>,
) -> bool
    requires term { ChildBelow (length pool.now.trees) term }
    requires terms { ChildBelow (length pool.now.trees) terms }
    requires known { node_of known < length pool.now.trees }
    ensures { result ≡ same_tree (tree_at pool.now.trees term)
        (under names.now (tree_at pool.now.trees terms)
        (term_of replications.now (fact_of pool.now.trees known))) }
{
    match known {
        Fact::Defines { definition, above } => is_equation_under(
            pool,
            term,
            definition,
            front(replications, above),
            names,
            terms,
        ),
        Fact::Holds(condition) => same_under(pool, term, Some(condition), names, terms),
        Fact::Fails(condition) => is_denial_under(pool, term, condition, names, terms),
    }
}

/// Whether a term is the fact of this number at a place of a game, with terms for names. The replications are those above the
/// place.
pub(crate) fn is_fact_under(
    work: &Work,
    sizes: &Sizes,
    game: Game,
    place: u32,
    replications: &[(u32, u32)],
    names: &[(u32, u32)],
    terms: Option<NodeId>,
    k: u32,
    term: Option<NodeId>,
) -> bool
    requires live { game.root.0 < length work.now.pool.trees }
    requires fits { size (tree_at work.now.pool.trees (Some game.root)) < 2 ^ 32 }
    requires sizes { AreSizes work.now.pool.trees sizes.now }
    requires replications { replications_by
        (stands_at (tree_at work.now.pool.trees (Some game.root)) place) ≡ replications.now }
    requires terms { ChildBelow (length work.now.pool.trees) terms }
    requires term { ChildBelow (length work.now.pool.trees) term }
    ensures { result ≡ is_tree (from_one (facts_under
        (tree_at work.now.pool.trees (Some game.root)) place names.now
        (tree_at work.now.pool.trees terms)) k) (tree_at work.now.pool.trees term) }
{
    if k == 0 {
        return false;
    }
    match fact(&work.pool, sizes, game, place, k) {
        Some(known) => says(&work.pool, term, known, replications, names, terms),
        None => false,
    }
}
