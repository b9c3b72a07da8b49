ghost use Rattle.std.specs.Prelude.{◌≡◌, ◌<◌, All, length};
ghost use Rattle.cv_pool.specs.Nodes.{ChildBelow};
ghost use Rattle.cv_syntax.specs.PoolTrees.{tree_at};
ghost use Rattle.cv_directory.specs.Live.{IsLive};
ghost use Rattle.cv_scene.specs.lines.Inferences.{number_of};
ghost use Rattle.cv_scene.specs.Reasons as reasons;
ghost use Rattle.cv_scene.specs.Reasons.{equations_in};
ghost use Rattle.cv_scene.specs.Sights.{Sight, from_one};
ghost use Rattle.cv_derive_lines.specs.terms.Typed.{IsSightOf};

use crate::citing::number;
use crate::terms::typing::is_term_of;
use cv_derive_reasons::substitution::same_instance;
use cv_syntax::children::is_empty;
use cv_syntax::{Head, NodeId, Work, read_node};
use cv_syntax_trees::sites::Sort;
use cv_typing::Arrays;
use std::collections::HashMap;

/// Whether each term of a list is one of the type of the binder at its place.
fn are_of_types(
    work: &Work,
    arrays: &Arrays,
    above: &HashMap<u32, Sort>,
    binders: Option<NodeId>,
    terms: Option<NodeId>,
) -> bool
    requires declared { All (IsLive (length work.now.pool.trees)) work.now.decls.list }
    requires binders { ChildBelow (length work.now.pool.trees) binders }
    requires terms { ChildBelow (length work.now.pool.trees) terms }
    ensures { (s : Sight)
        → IsSightOf work.now.pool.trees work.now.decls.list arrays.now above.now s
        → result ≡ reasons.are_of_types s (tree_at work.now.pool.trees binders)
        (tree_at work.now.pool.trees terms) }
{
    let mut at = binders;
    let mut behind = terms;
    'binders: while let Some(k) = at {
        let cell = read_node(&work.pool, k);
        let Head::Binder(_, t) = cell.head else {
            return false;
        };
        let Some(j) = behind else {
            return false;
        };
        let term = read_node(&work.pool, j);
        if !is_term_of(work, arrays, above, Sort::OfType(t), term.first) {
            return false;
        }
        at = cell.second;
        behind = term.second;
    }
    is_empty(&work.pool, behind)
}

/// Whether a term is an instance of the equation of the file that a number names, by terms that are of the types of its
/// variables.
pub fn is_instance(
    work: &Work,
    arrays: &Arrays,
    above: &HashMap<u32, Sort>,
    cited_equation: Option<NodeId>,
    terms: Option<NodeId>,
    term: Option<NodeId>,
) -> bool
    requires declared { All (IsLive (length work.now.pool.trees)) work.now.decls.list }
    requires cited_equation { ChildBelow (length work.now.pool.trees) cited_equation }
    requires terms { ChildBelow (length work.now.pool.trees) terms }
    requires term { ChildBelow (length work.now.pool.trees) term }
    ensures { (s : Sight)
        → IsSightOf work.now.pool.trees work.now.decls.list arrays.now above.now s
        → result ≡ reasons.is_instance s (from_one (equations_in s.scene.declarations)
        (number_of (tree_at work.now.pool.trees cited_equation)))
        (tree_at work.now.pool.trees terms) (tree_at work.now.pool.trees term) }
{
    let k = number(&work.pool, cited_equation);
    let Some(tree) = work.decls.equation(k) else {
        return false;
    };
    let equation = read_node(&work.pool, tree);
    if !are_of_types(work, arrays, above, equation.first, terms) {
        return false;
    }
    same_instance(&work.pool, term, equation.second, equation.first, terms)
}
