ghost use Rattle.std.specs.Prelude.{◌≡◌, ◌+◌, ◌<◌, ◌≤◌, ◌^◌, ◌++◌, ◌∷◌, [], ℕ, List, All, map, flat_map, length, Some, IfOk, IfErr, OnOk};
ghost use Rattle.std.specs.List.{AllByRecursion};
ghost use Rattle.cv_pool.specs.Nodes.{ChildBelow};
ghost use Rattle.cv_parse_grammar.specs.Identities.{AreDistinct};
ghost use Rattle.cv_syntax.specs.Planting.{overs};
ghost use Rattle.cv_syntax.specs.Postorder.{postorder};
ghost use Rattle.cv_syntax_trees.specs.Tree.{Tree, size};
ghost use Rattle.cv_syntax.specs.PoolTrees.{tree_at};
ghost use Rattle.cv_parse.specs.Building.{Builds, Crowds, IsBuilt};
ghost use Rattle.cv_parse.specs.Declaring.{IsBelow, IsNameable, all_decls, bool_decl, names_by};
ghost use Rattle.cv_parse.specs.Weights.{asked as asked_for, parts_weight as weight_in};

use crate::declaring::declare_all;
use crate::error::ParseError;
use crate::weights::{asked, parts_weight};
use cv_parse_declarations::Reading;
use cv_parse_declarations::signature::Heard;
use cv_syntax::{BuildError, Class, Decl, Decls, Make, NameId, NodeId, Pool, plant};
use std::alloc::{AllocError, Global};

/// How many parts of trees are too many to be counted.
const TOO_MANY: u64 = 4_294_967_294;

/// Makes the trees of a list, where the pool has room for four times their weight. A list that is too long to
/// be counted is want of memory, and so is a pool without room for the trees themselves.
#[tactic(auto, using(crate::proofs::Builds::buildings))]
fn planted(
    alloc: Global,
    pool: &mut Pool,
    makes: &[Make],
) -> Result<Vec<Option<NodeId>>, ParseError>
    ensures back { (ts : List Tree) → makes.now ≡ flat_map postorder ts
        → IfOk result (λ ids. map (tree_at pool.new.trees) ids.items ≡ ts) }
    ensures live { IfOk result (λ ids. All (ChildBelow (length pool.new.trees)) ids.items) }
    ensures few { OnOk result (length makes.now < 4294967294) }
    ensures nodes { length pool.new.trees ≤ length pool.old.trees + overs makes.now }
    ensures limit { pool.new.limit ≡ pool.old.limit }
    ensures room { OnOk result (length pool.old.trees + asked_for (weight_in makes.now)
        ≤ pool.old.limit) }
    ensures crowds { IfErr result (λ e. Crowds pool.old.limit (length pool.old.trees)
        (asked_for (weight_in makes.now)) e) }
{
    if makes.len() as u64 >= TOO_MANY {
        return Err(ParseError::Build(BuildError::OutOfMemory));
    }
    pool.reserve(asked(parts_weight(makes)))?;
    match plant(alloc, pool, makes) {
        Ok(roots) => Ok(roots),
        Err(_) => Err(ParseError::Build(BuildError::OutOfMemory)),
    }
}

/// Declares `bool`, and behind it all that was heard.
fn declare(decls: &mut Decls, heard: &[Heard], roots: &[Option<NodeId>]) -> Result<(), AllocError>
    requires empty { decls.old.list ≡ [] }
    requires few { length heard.now + 2 < 2 ^ 32 }
    requires rooted { length heard.now ≤ length roots.now }
    requires named { AllByRecursion IsNameable heard.now }
    requires distinct { AreDistinct (0 ∷ flat_map names_by heard.now) }
    ensures list { OnOk result (decls.new.list ≡ bool_decl ∷ all_decls heard.now roots.now) }
    ensures own { decls.new.own ≡ decls.old.own }
{
    decls.add(Decl::Name {
        id: NameId(0),
        class: Class::TypeName {
            fixed: true,
            large: false,
        },
        args: None,
        result: None,
    })?;
    declare_all(decls, heard, roots)
}

/// Builds the trees of what was read, and declares what was heard. The last tree is the game.
pub fn build(
    alloc: Global,
    pool: &mut Pool,
    decls: &mut Decls,
    reading: &Reading,
    makes: &[Make],
) -> Result<NodeId, ParseError>
    requires empty { decls.old.list ≡ [] }
    requires builds { Builds reading.now makes.now }
    ensures built { (b : Builds reading.now makes.now)
        → IfOk result (λ root. IsBuilt b.file pool.new.trees decls.new.list root) }
    ensures live { IfOk result (λ root. root.0 < length pool.new.trees) }
    ensures below { OnOk result (All (IsBelow (length pool.new.trees)) decls.new.list) }
    ensures nodes { length pool.new.trees ≤ length pool.old.trees + overs makes.now }
    ensures limit { pool.new.limit ≡ pool.old.limit }
    ensures room { OnOk result (length pool.old.trees + asked_for (weight_in makes.now)
        ≤ pool.old.limit) }
    ensures crowds { IfErr result (λ e. Crowds pool.old.limit (length pool.old.trees)
        (asked_for (weight_in makes.now)) e) }
    ensures own { decls.new.own ≡ decls.old.own }
{
    let made = planted(alloc, pool, makes)?;
    let heard: &[Heard] = &reading.heard;
    let roots: &[Option<NodeId>] = &made;
    let Some(root) = roots[heard.len()] else {
        return Err(ParseError::Build(BuildError::OutOfMemory));
    };
    declare(decls, heard, roots)?;
    Ok(root)
}
