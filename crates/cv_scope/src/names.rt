ghost use Rattle.std.specs.Prelude.{◌≡◌, ◌<◌, ◌^◌, ◌||◌, ◌==◌, ℕ, All, length, Some, IfOk, OnOk, option_and_then, slice_get};
ghost use Rattle.cv_meaning.specs.Interpretation.{is_constant_of};
ghost use Rattle.cv_pool.specs.Nodes.{ChildBelow};
ghost use Rattle.cv_syntax.specs.Declarations.{declarations, declared};
ghost use Rattle.cv_syntax.specs.PoolTrees.{tree_at};
ghost use Rattle.cv_syntax_trees.specs.sites.Sites.{sites_of};
ghost use Rattle.cv_directory.specs.Tables.{seen};
ghost use Rattle.cv_directory.specs.Live.{IsLive};
ghost use Rattle.cv_scope.specs.Held.{constant_by, has_constant, is_here, names_held};
ghost use Rattle.cv_scope_rules.specs.Scope.{names_of};

use cv_directory::Directory;
use cv_syntax::children::read_child;
use cv_syntax::{Class, Decl, Decls, NodeId, Pool};
use std::alloc::{AllocError, Global};
use std::collections::HashMap;

/// Which names are constants, and which are variables of a game: with types, or keys and results of calls.
#[derive(Drop)]
pub struct NameKinds {
    constants: HashMap<u32, bool>,
    sites: Directory,
}

impl NameKinds {
    /// The directory of the game.
    pub fn into_directory(self) -> Directory
        ensures { result ≡ self.sites }
    {
        let NameKinds { sites, .. } = self;
        sites
    }

    /// Whether a name is a constant.
    pub fn is_constant(&self, x: u32) -> bool
        ensures { result ≡ (names_held self.now).constant x }
    {
        self.constants.contains_key(&x)
    }

    /// Whether a name is a variable.
    pub fn is_variable(&self, x: u32) -> bool
        ensures { result ≡ (names_held self.now).variable x }
    {
        self.sites.sort(x).is_some() || self.sites.is_untyped(x)
    }

    /// The constants of declarations, and the variables of a game with this directory.
    pub fn of(
        alloc: Global,
        pool: &Pool,
        decls: &Decls,
        root: NodeId,
        sites: Directory,
    ) -> Result<NameKinds, AllocError>
        requires live { root.0 < length pool.now.trees }
        requires declared { All (IsLive (length pool.now.trees)) decls.now.list }
        requires sites { seen sites ≡ sites_of (tree_at pool.now.trees (Some root)) }
        ensures names { IfOk result (λ n. names_held n
            ≡ names_of (declarations pool.now.trees decls.now.list)
            (tree_at pool.now.trees (Some root))) }
        ensures sites { IfOk result (λ n. n.sites ≡ sites) }
    {
        let mut names = NameKinds {
            constants: HashMap::new(alloc),
            sites,
        };
        names.note_constants(pool, decls)?;
        Ok(names)
    }

    /// Notes the constants of declarations.
    fn note_constants(&mut self, pool: &Pool, decls: &Decls) -> Result<(), AllocError>
        requires { All (IsLive (length pool.now.trees)) decls.now.list }
        ensures constants { OnOk result
            ((x : ℕ) → (names_held self.new).constant x
            ≡ ((names_held self.old).constant x || has_constant pool.now.trees decls.now.list x)) }
        ensures sites { OnOk result (self.new.sites ≡ self.old.sites) }
    {
        for k in 0..decls.len() {
            self.note(constant_at(pool, decls, k))?;
        }
        Ok(())
    }

    /// Notes a constant, where there is one.
    fn note(&mut self, constant: Option<u32>) -> Result<(), AllocError>
        ensures constant { OnOk result ((x : ℕ)
            → (names_held self.new).constant x
            ≡ ((names_held self.old).constant x || is_here constant x)) }
        ensures sites { OnOk result (self.new.sites ≡ self.old.sites) }
    {
        if let Some(x) = constant {
            self.constants.insert(x, true)?;
        }
        Ok(())
    }
}

/// The constant that the declaration at a place declares.
fn constant_at(pool: &Pool, decls: &Decls, k: u32) -> Option<u32>
    requires { All (IsLive (length pool.now.trees)) decls.now.list }
    ensures { result ≡ option_and_then
        (λ d. constant_by (declared pool.now.trees d)) (slice_get decls.now.list k) }
{
    match decls.get(k) {
        Some(decl) => constant_of(pool, decl),
        None => None,
    }
}

/// The constant that a declaration declares.
fn constant_of(pool: &Pool, decl: &Decl) -> Option<u32>
    requires { IsLive (length pool.now.trees) decl.now }
    ensures { result ≡ constant_by (declared pool.now.trees decl.now) }
{
    let Decl::Name {
        id,
        class: Class::Fun { .. },
        args,
        ..
    } = decl
    else {
        return None;
    };
    match read_child(pool, *args) {
        Some(_) => None,
        None => Some(id.0),
    }
}
