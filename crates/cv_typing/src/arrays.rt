ghost use Rattle.std.specs.Prelude.{◌≡◌, ◌<◌, ◌^◌, ◌+◌, length, drop, slice_get, option_map, option_and_then, OnOk, OnSome};
ghost use Rattle.cv_pool.specs.Nodes.{ChildBelow};
ghost use Rattle.cv_syntax.specs.PoolTrees.{tree_at};
ghost use Rattle.cv_syntax_trees.specs.sites.Sites.{Variable};
ghost use Rattle.cv_scope_rules.specs.typing.Parts.{in_function};
ghost use Rattle.cv_scope_rules.specs.typing.Signature.{defined_sort, index_in, variable_in, variable_sort as sort_of_variable};
ghost use Rattle.cv_typing.specs.Tables.{arrays_of, directory_in};

use crate::locals::{Locals, own_names};
use cv_directory::Directory;
use cv_syntax::{NodeId, Pool};
use cv_syntax_trees::sites::Sort;
use std::alloc::{AllocError, Global};
use std::collections::HashMap;

/// What is read at indices, and what definitions say of names.
#[derive(Drop)]
pub enum Arrays {
    /// The variables of a game.
    OfGame(Directory),
    /// On a side of an equivalence, what the function with a bound binds, and what that function binds whose body this is.
    OfSide(Locals, HashMap<u32, Sort>),
    /// Nothing, in equations and queries.
    OfNothing,
}

impl Arrays {
    /// The directory of a game, where these are its variables.
    pub fn into_directory(self) -> Option<Directory>
        ensures { result ≡ directory_in self }
    {
        match self {
            Arrays::OfGame(sites) => Some(sites),
            Arrays::OfSide(_locals, _own) => None,
            Arrays::OfNothing => None,
        }
    }

    /// On a side, goes to the body of a function.
    pub fn enter(
        &mut self,
        alloc: Global,
        pool: &Pool,
        function: Option<NodeId>,
    ) -> Result<(), AllocError>
        requires { ChildBelow (length pool.now.trees) function }
        ensures { OnOk result (arrays_of self.new
            ≡ in_function (arrays_of self.old) (tree_at pool.now.trees function)) }
    {
        if let Arrays::OfSide(_, own) = self {
            *own = own_names(alloc, pool, function)?;
        }
        Ok(())
    }

    /// The sort of a game's variable.
    pub fn variable_sort(&self, x: u32) -> Option<Sort>
        ensures { result ≡ sort_of_variable (arrays_of self.now) x }
    {
        match self {
            Arrays::OfGame(sites) => sites.sort(x),
            Arrays::OfSide(_, _) => None,
            Arrays::OfNothing => None,
        }
    }

    /// The sort that definitions give a name.
    pub fn sort(&self, x: u32) -> Option<Sort>
        ensures { result ≡ defined_sort (arrays_of self.now) x }
    {
        match self {
            Arrays::OfGame(sites) => sites.sort(x),
            Arrays::OfSide(_, own) => own.get(&x).copied(),
            Arrays::OfNothing => None,
        }
    }

    /// How many indices a game's variable has.
    pub fn arity(&self, x: u32) -> Option<usize>
        ensures { result ≡ option_map (λ (v : Variable). length v.parameters)
            (variable_in (arrays_of self.now) x) }
    {
        match self {
            Arrays::OfGame(sites) => sites.arity(x),
            Arrays::OfSide(_, _) => None,
            Arrays::OfNothing => None,
        }
    }

    /// The parameter of an index of a game's variable, counted from 0.
    pub fn parameter(&self, x: u32, k: usize) -> Option<u32>
        ensures bound { OnSome result (k + 1 < 2 ^ 64) }
        ensures parameter { result ≡ option_and_then
            (λ (v : Variable). slice_get v.parameters k) (variable_in (arrays_of self.now) x) }
    {
        match self {
            Arrays::OfGame(sites) => sites.parameter(x, k),
            Arrays::OfSide(_, _) => None,
            Arrays::OfNothing => None,
        }
    }

    /// The parameter of an index of a game that no replication above binds.
    pub fn index(&self, i: u32) -> Option<u32>
        ensures { result ≡ index_in (arrays_of self.now) i }
    {
        match self {
            Arrays::OfGame(sites) => sites.index(i),
            Arrays::OfSide(_, _) => None,
            Arrays::OfNothing => None,
        }
    }
}
