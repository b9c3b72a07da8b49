ghost use Rattle.std.specs.Prelude.{ℕ, ◌↔◌, All, Some, None, ◌≡◌, ◌≢◌, ◌+◌, ◌<◌, ◌≤◌, ◌^◌, ◌++◌, ◌∷◌, [], length, option_and_then, take, slice_get, OnOk, OnErr};
ghost use Rattle.std.specs.Option.{option_copied};
ghost use Rattle.cv_syntax_trees.specs.Tree.{name_at};
ghost use Rattle.cv_syntax.specs.Classes.{DeclsView, id_of, declaration_in, class_by, class_in, result_in, args_in, equiv_in, equations, queries, query_of, from_one, IsNamed, IsNew};
ghost use Rattle.cv_syntax.specs.Declarations.{number};
ghost use Rattle.cv_pool.specs.Nodes.{ChildBelow};
ghost use Rattle.cv_syntax.specs.PoolTrees.{tree_at};

use crate::open::read_node;
use cv_pool::names::NameId;
use cv_pool::{NodeId, Pool};
use cv_syntax_trees::{Class, Head};
use std::alloc::{AllocError, Global};
use std::marker::Model;

/// A declaration. Arguments are a list of the names of types.
#[derive(Clone, Copy, Debug)]
pub enum Decl {
    Name {
        id: NameId,
        class: Class,
        args: Option<NodeId>,
        result: Option<NameId>,
    },
    Equation(NodeId),
    Equiv {
        id: NameId,
        tree: NodeId,
    },
    Query(NodeId),
}

impl Decl {
    /// The name that is declared.
    fn id(&self) -> Option<NameId>
        ensures { number result ≡ id_of self.now }
    {
        match self {
            Decl::Name { id, .. } => Some(*id),
            Decl::Equiv { id, .. } => Some(*id),
            Decl::Equation(_) => None,
            Decl::Query(_) => None,
        }
    }
}

/// What a declaration makes of its name.
fn class_of(decl: Option<&Decl>) -> Class
    ensures { result ≡ class_by (option_copied decl.entry) }
{
    match decl {
        Some(Decl::Name { class, .. }) => *class,
        Some(Decl::Equiv { .. }) => Class::Equiv,
        _ => Class::Free,
    }
}

/// Declarations in order, no name twice, and how many names are a file's own.
#[derive(Drop)]
pub struct Decls {
    list: Vec<Decl>,
    /// Places in the list, by the numbers of names; of a name that is not declared any place.
    index: Vec<u32>,
    own: u32,
}

impl Model for Decls {
    ghost use Rattle.std.specs.Prelude.{All, length, ◌<◌, ◌^◌};
    ghost use Rattle.cv_syntax.specs.Classes.{DeclsView, IsIndexed, IsNamed};

    ghost Value = { DeclsView };

    ghost view = { λ d. record { list = d.list.items; own = d.own } };

    ghost invariant = { λ d. IsIndexed d.list.items d.index.items × (length d.list.items < 2 ^ 32) × All IsNamed d.list.items };
}

impl Decls {
    /// No declarations.
    pub fn new(alloc: Global) -> Decls
        ensures { result ≡ record { list = []; own = 0 } }
    {
        Decls {
            list: Vec::new(alloc),
            index: Vec::new(alloc),
            own: 0,
        }
    }

    /// Adds a declaration at the end.
    pub fn add(&mut self, decl: Decl) -> Result<(), AllocError>
        requires few { length self.old.list + 1 < 2 ^ 32 }
        requires new { IsNew self.old.list decl }
        requires named { IsNamed decl }
        ensures ok { OnOk result (self.new
            ≡ record self.old { list = self.old.list ++ decl ∷ [] }) }
        ensures err { OnErr result (self.new ≡ self.old) }
    {
        let place = self.list.len() as u32;
        note(&mut self.index, &decl, place)?;
        self.list.push(decl)?;
        Ok(())
    }

    pub fn len(&self) -> u32
        ensures { result ≡ length self.now.list }
    {
        self.list.len() as u32
    }

    /// Keeps the first declarations.
    pub fn keep(&mut self, n: u32)
        requires { n ≤ length self.old.list }
        ensures { self.new ≡ record self.old { list = take n self.old.list } }
    {
        self.list.truncate(n as usize);
    }

    /// How many names are a file's own.
    pub fn own(&self) -> u32
        ensures { result ≡ self.now.own }
    {
        self.own
    }

    pub fn set_own(&mut self, n: u32)
        ensures { self.new ≡ record self.old { own = n } }
    {
        self.own = n;
    }

    /// What a name is.
    pub fn class(&self, id: NameId) -> Class
        ensures class { result ≡ class_in self.now.list id.0 }
        ensures free { (result ≡ Class.Free) ↔ (declaration_in self.now.list id.0 ≡ None) }
    {
        class_of(self.find(id))
    }

    /// The type of what a function gives.
    pub fn result(&self, id: NameId) -> Option<NameId>
        ensures { result ≡ result_in self.now.list id.0 }
    {
        match self.find(id) {
            Some(Decl::Name { result, .. }) => *result,
            _ => None,
        }
    }

    /// The list of the types of a name's arguments.
    pub fn args(&self, id: NameId) -> Option<NodeId>
        ensures { result ≡ args_in self.now.list id.0 }
    {
        match self.find(id) {
            Some(Decl::Name { args, .. }) => *args,
            _ => None,
        }
    }

    /// The equation at a place, counted from 1.
    pub fn equation(&self, k: u32) -> Option<NodeId>
        ensures { result ≡ from_one (equations self.now.list) k }
    {
        if k == 0 {
            return None;
        }
        let mut left = k;
        for decl in &self.list {
            if let Decl::Equation(tree) = decl {
                if left == 1 {
                    return Some(*tree);
                }
                left -= 1;
            }
        }
        None
    }

    /// The tree of an equivalence.
    pub fn equiv(&self, id: NameId) -> Option<NodeId>
        ensures { result ≡ equiv_in self.now.list id.0 }
    {
        match self.find(id) {
            Some(Decl::Equiv { tree, .. }) => Some(*tree),
            _ => None,
        }
    }

    /// The query at a place, counted from 1.
    pub fn query(&self, k: u32) -> Option<NodeId>
        ensures { result ≡ from_one (queries self.now.list) k }
    {
        if k == 0 {
            return None;
        }
        let mut left = k;
        for decl in &self.list {
            if let Decl::Query(tree) = decl {
                if left == 1 {
                    return Some(*tree);
                }
                left -= 1;
            }
        }
        None
    }

    /// The declaration at a place, counted from 0.
    pub fn get(&self, k: u32) -> Option<&Decl>
        ensures { option_copied result ≡ slice_get self.now.list k }
    {
        self.list.get(k as usize)
    }

    /// The declaration of a name.
    pub fn find(&self, id: NameId) -> Option<&Decl>
        ensures found { option_copied result ≡ declaration_in self.now.list id.0 }
        ensures named { All IsNamed self.now.list }
    {
        let place = *self.index.get(id.0 as usize)?;
        let decl = self.get(place)?;
        let declared = decl.id()?;
        if declared.0 == id.0 { Some(decl) } else { None }
    }
}

/// Notes the place of a declaration, in an index that is made longer where it ends before the name.
fn note(index: &mut Vec<u32>, decl: &Decl, place: u32) -> Result<(), AllocError>
    ensures here { OnOk result ((x : ℕ) → id_of decl.now ≡ Some x
        → slice_get index.new.items x ≡ Some place) }
    ensures others { (x k : ℕ) → id_of decl.now ≢ Some x → slice_get index.old.items x ≡ Some k
        → slice_get index.new.items x ≡ Some k }
{
    let Some(id) = decl.id() else {
        return Ok(());
    };
    let at = id.0 as usize;
    index.resize(index.len().max(at + 1), 0)?;
    index[at] = place;
    Ok(())
}

/// The name at a place of a list of names, counted from 0.
fn name(pool: &Pool, list: Option<NodeId>, k: u32) -> Option<NameId>
    requires { ChildBelow (length pool.now.trees) list }
    ensures { number result ≡ name_at (tree_at pool.now.trees list) k }
{
    let mut left = k;
    let mut at = list;
    'chain: while let Some(n) = at {
        let node = read_node(pool, n);
        if left == 0 {
            return match node.head {
                Head::Name(x) => Some(NameId(x)),
                _ => None,
            };
        }
        left -= 1;
        at = node.second;
    }
    None
}

/// The query at a place in a list of declarations, counted from 0, where one stands there.
pub fn query_at(decls: &Decls, k: u32) -> Option<NodeId>
    ensures { result ≡ option_and_then query_of (slice_get decls.now.list k) }
{
    match decls.get(k)? {
        Decl::Query(query) => Some(*query),
        Decl::Name { .. } | Decl::Equation(_) | Decl::Equiv { .. } => None,
    }
}
