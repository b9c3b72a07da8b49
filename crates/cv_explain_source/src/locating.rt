// Nodes by their numbers: where they stand in a file or a game, what they define, and of which sort they are.
use crate::page::Page;
use cv_grounds::{binders, items, nodes_up_to, open};
use cv_syntax::{Class, Decl, File, Head, NameId, NodeId, Opened, Pool, Work};

/// More nodes than a tree has.
const MOST: u32 = 4_000_000;

/// A node of a file: whether it stands in an equivalence, the tree in which it stands, the number of that tree's first node, its own number,
/// the node, and what stands above it with which of its places it takes.
#[derive(Clone, Copy)]
pub struct Located {
    pub is_equivalence: bool,
    pub root: NodeId,
    pub before: u32,
    pub number: u32,
    pub term: NodeId,
    pub node: Opened,
    pub parent: Option<Opened>,
    pub position: u32,
}

/// What a term is: a value of a type, a truth value, or an index.
#[derive(Clone, Copy)]
pub enum Kind {
    Type(u32),
    Truth,
    Index(u32),
    Unknown,
}

/// The node of a tree, where there is one.
pub fn opened(pool: &Pool, tree: Option<NodeId>) -> Option<Opened> {
    open(pool, tree?)
}

/// The first child of the node of a tree.
pub fn first_of(pool: &Pool, tree: Option<NodeId>) -> Option<NodeId> {
    open(pool, tree?)?.first
}

/// The second child of the node of a tree.
pub fn second_of(pool: &Pool, tree: Option<NodeId>) -> Option<NodeId> {
    open(pool, tree?)?.second
}

/// How many syntax nodes a tree has.
pub fn size_of(pool: &Pool, tree: Option<NodeId>) -> u32 {
    match tree {
        Some(n) => nodes_up_to(pool, n, MOST),
        None => 0,
    }
}

/// Which place of the node above a node takes that is its second child.
fn next_position(head: Head, position: u32) -> u32 {
    match head {
        Head::Cons => position.saturating_add(1),
        _ => 1,
    }
}

/// Whether a head is that of an event of a query.
fn is_event(head: Head) -> bool {
    matches!(head, Head::Occurs(_) | Head::OccursOnce(_))
}

/// The node of a number in a tree, with the node above it and the place that it takes there.
pub fn node_at(pool: &Pool, root: NodeId, number: u32) -> Option<(NodeId, Option<Opened>, u32)> {
    let mut at = root;
    let mut left = number;
    let mut parent = None;
    let mut position = 0;
    for _ in 0..pool.live() {
        let node = open(pool, at)?;
        let weight = node.head.weight();
        if left < weight {
            return Some((at, parent, position));
        }
        let within = weight.saturating_add(size_of(pool, node.first));
        if weight == 1 || is_event(node.head) {
            parent = Some(node);
            position = 0;
        }
        if left < within {
            left = left.saturating_sub(weight);
            at = node.first?;
        } else {
            left = left.saturating_sub(within);
            position = next_position(node.head, position);
            at = node.second?;
        }
    }
    None
}

/// The trees of a file whose nodes are numbered, but for its process.
pub fn trees(page: &mut Page, work: &Work) -> Vec<NodeId> {
    let mut trees = Vec::new(page.alloc());
    for k in 0..work.decls.len() {
        match work.decls.get(k) {
            Some(Decl::Equation(n) | Decl::Query(n) | Decl::Equiv { tree: n, .. }) => {
                page.push(&mut trees, *n);
            }
            _ => {}
        }
    }
    trees
}

/// Whether a tree is an equivalence.
fn is_equivalence(pool: &Pool, tree: NodeId) -> bool {
    match open(pool, tree) {
        Some(node) => matches!(node.head, Head::Equivalence(_)),
        None => false,
    }
}

/// The node of a number in a file.
pub fn locate(page: &mut Page, work: &Work, file: File, number: u32) -> Option<Located> {
    let mut before = 0_u32;
    let mut trees = trees(page, work);
    page.push(&mut trees, file.game.root);
    for root in &trees {
        let size = size_of(&work.pool, Some(*root));
        if number.saturating_sub(before) < size {
            let within = number.saturating_sub(before);
            let (term, parent, position) = node_at(&work.pool, *root, within)?;
            return Some(Located {
                is_equivalence: is_equivalence(&work.pool, *root),
                root: *root,
                before,
                number,
                term,
                node: open(&work.pool, term)?,
                parent,
                position,
            });
        }
        before = before.saturating_add(size);
    }
    None
}

/// The binders of a list: their names with types, or with parameters.
fn binder_of(pool: &Pool, list: Option<NodeId>, x: u32) -> Option<u32> {
    let mut at = list;
    for _ in 0..pool.live() {
        let cell = open(pool, at?)?;
        if let Head::Binder(y, of) = cell.head {
            if x == y {
                return Some(of);
            }
        }
        at = cell.second;
    }
    None
}

/// The sort that a node gives to a name, where it binds it.
pub fn bound_by(pool: &Pool, node: Opened, x: u32) -> Option<Kind> {
    match node.head {
        Head::New(y, ty) | Head::Let(y, ty) if x == y => Some(Kind::Type(ty)),
        Head::Repl(y, most) | Head::Bound(y, most) if x == y => Some(Kind::Index(most)),
        Head::In(_) => {
            let lists = open(pool, node.first?)?;
            binder_of(pool, lists.second, x).map(Kind::Type)
        }
        Head::Branch => binder_of(pool, node.first, x).map(Kind::Index),
        Head::Bound(_, _) | Head::Single(_) => match binder_of(pool, node.first, x) {
            Some(ty) => Some(Kind::Type(ty)),
            None => binder_of(pool, node.second, x).map(Kind::Type),
        },
        Head::Forall | Head::Query => binder_of(pool, node.first, x).map(Kind::Type),
        _ => None,
    }
}

/// The nodes of trees in preorder, with their numbers; a node that isn't counted has that of the next one.
pub fn nodes_of(page: &mut Page, pool: &Pool, roots: &[NodeId]) -> Vec<(u32, NodeId, Opened)> {
    let mut nodes = Vec::new(page.alloc());
    let mut left = Vec::new(page.alloc());
    for root in roots {
        page.push(&mut left, Some(*root));
    }
    left.reverse();
    let mut number = 0_u32;
    for _ in 0..MOST {
        let Some(next) = left.pop() else {
            return nodes;
        };
        let Some(n) = next else { continue };
        let Some(node) = open(pool, n) else { continue };
        number = add_node(page, &mut nodes, &mut left, (number, n, node));
    }
    nodes
}

/// Adds a node to a list, and what stands below it to what is left; the number of the next node.
fn add_node(
    page: &mut Page,
    nodes: &mut Vec<(u32, NodeId, Opened)>,
    left: &mut Vec<Option<NodeId>>,
    numbered: (u32, NodeId, Opened),
) -> u32 {
    let (number, _n, node) = numbered;
    page.push(nodes, numbered);
    page.push(left, node.second);
    page.push(left, node.first);
    number.saturating_add(node.head.weight())
}

/// The numbers of the nodes of a tree that bind a name, with the sorts that they give to it.
pub fn sites_of(page: &mut Page, pool: &Pool, root: NodeId, x: u32) -> Vec<(u32, Kind)> {
    let mut sites = Vec::new(page.alloc());
    for (number, _n, node) in &nodes_of(page, pool, &[root]) {
        if let Some(kind) = bound_by(pool, *node, x) {
            page.push(&mut sites, (*number, kind));
        }
    }
    sites
}

/// The sort of a variable of a tree: that of its first site; in an equivalence none where the sites differ.
fn kind_of_variable(page: &mut Page, work: &Work, located: Located, x: u32) -> Kind {
    let sites = sites_of(page, &work.pool, located.root, x);
    match sites.first() {
        Some((_number, kind)) if sites.len() == 1 || !located.is_equivalence => *kind,
        _ => Kind::Unknown,
    }
}

/// The sort of the result of a function.
fn kind_of_result(work: &Work, f: u32) -> Kind {
    match work.decls.result(NameId(f)) {
        Some(ty) => Kind::Type(ty.0),
        None => Kind::Unknown,
    }
}

/// The sort of a term.
pub fn kind_of(page: &mut Page, work: &Work, located: Located, n: NodeId) -> Kind {
    let Some(node) = open(&work.pool, n) else {
        return Kind::Unknown;
    };
    match node.head {
        Head::Leaf(x) | Head::Read(x) => match work.decls.class(NameId(x)) {
            Class::Fun { .. } => kind_of_result(work, x),
            _ => kind_of_variable(page, work, located, x),
        },
        Head::Apply(f) => kind_of_result(work, f),
        Head::Eq | Head::And | Head::Or | Head::Not | Head::Yes | Head::No => Kind::Truth,
        _ => Kind::Unknown,
    }
}

/// The types of the arguments of a function or an event.
pub fn arguments_of(page: &mut Page, work: &Work, f: u32) -> Vec<u32> {
    let mut types = Vec::new(page.alloc());
    let mut at = work.decls.args(NameId(f));
    for _ in 0..work.pool.live() {
        let Some(cell) = opened(&work.pool, at) else {
            return types;
        };
        if let Head::Name(ty) = cell.head {
            page.push(&mut types, ty);
        }
        at = cell.second;
    }
    types
}

/// The sort that the place of a node asks for.
pub fn wanted_kind(page: &mut Page, work: &Work, located: Located) -> Kind {
    let Some(parent) = located.parent else {
        return Kind::Truth;
    };
    match parent.head {
        Head::Apply(f) | Head::Event(f) | Head::Occurs(f) | Head::OccursOnce(f) => {
            match arguments_of(page, work, f).get(located.position as usize) {
                Some(ty) => Kind::Type(*ty),
                None => Kind::Unknown,
            }
        }
        Head::Let(_, ty) => Kind::Type(ty),
        Head::Eq => match parent.first {
            Some(first) if located.position == 1 => kind_of(page, work, located, first),
            _ => Kind::Unknown,
        },
        Head::And | Head::Or | Head::Not | Head::If | Head::Branch => Kind::Truth,
        _ => Kind::Unknown,
    }
}

/// The variables that a node binds.
pub fn variables_of(page: &mut Page, pool: &Pool, node: Opened) -> Vec<u32> {
    let list = match node.head {
        Head::New(x, _) | Head::Let(x, _) | Head::Repl(x, _) => {
            let mut one = Vec::new(page.alloc());
            page.push(&mut one, x);
            return one;
        }
        Head::In(_) => second_of(pool, node.first),
        Head::Branch => node.first,
        _ => None,
    };
    let found = binders(page.alloc(), pool, list);
    page.took(found)
}

/// The items of a list.
pub fn items_of(page: &mut Page, pool: &Pool, list: Option<NodeId>) -> Vec<NodeId> {
    let found = items(page.alloc(), pool, list);
    page.took(found)
}

/// The functions of a side of an equivalence.
pub fn functions_of(page: &mut Page, pool: &Pool, side: Option<NodeId>) -> Vec<NodeId> {
    items_of(page, pool, second_of(pool, side))
}

/// The name of a function.
pub fn function_name(pool: &Pool, function: NodeId) -> u32 {
    match open(pool, function) {
        Some(node) => match node.head {
            Head::Oracle(f) => f,
            _ => 0,
        },
        None => 0,
    }
}

/// The tree of the query of a number, from 1.
pub fn query_of(work: &Work, number: u32) -> Option<NodeId> {
    let mut left = number;
    for k in 0..work.decls.len() {
        if let Some(Decl::Query(tree)) = work.decls.get(k) {
            left = left.saturating_sub(1);
            if left == 0 {
                return Some(*tree);
            }
        }
    }
    None
}

/// Whether a head is that of a term.
pub fn is_term(head: Head) -> bool {
    matches!(
        head,
        Head::Leaf(_)
            | Head::Read(_)
            | Head::Apply(_)
            | Head::Eq
            | Head::And
            | Head::Or
            | Head::Not
            | Head::Yes
            | Head::No
    )
}
