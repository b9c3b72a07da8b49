// One walk over a game, for its variables.
use crate::moves::binders::typed_binders;
use crate::moves::variables::{Site, Spot, Variables};
use cv_grounds::{binders, open};
use cv_scope_rules::Position;
use cv_syntax::{Head, NodeId, Opened, Pool};
use std::alloc::{AllocError, Global};

/// What part of a game a node stands in.
#[derive(Clone, Copy)]
enum Region {
    /// Outside `defined` lists and conditions of a `find`.
    Open,
    /// In a `defined` list.
    Listed,
    /// In a condition of a `find`.
    Tested,
}

/// A node on the way: what the tree is for the node above, the part of the game, the term around it, counted from 1, or 0, and
/// the variable to which a `let` gives it.
#[derive(Clone, Copy)]
struct Walk {
    position: Position,
    region: Region,
    around: u32,
    of_let: Option<u32>,
}

/// A walk that notes variables.
#[derive(Drop)]
struct Reader {
    alloc: Global,
    variables: Variables,
}

/// The variable that a node reads.
fn variable_of(head: Head) -> Option<u32> {
    match head {
        Head::Leaf(x) | Head::Read(x) => Some(x),
        _ => None,
    }
}

/// Whether a node is a term.
fn is_term(head: Head) -> bool {
    match head {
        Head::Leaf(_) | Head::Read(_) | Head::Apply(_) | Head::Yes | Head::No => true,
        Head::Eq | Head::And | Head::Or | Head::Not => true,
        _ => false,
    }
}

/// How the walk goes on at a node's first child, in this term.
fn first(walk: Walk, head: Head, around: u32) -> Walk {
    let region = match walk.position {
        Position::Guards => Region::Listed,
        Position::Guarded => Region::Tested,
        _ => walk.region,
    };
    let of_let = match head {
        Head::Let(x, _) => Some(x),
        _ => None,
    };
    Walk {
        position: walk.position.first(head),
        region,
        around,
        of_let,
    }
}

/// How the walk goes on at a node's second child, in this term.
fn second(walk: Walk, head: Head, around: u32) -> Walk {
    Walk {
        position: walk.position.second(head),
        region: walk.region,
        around,
        of_let: None,
    }
}

impl Reader {
    /// Notes the variables of an input.
    fn note_inputs(&mut self, pool: &Pool, first: Option<NodeId>) -> Result<(), AllocError> {
        let Some(inputs) = first.and_then(|n| open(pool, n)) else {
            return Ok(());
        };
        for binder in &typed_binders(self.alloc, pool, inputs.second)? {
            self.variables
                .note_site(binder.name, Site::Typed(binder.sort))?;
        }
        Ok(())
    }

    /// Notes the indices of a branch.
    fn note_indices(&mut self, pool: &Pool, list: Option<NodeId>) -> Result<(), AllocError> {
        for name in &binders(self.alloc, pool, list)? {
            self.variables.note_site(*name, Site::Index)?;
        }
        Ok(())
    }

    /// Notes the variables that a node defines.
    fn note_sites(&mut self, pool: &Pool, node: Opened) -> Result<(), AllocError> {
        match node.head {
            Head::New(x, t) => self.variables.note_site(x, Site::Drawn(t)),
            Head::Let(x, t) => self.variables.note_site(x, Site::Typed(t)),
            Head::In(_) => self.note_inputs(pool, node.first),
            Head::Branch => self.note_indices(pool, node.first),
            _ => Ok(()),
        }
    }

    /// Notes a term, and gives the number of the term that is around the node's children.
    fn note_term(&mut self, walk: Walk, n: NodeId, head: Head) -> Result<u32, AllocError> {
        if !is_term(head) {
            return Ok(walk.around);
        }
        let number = self.variables.note_term(Spot {
            node: n,
            around: walk.around,
            next: 0,
            of_let: walk.of_let,
        })?;
        if let Some(x) = variable_of(head) {
            self.variables.note_read(x, number)?;
        }
        Ok(number)
    }

    /// Notes a node, and gives the number of the term that is around its children.
    fn note(
        &mut self,
        pool: &Pool,
        walk: Walk,
        n: NodeId,
        node: Opened,
    ) -> Result<u32, AllocError> {
        match walk.region {
            Region::Open => {
                self.note_sites(pool, node)?;
                self.note_term(walk, n, node.head)
            }
            Region::Listed => Ok(0),
            Region::Tested => {
                if let Some(x) = variable_of(node.head) {
                    self.variables.note_test(x)?;
                }
                Ok(0)
            }
        }
    }

    /// Walks over a tree.
    fn walk(&mut self, pool: &Pool, start: NodeId, from: Walk) -> Result<(), AllocError> {
        let mut at = Some(start);
        let mut walk = from;
        for _ in 0..pool.live() {
            let Some(n) = at else {
                return Ok(());
            };
            let Some(node) = open(pool, n) else {
                return Ok(());
            };
            let around = self.note(pool, walk, n, node)?;
            if let Some(child) = node.first {
                if child.0 >= start.0 {
                    return Ok(());
                }
                self.walk(pool, child, first(walk, node.head, around))?;
            }
            walk = second(walk, node.head, around);
            at = node.second;
        }
        Ok(())
    }
}

/// The variables of a game.
pub(crate) fn variables_of(
    alloc: Global,
    pool: &Pool,
    game: NodeId,
) -> Result<Variables, AllocError> {
    let mut reader = Reader {
        alloc,
        variables: Variables::new(alloc),
    };
    let walk = Walk {
        position: Position::Anywhere,
        region: Region::Open,
        around: 0,
        of_let: None,
    };
    reader.walk(pool, game, walk)?;
    let Reader { variables, .. } = reader;
    Ok(variables)
}
