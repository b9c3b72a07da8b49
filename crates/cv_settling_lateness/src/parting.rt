// What parts two places of a game.
ghost use Rattle.std.specs.Prelude.{◌≡◌, ℕ, IfOk};
ghost use Rattle.cv_pool.specs.Nodes.{ChildBelow};

use crate::lateness::Lateness;
use crate::sizes::{Children, Stretch, children_of};
use cv_grounds::open;
use cv_syntax::{Head, Opened, Pool};

/// A tree on the way down to two places: the places that it takes, how many replications stand above it, and of the `if` or the `find`
/// to whose bodies or branches it belongs, how many stand above that.
#[derive(Clone, Copy)]
struct Descent {
    here: Stretch,
    replications: u32,
    construct: Option<u32>,
}

impl Descent {
    /// Goes on in the child of a node in which both places stand, or finds what parts them.
    fn step(
        self,
        node: Opened,
        children: Children,
        low: u32,
        high: u32,
    ) -> Result<Descent, Option<u32>>
        requires first { children.first.at ≡ node.first }
        requires second { children.second.at ≡ node.second }
        ensures { IfOk result (λ next. (n : ℕ) → ChildBelow n node.first
            → ChildBelow n node.second → ChildBelow n next.here.at) }
    {
        if high < children.second.from {
            return Ok(Descent {
                here: children.first,
                replications: self.replications,
                construct: self.of_first(node.head),
            });
        }
        if low < children.second.from {
            return Err(self.between(node.head));
        }
        Ok(Descent {
            here: children.second,
            replications: self.of_second(node.head),
            construct: self.of_bodies(node.head),
        })
    }

    /// Of the construct to whose branches the first child of a node belongs.
    fn of_first(self, head: Head) -> Option<u32> {
        match head {
            Head::Find(_) => Some(self.replications),
            _ => None,
        }
    }

    /// Of the construct to whose bodies or branches the second child of a node belongs.
    fn of_bodies(self, head: Head) -> Option<u32> {
        match head {
            Head::If => Some(self.replications),
            Head::Cons => self.construct,
            _ => None,
        }
    }

    /// How many replications stand above the second child of a node.
    fn of_second(self, head: Head) -> u32 {
        match head {
            Head::Repl(_, _) => self.replications.saturating_add(1),
            _ => self.replications,
        }
    }

    /// Of the construct that parts two places of which one stands below the first child of a node and the other below the second.
    fn between(self, head: Head) -> Option<u32> {
        match head {
            Head::Cons => self.construct,
            Head::Find(_) => Some(self.replications),
            _ => None,
        }
    }
}

impl Lateness {
    /// How many replications stand above the `if` or `find` that parts two places, if they stand in two bodies of one and it is the
    /// lowest construct above both.
    pub fn parting(&self, pool: &Pool, p: u32, q: u32) -> Option<u32> {
        let low = p.min(q);
        let high = p.max(q);
        let mut down = Descent {
            here: self.whole(),
            replications: 0,
            construct: None,
        };
        'way: while let Some(n) = down.here.at {
            let Some(node) = open(pool, n) else {
                return None;
            };
            let children = children_of(pool, self.sizes(), node, down.here);
            match down.step(node, children, low, high) {
                Ok(next) => down = next,
                Err(found) => return found,
            }
        }
        None
    }
}
