ghost use Rattle.std.specs.Prelude.{◌≡◌, ◌≤◌, ℕ, IfSome, List};
ghost use Rattle.cv_pool.specs.KindTree.{KindTree};
ghost use Rattle.cv_scene.specs.lines.Lines.{Lines};
ghost use Rattle.cv_derive_lines.specs.citing.Bookmarks.{AreLines, IsKept, IsLine};

use crate::Claim;
use cv_syntax::NodeId;

/// How many lines are kept at most.
const ROOM: usize = 256;

/// A line: its number, what it says, the lines behind it in its block, and whether it is the first one of its block.
#[derive(Clone, Copy)]
pub(crate) struct Bookmark {
    pub(crate) number: u32,
    pub(crate) claim: Claim,
    pub(crate) behind: Option<NodeId>,
    is_first: bool,
}

/// Some of the lines that may be cited, in their order: of each block that is open the first, and others that are no less than
/// a distance apart. The distance is doubled whenever there is no room.
#[derive(Clone, Copy)]
pub struct Bookmarks {
    slots: [Option<Bookmark>; 256],
    count: usize,
    distance: u32,
    next: u32,
    is_new: bool,
}

impl Bookmarks {
    /// No line is kept.
    pub fn new() -> Bookmarks
        ensures { (trees : List KindTree) (all : Lines) (n : ℕ) → AreLines trees all n result }
    {
        Bookmarks {
            slots: [None; 256],
            count: 0,
            distance: 1,
            next: 0,
            is_new: true,
        }
    }

    /// The same lines, for a block of which none is kept.
    pub fn inside(&self) -> Bookmarks
        ensures { (trees : List KindTree) (all : Lines) (n : ℕ) → AreLines trees all n self.now
            → AreLines trees all n result }
    {
        let mut inside = *self;
        inside.is_new = true;
        inside
    }

    /// Keeps a line, where there is room, and it is the first of its block or far enough behind the last one.
    fn push(&mut self, line: Bookmark)
        ensures { (trees : List KindTree) (all : Lines) (n : ℕ) → AreLines trees all n self.old
            → IsKept trees all n line → AreLines trees all n self.new }
    {
        if self.count >= ROOM {
            return;
        }
        if !line.is_first && line.number < self.next {
            return;
        }
        self.slots[self.count] = Some(line);
        self.count += 1;
        self.next = line.number.saturating_add(self.distance);
    }

    /// Fewer of the lines, at twice the distance.
    fn thinned(&self) -> Bookmarks
        ensures { (trees : List KindTree) (all : Lines) (n : ℕ) → AreLines trees all n self.now
            → AreLines trees all n result }
    {
        let mut thinned = Bookmarks::new();
        thinned.distance = self.distance.saturating_mul(2);
        'lines: for k in 0..ROOM {
            if let Some(line) = self.slots[k] {
                thinned.push(line);
            }
        }
        thinned
    }

    /// Keeps a line where it serves: what is kept are lines that were kept, and it.
    pub fn keep(&mut self, number: u32, claim: Claim, behind: Option<NodeId>)
        ensures { (trees : List KindTree) (all : Lines) (n : ℕ) → AreLines trees all n self.old
            → IsLine trees all n number claim behind → AreLines trees all n self.new }
    {
        let line = Bookmark {
            number,
            claim,
            behind,
            is_first: self.is_new,
        };
        if self.count == ROOM {
            *self = self.thinned();
        }
        self.is_new = false;
        self.push(line);
    }

    /// The last line that is kept whose number is no greater.
    pub(crate) fn last_through(&self, l: u32) -> Option<Bookmark>
        ensures { (trees : List KindTree) (all : Lines) (n : ℕ) → AreLines trees all n self.now
            → IfSome result (λ m. (m.number ≤ l) × IsKept trees all n m) }
    {
        let mut last = None;
        'lines: for k in 0..ROOM {
            let Some(line) = self.slots[k] else {
                return last;
            };
            if line.number > l {
                return last;
            }
            last = Some(line);
        }
        last
    }
}
