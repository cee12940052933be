// The pairs of classes met so far, and how each was met.
ghost use Rattle.std.specs.Prelude.{◌≡◌, ℕ, ◌<◌, Some, None, length, slice_set};
ghost use Rattle.book.specs.Tables.{set_at};
ghost use Rattle.search.specs.Pairs.{Partners, Proper, entry_of, mark_of, place_of};

use crate::ClassPair;
use classes::ClassSet;

// Where a pair comes from: it is two classes of a part, or another pair leads to it by a letter.
#[derive(Clone, Copy)]
pub enum Origin {
    Part(u8),
    Step { from: ClassPair, letter: u8 },
}

// How a pair was met: the number of letters up to it, and where it comes from.
#[derive(Clone, Copy)]
pub struct Trace {
    pub depth: u16,
    pub origin: Origin,
}

// The trace of each pair that is met, at the pair's place; `seen` has at each class its partners in such pairs.
// A table by place: there is one place for each of the 2,080 unordered pairs, and that a way has at most 2,079 letters is proved by counting them.
#[derive(Drop)]
pub struct Trail {
    trace: [Option<Trace>; 2080],
    seen: [ClassSet; 64],
    ghost size: { length trace ≡ 2080 },
    ghost long: { length seen ≡ 64 },
    ghost partners: { Partners seen trace },
}

impl Trail {
    // A trail with no pair.
    pub(crate) fn new() -> Trail
        ensures { (q : ClassPair) → mark_of result.trace q ≡ 0 }
    {
        Trail {
            trace: [None; 2080],
            seen: [ClassSet::NONE; 64],
        }
    }

    // How the pair was met.
    pub(crate) fn entry(&self, pair: ClassPair) -> Trace
        requires proper { Proper pair }
        requires met { 0 < mark_of self.now.trace pair }
        ensures { entry_of self.now.trace pair ≡ Some result }
    {
        self.trace[pair.place()].unwrap()
    }

    // The partners of a class in pairs that are met.
    // That the class is below 64 is asked: a type of its own would be made from, and turned back into, a number at every table.
    pub(crate) fn partners(&self, class: u8) -> ClassSet
        requires { class < 64 }
        ensures { result ≡ set_at self.now.seen class }
    {
        self.seen[usize::from(class)]
    }

    // Adds a pair.
    pub(crate) fn mark(&mut self, pair: ClassPair, trace: Trace)
        requires { Proper pair }
        ensures { self.new.trace ≡ slice_set self.old.trace (place_of pair) (Some trace) }
    {
        self.trace[pair.place()] = Some(trace);
        self.seen[usize::from(pair.left)].insert(pair.right);
        self.seen[usize::from(pair.right)].insert(pair.left);
    }
}
