// Sets of parts.
ghost use Rattle.std.specs.Prelude.{◌≡◌, ℕ, ◌<◌, true};
ghost use Rattle.classes.specs.Sets.{has};
ghost use Rattle.completion.specs.PartSets.{In};

use classes::ClassSet;

// A part's number is that of its block of 64 and of its place in it; each block is a set of such places.
#[derive(Clone, Copy)]
pub struct PartSet {
    pub blocks: [ClassSet; 4],
}

// What is in both sets.
fn both(set: ClassSet, other: ClassSet) -> ClassSet
    ensures { (k : ℕ) → has set k ≡ true → has other k ≡ true → has result k ≡ true }
{
    set.minus(set.minus(other))
}

impl PartSet {
    pub const NONE: PartSet = PartSet {
        blocks: [ClassSet::NONE; 4],
    };

    pub(crate) fn insert(&mut self, part: u8)
        ensures given { In self.new part }
        ensures kept { (q : ℕ) → In self.old q → In self.new q }
    {
        self.blocks[usize::from(part / 64)].insert(part % 64);
    }

    // The parts that are in both sets.
    pub(crate) fn meet(self, other: PartSet) -> PartSet
        ensures { (q : ℕ) → q < 256 → In self q → In other q → In result q }
    {
        let [a, b, c, d] = self.blocks;
        let [e, f, g, h] = other.blocks;
        PartSet {
            blocks: [both(a, e), both(b, f), both(c, g), both(d, h)],
        }
    }

    pub(crate) fn union(self, other: PartSet) -> PartSet {
        let [a, b, c, d] = self.blocks;
        let [e, f, g, h] = other.blocks;
        PartSet {
            blocks: [a.union(e), b.union(f), c.union(g), d.union(h)],
        }
    }

    // How many parts are in the set.
    pub(crate) fn count(self) -> usize {
        let mut count = 0usize;
        for part in 0..=255u8 {
            if self.has(part) {
                count = count.wrapping_add(1);
            }
        }
        count
    }

    fn has(self, part: u8) -> bool {
        self.blocks[usize::from(part / 64)].has(part % 64)
    }
}
