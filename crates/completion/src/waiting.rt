// The parts that are to be looked at again.
ghost use Rattle.std.specs.Prelude.{◌≡◌, ◌+◌, ◌<◌, ◌≤◌, true, [], length};
ghost use Rattle.queue.specs.Lines.{waiting};

use crate::part_set::PartSet;
use classes::ClassSet;
use queue::Queue;

// The numbers of parts that wait in a line, a flag for each that does, and whether any record grew since `grown` was put down.
// No promise rests on the two tables: at each part `named` has those that have it as a value, and maybe others, and `due` the
// classes for which keys are to be looked at.
#[derive(Drop)]
pub struct Waiting<'a> {
    pub line: Queue<'a, u8>,
    pub waits: [bool; 256],
    pub grown: bool,
    pub named: [PartSet; 256],
    pub due: [ClassSet; 256],
}

impl<'a> Waiting<'a> {
    ghost use Rattle.completion.specs.Lines.{Shorter};

    // No part waits, and records may have grown.
    pub(crate) fn new(slots: &'a mut [u8]) -> Waiting<'a>
        ensures empty { waiting result.line ≡ [] }
        ensures grown { result.grown ≡ true }
    {
        Waiting {
            line: Queue::new(slots),
            waits: [false; 256],
            grown: true,
            named: [PartSet::NONE; 256],
            due: [ClassSet::NONE; 256],
        }
    }

    // The part waits, unless it does already.
    fn push(&mut self, part: u8)
        ensures grown { self.new.grown ≡ self.old.grown }
        ensures line { length (waiting self.new.line) ≤ length (waiting self.old.line) + 1 }
    {
        if !self.waits[usize::from(part)] {
            self.waits[usize::from(part)] = true;
            let _ = self.line.push(part);
        }
    }

    // A part gained classes: it waits.
    pub(crate) fn gained(&mut self, part: u8, more: ClassSet)
        ensures grown { self.new.grown ≡ true }
        ensures line { length (waiting self.new.line) ≤ length (waiting self.old.line) + 1 }
    {
        self.grown = true;
        self.due[usize::from(part)] = self.due[usize::from(part)].union(more);
        self.push(part);
    }

    // A part gained a value: it waits.
    pub(crate) fn valued(&mut self, part: u8, value: u8)
        ensures grown { self.new.grown ≡ true }
        ensures line { length (waiting self.new.line) ≤ length (waiting self.old.line) + 1 }
    {
        self.grown = true;
        self.due[usize::from(part)] = ClassSet::ALL;
        self.named[usize::from(value)].insert(part);
        self.push(part);
    }

    // The part `from` became the part `to`, and a record that has it was renamed: the two wait.
    pub(crate) fn renamed(&mut self, part: u8, from: u8, to: u8)
        ensures grown { self.new.grown ≡ true }
        ensures line { length (waiting self.new.line) ≤ length (waiting self.old.line) + 2 }
    {
        self.grown = true;
        if part == from {
            self.push(from);
            self.push(to);
        }
    }

    // The part `from` becomes the part `to`. Two parts newly agree only where one has the first as a value and the other the
    // second, so it is enough to look at keys again for the fewer.
    pub(crate) fn merged(&mut self, from: u8, to: u8)
        ensures grown { self.new.grown ≡ self.old.grown }
        ensures line { self.new.line ≡ self.old.line }
    {
        let ours = self.named[usize::from(from)];
        let theirs = self.named[usize::from(to)];
        self.named[usize::from(to)] = theirs.union(ours);
        let fewer = if ours.count() < theirs.count() {
            ours
        } else {
            theirs
        };
        for block in 0..4u8 {
            self.all_due(block, fewer.blocks[usize::from(block)]);
        }
    }

    // Keys are to be looked at for all classes of the parts, which are places in a block of 64.
    fn all_due(&mut self, block: u8, set: ClassSet)
        requires { block < 4 }
        ensures grown { self.new.grown ≡ self.old.grown }
        ensures line { self.new.line ≡ self.old.line }
    {
        for place in set {
            self.due[usize::from(64 * block + place)] = ClassSet::ALL;
        }
    }

    // Takes the part that has waited longest.
    pub(crate) fn take(&mut self) -> Option<u8>
        ensures grown { self.new.grown ≡ self.old.grown }
        ensures line { Shorter result (waiting self.old.line) (waiting self.new.line) }
    {
        let part = self.line.pop()?;
        self.waits[usize::from(part)] = false;
        Some(part)
    }

    // What is due, which is taken down.
    pub(crate) fn take_due(&mut self) -> [ClassSet; 256]
        ensures grown { self.new.grown ≡ self.old.grown }
        ensures line { self.new.line ≡ self.old.line }
    {
        let due = self.due;
        self.due = [ClassSet::NONE; 256];
        due
    }
}
