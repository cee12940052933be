// The walk through the pairs of classes, breadth first.
ghost use Rattle.std.specs.Prelude.{◌≡◌, ℕ, ◌+◌, ◌<◌, ◌≤◌, Some, None, [], ◌∷◌, ◌++◌, length, slice_set};
ghost use Rattle.queue.specs.Lines.{places, waiting};
ghost use Rattle.search.specs.Rows.{Excluding};
ghost use Rattle.search.specs.Pairs.{Proper, mark_of, place_of, unmarked};

use crate::excluding::excluding;
use crate::trail::{Origin, Trace, Trail};
use crate::{ClassPair, Found};
use book::sealed::Book;
use classes::ClassSet;
use queue::Queue;

// A pair of classes and a row that excludes it.
#[derive(Clone, Copy)]
pub struct Excluded {
    pub pair: ClassPair,
    pub row: u8,
}

// The pairs that are met, and of those the line of the pairs that wait; for each other pair a place is left in the line.
// `Begun` holds of a walk only before it begins, and `Same` is of two moments of one: no ghost field, which holds always, says either.
#[derive(Drop)]
pub struct Walk<'a> {
    parts: &'a [ClassSet; 256],
    book: &'a Book,
    queue: Queue<'a, ClassPair>,
    trail: Trail,
    ghost long: { length parts.now ≡ 256 },
    ghost room: { length (waiting queue) + unmarked trail.trace ≤ places queue },
}

impl<'a> Walk<'a> {
    ghost use Rattle.search.specs.Search.{Begun, Hunted, Same, Seeded, Shown};
    ghost use Rattle.search.specs.Graph.{Answer, Reaches};

    // A walk that has met no pair.
    pub(crate) fn new(
        parts: &'a [ClassSet; 256],
        book: &'a Book,
        pairs: &'a mut [ClassPair],
    ) -> Walk<'a>
        requires { 2080 ≤ length pairs.old }
        ensures begun { Begun result }
        ensures parts { result.parts.now ≡ parts.now }
        ensures book { result.book.now ≡ book.now }
    {
        Walk {
            parts,
            book,
            queue: Queue::new(pairs),
            trail: Trail::new(),
        }
    }

    // Adds a pair to the trail and to the line, and answers the row that excludes it.
    fn meet(&mut self, pair: ClassPair, trace: Trace) -> Option<u8>
        requires proper { Proper pair }
        requires unmet { mark_of self.old.trail.trace pair ≡ 0 }
        ensures same { Same self.old self.new }
        ensures line { waiting self.new.queue ≡ waiting self.old.queue ++ pair ∷ [] }
        ensures marked { self.new.trail.trace ≡ slice_set self.old.trail.trace (place_of pair) (Some trace) }
        ensures row { Excluding self.old.book.now pair result }
    {
        self.trail.mark(pair, trace);
        let _ = self.queue.push(pair);
        excluding(self.book, pair)
    }

    // Meets every two classes of one part, up to the first that a row excludes.
    // Its loops over two classes stand in `hunt` too, since each has its loops in one function: a form that the project keeps, docs/DECISIONS.md.
    fn seed(&mut self) -> Option<Excluded>
        requires { Begun self.old }
        ensures same { Same self.old self.new }
        ensures seeded { Seeded self.old self.new result }
    {
        let parts = self.parts;
        for (part, classes) in parts.iter().enumerate() {
            let trace = Trace {
                depth: 0,
                origin: Origin::Part(part as u8),
            };
            for a in *classes {
                for b in classes.minus(self.trail.partners(a)) {
                    let pair = ClassPair::of(a, b);
                    if let Some(row) = self.meet(pair, trace) {
                        return Some(Excluded { pair, row });
                    }
                }
            }
        }
        None
    }

    // Meets pairs in the order of their depth, up to the first that a row excludes.
    // One function whose loops a label leaves, and `found` beside it: a form that the project keeps, docs/DECISIONS.md.
    pub(crate) fn hunt(&mut self) -> Option<Excluded>
        requires { Begun self.old }
        ensures same { Same self.old self.new }
        ensures hunted { Hunted self.old self.new result }
    {
        if let Some(end) = self.seed() {
            return Some(end);
        }
        let mut found = None;
        'search: while let Some(from) = self.queue.pop() {
            let depth = self.trail.entry(from).depth + 1;
            for letter in 0..16u8 {
                let trace = Trace {
                    depth,
                    origin: Origin::Step { from, letter },
                };
                let right = self.book.leads(from.right, letter);
                for c in self.book.leads(from.left, letter) {
                    for d in right.minus(self.trail.partners(c)) {
                        let pair = ClassPair::of(c, d);
                        if let Some(row) = self.meet(pair, trace) {
                            found = Some(Excluded { pair, row });
                            break 'search;
                        }
                    }
                }
            }
        }
        found
    }

    // Writes the letters of the way to the excluded pair, and answers the part that it begins in; the slice has its length.
    fn write_way(&self, end: Excluded, letters: &mut [u8]) -> u8
        requires shown { Shown self.now.parts.now self.now.book.now self.now.trail.trace end.pair end.row }
        requires size { mark_of self.now.trail.trace end.pair ≡ length letters.old + 1 }
        ensures { Reaches self.now.parts.now self.now.book.now result letters.new end.row }
    {
        let mut pair = end.pair;
        for slot in letters.iter_mut() {
            let Origin::Step { from, letter } = self.trail.entry(pair).origin else {
                unreachable!()
            };
            *slot = letter;
            pair = from;
        }
        letters.reverse();
        let Origin::Part(part) = self.trail.entry(pair).origin else {
            unreachable!()
        };
        part
    }

    // Writes the letters of the way to the excluded pair, and answers where it begins and ends.
    pub(crate) fn retrace(&self, end: Excluded, letters: &mut [u8; 2079]) -> Found
        requires { Shown self.now.parts.now self.now.book.now self.now.trail.trace end.pair end.row }
        ensures { Answer self.now.parts.now self.now.book.now letters.new (Some result) }
    {
        let length = self.trail.entry(end.pair).depth;
        let part = self.write_way(end, &mut letters[..usize::from(length)]);
        Found {
            part,
            row: end.row,
            length,
        }
    }
}
