// The search for a shortest way from two classes of a part to the two classes of an exclusion row.
#![tactic(auto)]

ghost use Rattle.std.specs.Prelude.{◌≡◌, length, OnErr};
ghost use Rattle.search.specs.Graph.{Searched};
ghost use Rattle.search.specs.Pairs.{Proper, ordered, place_of};

use crate::walk::Walk;
use book::sealed::Book;
use classes::ClassSet;
use terms::refusal::Refusal;

mod excluding;
mod trail;
mod walk;

// A pair of classes, the lower first.
#[derive(Clone, Copy, Default, PartialEq, Eq, Debug)]
pub struct ClassPair {
    pub left: u8,
    pub right: u8,
}

// A part, an exclusion row and the number of letters between them, which stand in memory that the caller lends, as a form that
// the project keeps (docs/DECISIONS.md).
#[derive(Clone, Copy, PartialEq, Eq, Debug)]
pub struct Found {
    pub part: u8,
    pub row: u8,
    pub length: u16,
}

// Callers lend memory of pairs with any content, so the order of the two is asked of calls, and no type of its own keeps it.
impl ClassPair {
    // The pair of two classes in either order.
    fn of(a: u8, b: u8) -> ClassPair
        ensures { result ≡ ordered a b }
    {
        ClassPair {
            left: a.min(b),
            right: a.max(b),
        }
    }

    // The place of the pair among the 2,080: a table of 64 by 64 would have a second place for each pair of two classes, and the count of places bounds a way's letters.
    fn place(self) -> usize
        requires { Proper self }
        ensures { result ≡ place_of self }
    {
        let left = usize::from(self.left);
        let right = usize::from(self.right);
        if left < 32 {
            64 * left + right
        } else {
            65 * (63 - left) + right + 1
        }
    }
}

// A shortest way from two classes of one part, along one word, to the two classes of an exclusion row; the letters are written.
pub fn search(
    parts: &[ClassSet; 256],
    book: &Book,
    pairs: &mut [ClassPair],
    letters: &mut [u8; 2079],
) -> Result<Option<Found>, Refusal>
    ensures searched { Searched parts.now book.now (length pairs.old) letters.old letters.new result }
    ensures unchanged { OnErr result (pairs.new ≡ pairs.old) }
{
    if pairs.len() < 4096 {
        return Err(Refusal::WorkAreasTooSmall);
    }
    let mut walk = Walk::new(parts, book, pairs);
    let Some(end) = walk.hunt() else {
        return Ok(None);
    };
    Ok(Some(walk.retrace(end, letters)))
}
