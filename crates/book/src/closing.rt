// Closing the table of classes that each class lies within.
ghost use Rattle.std.specs.Prelude.{◌≡◌, ◌<◌};
ghost use Rattle.book.specs.Sealing.{Gathered, widened, Heavier, Extended, Placed};

use classes::ClassSet;

// The union of the sets that the table has for the classes of the set.
pub fn gather(table: &[ClassSet; 64], set: ClassSet) -> ClassSet
    ensures { Gathered table.now set result }
{
    let mut all = ClassSet::NONE;
    for class in set {
        all = all.union(table[usize::from(class)]);
    }
    all
}

fn widen(set: ClassSet, a: u8, more: ClassSet) -> ClassSet
    ensures { result ≡ widened set a more }
{
    if set.has(a) { set.union(more) } else { set }
}

// Each set that has `a` gains `more`; the answer has the classes whose set grew.
// That the table is heavier is a clause of its own, here and up to the loop that ends by it (`settle`): it holds whatever the table means.
fn extend(within: &mut [ClassSet; 64], a: u8, more: ClassSet) -> ClassSet
    ensures extended { Extended within.old a more within.new result }
    ensures heavier { Heavier within.old result within.new }
{
    let mut grown = ClassSet::NONE;
    if more.is_empty() {
        return grown;
    }
    for (class, set) in within.iter_mut().enumerate() {
        let new = widen(*set, a, more);
        if new != *set {
            *set = new;
            grown.insert(class as u8);
        }
    }
    grown
}

// Class `a` lies within the classes of the set, and within all that they lie within.
// That `a` is below 64 is asked: a type of its own would be made from, and turned back into, a number at every table.
pub(crate) fn place(within: &mut [ClassSet; 64], a: u8, set: ClassSet) -> ClassSet
    requires { a < 64 }
    ensures placed { Placed within.old a set within.new result }
    ensures heavier { Heavier within.old result within.new }
{
    let more = gather(within, set);
    extend(within, a, more)
}
