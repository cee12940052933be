// Finding the class steps of rows: which classes a class lies within, and leads to by each feature.
ghost use Rattle.std.specs.Prelude.{◌≡◌, ℕ, ◌<◌, true, false, ◌↔◌, List};
ghost use Rattle.classes.specs.Sets.{has, none};
ghost use Rattle.terms.specs.Worlds.{Rule};
ghost use Rattle.book.specs.Tables.{set_at, At, Steps};
ghost use Rattle.book.specs.Sealing.{Direct, DirectBy, Entered, Heavier, Ordered, Sound, Served, Step, Ready, Open, Led, EachLed, AllLed};

use crate::closing::{gather, place};
use crate::links::{FeatureLinks, Links};
use classes::ClassSet;

// Of the class steps, `within` has a set for each class, and `leads` for each feature a set for each class.
#[derive(Clone, Copy)]
pub struct StepTables {
    pub within: [ClassSet; 64],
    pub leads: [[ClassSet; 64]; 16],
}

impl StepTables {
    // The class steps of the rules that the links say.
    pub(crate) fn of(links: &Links) -> StepTables
        ensures { (R : List Rule) → Direct R links.now → Steps R result.within result.leads }
    {
        let mut tables = StepTables {
            within: reflexive(),
            leads: [[ClassSet::NONE; 64]; 16],
        };
        links.climb(&mut tables.within);
        links.settle(&mut tables.within);
        links.lead(&tables.within, &mut tables.leads);
        tables
    }
}

// Each class lies within itself.
fn reflexive() -> [ClassSet; 64]
    ensures { (A B : ℕ) → At result A B ↔ ((A ≡ B) × (A < 64)) }
{
    let mut within = [ClassSet::NONE; 64];
    for (class, set) in within.iter_mut().enumerate() {
        set.insert(class as u8);
    }
    within
}

impl FeatureLinks {
    // Adds what the rows of kind 4 pull back to `a` along the feature; the answer has the classes to look at again.
    fn pull(&self, within: &mut [ClassSet; 64], into: &[ClassSet; 64], a: u8) -> ClassSet
        requires { a < 64 }
        ensures step { (R : List Rule) (f : ℕ) → DirectBy R f self.now → Entered R into.now → Step R within.old result within.new }
        ensures served { (R : List Rule) (f : ℕ) → DirectBy R f self.now → Entered R into.now → Ordered within.old → has result a ≡ false → Served R within.new a f }
        ensures heavier { Heavier within.old result within.new }
    {
        let led = gather(within, self.ahead[usize::from(a)]);
        let back = gather(&self.behind, led);
        let grown = place(within, a, back);
        gather(into, grown)
    }

    // The classes to which those of the set lead by the feature.
    fn led(&self, within: &[ClassSet; 64], set: ClassSet) -> ClassSet
        ensures { Led within.now self.now.ahead set result }
    {
        let next = gather(&self.ahead, set);
        gather(within, next)
    }

    // Writes the classes that each class leads to by the feature into the table.
    fn lead(&self, within: &[ClassSet; 64], table: &mut [ClassSet; 64])
        ensures { EachLed within.now self.now.ahead table.new }
    {
        for (class, set) in within.iter().enumerate() {
            table[class] = self.led(within, *set);
        }
    }
}

// The table is passed beside the links: a struct of both would have to say in each contract that the links stay.
// That the links are those of the rules R is a premise: R is of no struct, and `Direct` has many proofs, so no ghost field has it.
impl Links {
    // Adds what the rows of kind 1 say.
    fn climb(&self, within: &mut [ClassSet; 64])
        ensures { (R : List Rule) → Direct R self.now → Sound R within.old → Ordered within.old → Ready R within.new }
    {
        for (class, above) in self.above.iter().enumerate() {
            let _ = place(within, class as u8, *above);
        }
    }

    // Adds what the rows of kind 4 pull back to `a` along every feature.
    fn visit(&self, within: &mut [ClassSet; 64], a: u8) -> ClassSet
        requires { a < 64 }
        ensures step { (R : List Rule) → Direct R self.now → Step R within.old result within.new }
        ensures served { (R : List Rule) → Direct R self.now → Ordered within.old → has result a ≡ false → (f : ℕ) → f < 16 → Served R within.new a f }
        ensures heavier { Heavier within.old result within.new }
    {
        let mut again = ClassSet::NONE;
        for by in &self.by_feature {
            again = again.union(by.pull(within, &self.into, a));
        }
        again
    }

    // Adds all that the rows of kind 4 pull back; a class waits until it has been looked at since the sets it needs grew.
    fn settle(&self, within: &mut [ClassSet; 64])
        ensures { (R : List Rule) → Direct R self.now → Ready R within.old → Open R within.new none }
    {
        let mut waiting = ClassSet::ALL;
        while let Some(a) = waiting.take_lowest() {
            waiting = waiting.union(self.visit(within, a));
        }
    }

    // Writes the classes that each class leads to, feature by feature, into the tables.
    fn lead(&self, within: &[ClassSet; 64], tables: &mut [[ClassSet; 64]; 16])
        ensures { AllLed within.now self.now tables.new }
    {
        for (feature, by) in self.by_feature.iter().enumerate() {
            by.lead(within, &mut tables[feature]);
        }
    }
}
