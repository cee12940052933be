// A sealed book: rows that no call changes, and exactly their class steps.
ghost use Rattle.std.specs.Prelude.{◌≡◌, ℕ, ◌<◌, ◌≤◌, true, ◌↔◌, length};
ghost use Rattle.classes.specs.Sets.{has};
ghost use Rattle.terms.specs.Rows.{all_lawful};
ghost use Rattle.terms.specs.Worlds.{rules_of};
ghost use Rattle.terms.specs.Steps.{Within, Leads, AlwaysWithin, AlwaysLeads};
ghost use Rattle.book.specs.Tables.{Steps};

use crate::links::Links;
use crate::sealing::StepTables;
use arrayvec::ArrayVec;
use classes::ClassSet;
use terms::row::Row;

// The rows, at most 256 and each lawful, and the tables of their class steps.
// The rows are those of a draft, and a book holds no draft: what can be written is not to be reached in what is sealed.
// Nor do both hold a third type, of lawful rows: draft.rt says why.
#[derive(Drop)]
pub struct Book {
    rows: ArrayVec<Row, 256>,
    tables: StepTables,
    ghost room: { length rows.items ≤ 256 },
    ghost lawful: { all_lawful rows.items ≡ true },
    ghost steps: { ∥ Steps (rules_of rows.items) tables.within tables.leads ∥₁ },
}

impl Book {
    ghost use Rattle.book.specs.Books.{rows_of, steps_of, within_set, leads_set};
    ghost use Rattle.book.specs.Sealing.{Direct};

    // The book of the rows, with their class steps.
    pub(crate) fn of(rows: ArrayVec<Row, 256>) -> Book
        requires { all_lawful rows.items ≡ true }
        ensures { rows_of result ≡ rows.items }
    {
        let links = Links::of(rows.as_slice());
        let tables = StepTables::of(&links);
        Book { rows, tables }
    }

    // The rows, by their numbers.
    pub fn rows(&self) -> &[Row]
        ensures { result.now ≡ rows_of self.now }
    {
        self.rows.as_slice()
    }

    // The tables of all class steps.
    pub fn steps(&self) -> &StepTables
        ensures value { result.now ≡ steps_of self.now }
        ensures exact { ∥ Steps (rules_of (rows_of self.now)) result.now.within result.now.leads ∥₁ }
    {
        &self.tables
    }

    // What the rows say of classes directly.
    pub fn links(&self) -> Links
        ensures { Direct (rules_of (rows_of self.now)) result }
    {
        Links::of(self.rows.as_slice())
    }

    // The classes that a class lies within; a number past 63 is no class and lies within none.
    pub fn within(&self, class: u8) -> ClassSet
        ensures value { result ≡ within_set self.now class }
        ensures exact { (B : ℕ) → (has result B ≡ true) ↔ ((class < 64) × ∥ Within (rules_of (rows_of self.now)) class B ∥₁) }
        ensures certain { (B : ℕ) → (has result B ≡ true) ↔ ((class < 64) × AlwaysWithin (rules_of (rows_of self.now)) class B) }
    {
        if class >= 64 {
            return ClassSet::NONE;
        }
        self.tables.within[usize::from(class)]
    }

    // The classes that a class leads to by a feature.
    pub fn leads(&self, class: u8, feature: u8) -> ClassSet
        ensures value { result ≡ leads_set self.now class feature }
        ensures exact { (B : ℕ) → (has result B ≡ true) ↔ ∥ Leads (rules_of (rows_of self.now)) class feature B ∥₁ }
        ensures certain { (B : ℕ) → (has result B ≡ true) ↔ AlwaysLeads (rules_of (rows_of self.now)) class feature B }
    {
        if class >= 64 || feature >= 16 {
            return ClassSet::NONE;
        }
        self.tables.leads[usize::from(feature)][usize::from(class)]
    }
}
