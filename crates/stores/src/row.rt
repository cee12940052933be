// The row store: facts in a table of rows that the caller lends.
ghost use Rattle.std.specs.Prelude.{◌≡◌, ◌<◌, length, slice_set};
ghost use Rattle.stores.specs.Tables.{RowsValid};

use crate::store::Store;
use crate::told::{Told, answer_lawful};
use terms::fact::Fact;
use terms::refusal::Refusal;

// The first `used` rows of the table are the list. The table is the caller's own, of any length, so it is no ArrayVec.
#[derive(Drop)]
pub struct RowStore<'a> {
    rows: &'a mut [Fact],
    used: usize,
    pub ghost valid: { RowsValid rows.now used },
}

// Writes a fact into its row: one function takes the table whole and does the writing, a form that the project keeps
// (docs/DECISIONS.md).
fn put(rows: &mut [Fact], row: usize, fact: Fact)
    requires { row < length rows.old }
    ensures { rows.new ≡ slice_set rows.old row fact }
{
    rows[row] = fact;
}

impl<'a> RowStore<'a> {
    ghost use Rattle.std.specs.Prelude.{min, []};
    ghost use Rattle.stores.specs.Meaning.{listed};
    ghost use Rattle.stores.specs.Rows.{row_facts, row_room};

    // A store that lists nothing, whatever the table holds; each row is a free place, up to 65,536.
    pub fn open(rows: &'a mut [Fact]) -> RowStore<'a>
        ensures empty { row_facts result ≡ [] }
        ensures room { row_room result ≡ min (length rows.old) 65536 }
        ensures lent { result.rows.ghost_name ≡ rows.entry.ghost_name }
        ensures held { result.rows.now ≡ rows.old }
    {
        RowStore { rows, used: 0 }
    }

    // Ends the store and hands the caller's table back, as the store left it.
    pub fn into_rows(self) -> &'a mut [Fact]
        ensures held { result.now ≡ self.entry.rows.now }
        ensures lent { result.ghost_name ≡ self.entry.rows.ghost_name }
    {
        let RowStore { rows, used: _ } = self;
        rows
    }

    // Copies are compared, since `contains` compares through references, which costs more in the hottest loop of a store.
    fn lists(&self, fact: Fact) -> bool
        ensures { result ≡ listed (row_facts self.now) fact }
    {
        self.rows[..self.used].iter().any(|&row| row == fact)
    }
}

impl<'a> Store for RowStore<'a> {
    ghost use Rattle.std.specs.Prelude.{◌++◌, drop};
    ghost use Rattle.stores.specs.Meaning.{Tells, places_used};
    ghost use Rattle.stores.specs.Rows.{row_facts, row_room};

    ghost facts = { row_facts };

    ghost room = { row_room };

    ghost valid = { λ _. Unit {0} };

    ghost means = { λ s _. s.valid.means };

    fn count(&self) -> usize {
        self.used
    }

    fn free(&self) -> usize {
        self.rows.len().min(65536) - self.used
    }

    fn at(&self, place: usize) -> Option<Fact> {
        self.rows[..self.used].get(place).copied()
    }

    // The clauses of the interface, and two of its own: the table stays lent, and holds the list in front and past it
    // what it held before.
    fn tell(&mut self, fact: Fact) -> Result<Told, Refusal>
        ensures tells { Tells (row_facts self.old) (row_room self.old) fact result (row_facts self.new) (row_room self.new) }
        ensures unchanged { places_used result ≡ 0 → self.new ≡ self.old }
        ensures lent { self.new.rows.ghost_name ≡ self.old.rows.ghost_name }
        ensures table { self.new.rows.now ≡ row_facts self.new ++ drop self.new.used self.old.rows.now }
    {
        fact.check()?;
        let told = answer_lawful(self.lists(fact), self.free())?;
        if told == Told::Added {
            put(self.rows, self.used, fact);
            self.used += 1;
        }
        Ok(told)
    }
}
