// A draft: the rows of a book that is still being written, and the calls that write it.
ghost use Rattle.std.specs.Prelude.{◌≡◌, ◌≤◌, true, [], length, OnErr};
ghost use Rattle.terms.specs.Refusals.{numbered, asked};
ghost use Rattle.terms.specs.Rows.{all_lawful};

use crate::sealed::Book;
use arrayvec::ArrayVec;
use terms::refusal::Refusal;
use terms::row::Row;

// The rows taken, at most 256 and each lawful. A book says the same of its rows: a third type, of lawful rows, inside both
// would put one level more on each read, and spare two inner functions (`Book::of`, `Links::of`) their `requires`.
#[derive(Drop)]
pub struct Draft {
    rows: ArrayVec<Row, 256>,
    ghost room: { length rows.items ≤ 256 },
    ghost lawful: { all_lawful rows.items ≡ true },
}

impl Draft {
    ghost use Rattle.book.specs.Books.{rows_of};
    ghost use Rattle.book.specs.Drafts.{listed, rule_questions, grown, RuleLaw};

    // A draft with no row.
    pub fn new() -> Draft
        ensures { listed result ≡ [] }
    {
        Draft {
            rows: ArrayVec::new(),
        }
    }

    // Takes the row and answers its number, or refuses it and changes nothing.
    pub fn rule(&mut self, row: Row) -> Result<u8, Refusal>
        ensures answer { numbered result ≡ asked (rule_questions (listed self.old) row) (length (listed self.old)) }
        ensures after { listed self.new ≡ grown result (listed self.old) row }
        ensures unchanged { OnErr result (self.new ≡ self.old) }
        ensures law { RuleLaw (listed self.old) row result }
    {
        row.check()?;
        // A row number fits a u8 exactly when a row is free.
        let Ok(number) = u8::try_from(self.rows.len()) else {
            return Err(Refusal::DraftFull);
        };
        self.rows.push(row);
        Ok(number)
    }

    // Uses the draft up and yields the sealed book of its rows.
    pub fn seal(self) -> Book
        ensures { rows_of result ≡ listed self }
    {
        Book::of(self.rows)
    }
}
