// The rows that exclude pairs.
ghost use Rattle.std.specs.Prelude.{◌↔◌, IsTrue};
ghost use Rattle.search.specs.Rows.{Bars, Excluding};

use crate::ClassPair;
use book::sealed::Book;
use terms::kind::RowKind;
use terms::row::Row;

// Whether the row excludes the pair, whichever class it names first.
fn bars(row: &Row, pair: ClassPair) -> bool
    ensures { IsTrue result ↔ Bars row.now pair }
{
    RowKind::try_from(row.kind) == Ok(RowKind::Exclusion)
        && ClassPair::of(row.left, row.right) == pair
}

// The first row that excludes the pair.
pub(crate) fn excluding(book: &Book, pair: ClassPair) -> Option<u8>
    ensures { Excluding book.now pair result }
{
    let row = book.rows().iter().position(|row| bars(row, pair))?;
    Some(row as u8)
}
