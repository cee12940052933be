// A small book whose rules imply more than they say.
ghost use Rattle.std.specs.Prelude.{◌≡◌};
ghost use Rattle.terms.specs.Worlds.{rules_of};
ghost use Rattle.terms.specs.Steps.{Within};
ghost use Rattle.terms.specs.Kinds.{row_number};
ghost use Rattle.terms.specs.Examples.{plain_row, example_rows};

use crate::kind::RowKind;
use crate::row::Row;

// A row with at most the feature 0 in use.
fn plain_row(kind: RowKind, left: u8, right: u8, count: u8) -> Row
    ensures { result ≡ plain_row (row_number kind) left right count }
{
    Row {
        kind: kind as u8,
        left,
        right,
        count,
        features: [0; 4],
    }
}

// The value by feature 0 of class 0 is in class 1; class 1 lies within 2; what has a value by feature 0 in class 2 is
// in class 3; classes 0 and 3 have no object in common. So class 0 lies within 3, and no object can be in it.
pub fn example() -> [Row; 4]
    ensures rows { result ≡ example_rows }
    ensures implied { Within (rules_of result) 0 3 }
{
    [
        plain_row(RowKind::Value, 0, 1, 1),
        plain_row(RowKind::Subclass, 1, 2, 0),
        plain_row(RowKind::Pullback, 2, 3, 1),
        plain_row(RowKind::Exclusion, 0, 3, 0),
    ]
}
