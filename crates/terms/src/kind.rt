// The kinds of rows and facts, and the numbers that stand for them.
ghost use Rattle.std.specs.Prelude.{◌≡◌};
ghost use Rattle.terms.specs.Kinds.{fits_kind, row_kind, fact_kind};

use crate::refusal::Refusal;

// What a row says.
#[derive(Clone, Copy, PartialEq, Eq, Debug)]
pub enum RowKind {
    Subclass = 1,
    Exclusion = 2,
    Value = 3,
    Pullback = 4,
    Key = 5,
}

impl TryFrom<u8> for RowKind {
    type Error = Refusal;

    ghost try_from_gives = { λ number r. r ≡ row_kind number };

    fn try_from(number: u8) -> Result<RowKind, Refusal> {
        match number {
            1 => Ok(RowKind::Subclass),
            2 => Ok(RowKind::Exclusion),
            3 => Ok(RowKind::Value),
            4 => Ok(RowKind::Pullback),
            5 => Ok(RowKind::Key),
            _ => Err(Refusal::UnknownKind),
        }
    }
}

impl RowKind {
    // Can a row of the kind have so many features in use?
    pub(crate) fn fits(self, count: u8) -> bool
        ensures { result ≡ fits_kind self count }
    {
        match self {
            RowKind::Subclass | RowKind::Exclusion => count == 0,
            RowKind::Value | RowKind::Pullback => count == 1,
            RowKind::Key => (1..=4).contains(&count),
        }
    }
}

// What a fact says.
#[derive(Clone, Copy, PartialEq, Eq, Debug)]
pub enum FactKind {
    InClass = 1,
    ValueAt = 2,
    OneObject = 3,
}

impl TryFrom<u8> for FactKind {
    type Error = Refusal;

    ghost try_from_gives = { λ number r. r ≡ fact_kind number };

    fn try_from(number: u8) -> Result<FactKind, Refusal> {
        match number {
            1 => Ok(FactKind::InClass),
            2 => Ok(FactKind::ValueAt),
            3 => Ok(FactKind::OneObject),
            _ => Err(Refusal::UnknownKind),
        }
    }
}
