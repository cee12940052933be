// How a file's records are laid out: the groups of records, and the row or the fact of one record.
#![tactic(auto)]

ghost use Rattle.std.specs.Prelude.{◌≡◌, [], ◌∷◌};
ghost use Rattle.terms.specs.Refusals.{ask, asked, numbered};
ghost use Rattle.layout.specs.declared.Group.TheVariants.{Rule, Factory};
ghost use Rattle.layout.specs.Layout.{fact_in, layout, marked, row_in, whole};

use terms::fact::Fact;
use terms::refusal::Refusal;
use terms::row::Row;

// How many bytes a factory or site record has.
pub const FACT_SIZE: usize = 6;

// A factory or site record, whole.
pub type FactRecord = [u8; FACT_SIZE];

// The groups of records, in the order in which they stand in a file.
#[derive(Clone, Copy, PartialEq, Eq, Debug)]
pub enum Group {
    Rule,
    Factory,
    Site,
}

impl Group {
    // The two bytes with which each record of the group begins.
    pub fn mark(self) -> [u8; 2]
        ensures { result ≡ (layout self).mark }
    {
        match self {
            Group::Rule => [0x50, 0x52],
            Group::Factory => [0x50, 0x46],
            Group::Site => [0x50, 0x53],
        }
    }

    // How many bytes each record of the group has.
    pub fn size(self) -> usize
        ensures { result ≡ (layout self).size }
    {
        match self {
            Group::Rule => 10,
            Group::Factory | Group::Site => FACT_SIZE,
        }
    }

    // Does the group's mark stand at the front of the bytes?
    pub fn marks(self, bytes: &[u8]) -> bool
        ensures { result ≡ marked self bytes.now }
    {
        bytes.starts_with(&self.mark())
    }
}

// The row of the rule record at the front of the bytes, if the record is whole.
// A function and no `TryFrom` of `Row`: the layout of records is this crate's, and the type is not.
pub fn rule_record(bytes: &[u8]) -> Result<Row, Refusal>
    ensures { numbered result ≡ asked (ask 12 (whole Rule bytes.now) ∷ []) (row_in bytes.now) }
{
    let [_, _, kind, left, right, count, a, b, c, d, ..] = *bytes else {
        return Err(Refusal::RecordCut);
    };
    Ok(Row {
        kind,
        left,
        right,
        count,
        features: [a, b, c, d],
    })
}

// The fact of a factory or a site record, by its bytes.
pub fn decode(bytes: &FactRecord) -> Fact
    ensures { result ≡ fact_in bytes.now }
{
    let [_, _, kind, first, second, third] = *bytes;
    Fact {
        kind,
        first,
        second,
        third,
    }
}

// The fact of the factory or site record at the front of the bytes, if the record is whole.
pub fn fact_record(bytes: &[u8]) -> Result<Fact, Refusal>
    ensures { numbered result ≡ asked (ask 12 (whole Factory bytes.now) ∷ []) (fact_in bytes.now) }
{
    bytes.first_chunk().map(decode).ok_or(Refusal::RecordCut)
}
