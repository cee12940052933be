// Factory images: the sound part of bytes, and a store that reads its facts in place.
#![tactic(auto)]

ghost use Rattle.std.specs.Prelude.{◌≡◌, map};
ghost use Rattle.stores.specs.Meaning.{listed};
ghost use Rattle.layout.specs.Layout.{fact_in};
ghost use Rattle.image.specs.SoundParts.{good, sound_part, sound_facts, LongestSound};

use layout::{FACT_SIZE, FactRecord, Group, decode};
use terms::fact::Fact;

pub mod store;

// Is the fact that of one of the records?
fn among(records: &[FactRecord], fact: Fact) -> bool
    ensures { result ≡ listed (map fact_in records.now) fact }
{
    records.iter().map(decode).any(|listed| listed == fact)
}

// Is the record marked, lawful, and none of those before it?
fn is_good(bytes: &FactRecord, before: &[FactRecord]) -> bool
    ensures { result ≡ good bytes.now (map fact_in before.now) }
{
    let fact = decode(bytes);
    Group::Factory.marks(bytes) && fact.check().is_ok() && !among(before, fact)
}

// The longest front part of the bytes that is whole, lawful factory records, no fact twice, at most 65,536: it ends before
// the first record that is cut short, has another mark, is unlawful or repeats a fact.
// It is cut from the caller's bytes, and not put together from records: a form that the project keeps (docs/DECISIONS.md).
pub fn sound(bytes: &[u8]) -> &[u8]
    ensures part { result.now ≡ sound_part bytes.now }
    ensures law { LongestSound bytes.now result.now (sound_facts bytes.now) }
{
    let (records, _) = bytes.as_chunks::<FACT_SIZE>();
    let records = &records[..records.len().min(65536)];
    for (place, record) in records.iter().enumerate() {
        if !is_good(record, &records[..place]) {
            return &bytes[..Group::Factory.size() * place];
        }
    }
    &bytes[..Group::Factory.size() * records.len()]
}
