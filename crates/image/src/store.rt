// The image store: factory records read in the caller's bytes.
ghost use Rattle.image.specs.SoundParts.{ImageValid};

use crate::{among, sound};
use layout::{FactRecord, decode};
use stores::store::Store;
use stores::told::{Told, answer_lawful};
use terms::fact::Fact;
use terms::refusal::Refusal;

// The bytes are the records of the list, and nothing is copied: a form that the project keeps (docs/DECISIONS.md).
#[derive(Drop)]
pub struct ImageStore<'a> {
    bytes: &'a [u8],
    pub ghost valid: { ImageValid bytes.now },
}

impl<'a> ImageStore<'a> {
    ghost use Rattle.std.specs.Prelude.{◌≡◌, map};
    ghost use Rattle.layout.specs.Layout.{fact_in};
    ghost use Rattle.image.specs.SoundParts.{sound_part, sound_facts, LongestSound};
    ghost use Rattle.image.specs.Images.{image_facts, image_room};

    // A store that lists the facts of the sound part of the bytes, and has no free place.
    pub fn open(bytes: &'a [u8]) -> ImageStore<'a>
        ensures list { image_facts result ≡ sound_facts bytes.now }
        ensures room { image_room result ≡ 0 }
        ensures part { result.bytes.now ≡ sound_part bytes.now }
        ensures law { LongestSound bytes.now result.bytes.now (image_facts result) }
    {
        ImageStore {
            bytes: sound(bytes),
        }
    }

    fn records(&self) -> &[FactRecord]
        ensures { map fact_in result.now ≡ image_facts self.now }
    {
        self.bytes.as_chunks().0
    }
}

impl<'a> Store for ImageStore<'a> {
    ghost use Rattle.image.specs.Images.{image_facts, image_room};

    ghost facts = { image_facts };

    ghost room = { image_room };

    ghost valid = { λ _. Unit {0} };

    ghost means = { λ s _. s.valid.means };

    fn count(&self) -> usize {
        self.records().len()
    }

    fn free(&self) -> usize {
        0
    }

    fn at(&self, place: usize) -> Option<Fact> {
        self.records().get(place).map(decode)
    }

    // No place is ever free, so nothing changes.
    fn tell(&mut self, fact: Fact) -> Result<Told, Refusal> {
        fact.check()?;
        answer_lawful(among(self.records(), fact), self.free())
    }
}
