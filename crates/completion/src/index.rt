// The parts that are their own leaders, by their classes and by their values.
ghost use Rattle.std.specs.Prelude.{◌≡◌, ℕ, ◌<◌, true, List};
ghost use Rattle.terms.specs.Rows.{lawful};
ghost use Rattle.completion.specs.Records.{Agree, Has, key_features, leader_of, part_at};
ghost use Rattle.completion.specs.PartSets.{HasMembers, HasNamers, In, parts_at};

use crate::part_set::PartSet;
use crate::record::PartRecord;
use classes::ClassSet;
use terms::row::Row;

// The records as they were, the members of each class, and by each feature the parts that have each value.
#[derive(Drop)]
pub struct Index {
    pub records: [PartRecord; 256],
    pub members: [PartSet; 64],
    pub namers: [[PartSet; 256]; 16],
}

// The parts in the class.
fn members_of(parts: &[PartRecord; 256], class: u8) -> PartSet
    ensures { HasMembers parts.now class result }
{
    let mut set = PartSet::NONE;
    for (part, record) in parts.iter().enumerate() {
        if usize::from(record.leader) == part && record.classes.has(class) {
            set.insert(part as u8);
        }
    }
    set
}

// Empties the sets.
fn clear(sets: &mut [PartSet; 256]) {
    for set in sets.iter_mut() {
        *set = PartSet::NONE;
    }
}

// Adds the parts that have each value by the feature.
fn add_namers(parts: &[PartRecord; 256], feature: u8, sets: &mut [PartSet; 256])
    ensures { HasNamers parts.now feature sets.new }
{
    for (part, record) in parts.iter().enumerate() {
        if usize::from(record.leader) == part {
            if let Some(value) = record.value(feature) {
                sets[usize::from(value)].insert(part as u8);
            }
        }
    }
}

fn members(parts: &[PartRecord; 256]) -> [PartSet; 64]
    ensures { (A : ℕ) → A < 64 → HasMembers parts.now A (parts_at result A) }
{
    let mut sets = [PartSet::NONE; 64];
    for class in 0..64u8 {
        sets[usize::from(class)] = members_of(parts, class);
    }
    sets
}

impl Index {
    ghost use Rattle.completion.specs.PartSets.{Lists};

    // An index that lists no part. It is made once and lent, since it is large.
    pub(crate) fn new() -> Index {
        Index {
            records: [PartRecord::alone(0); 256],
            members: [PartSet::NONE; 64],
            namers: [[PartSet::NONE; 256]; 16],
        }
    }

    // Lists the parts anew.
    pub(crate) fn list(&mut self, parts: &[PartRecord; 256])
        ensures { Lists parts.now self.new }
    {
        self.records = *parts;
        self.members = members(parts);
        for feature in 0..16u8 {
            let sets = &mut self.namers[usize::from(feature)];
            clear(sets);
            add_namers(parts, feature, sets);
        }
    }

    // The parts of the class, of those listed, that agree with the one on the features of the key; others may be among them.
    pub(crate) fn candidates(&self, key: Row, class: u8, one: &PartRecord) -> PartSet
        requires lawful { lawful key ≡ true }
        requires low { class < 64 }
        ensures { (ps : List PartRecord) → Lists ps self.now → (q : ℕ) → q < 256 → leader_of ps q ≡ q → Has (part_at ps q) class → Agree (key_features key) one.now (part_at ps q) → In result q }
    {
        let mut set = self.members[usize::from(class)];
        for place in 0..usize::from(key.count) {
            let feature = key.features[place];
            let Some(value) = one.value(feature) else {
                return PartSet::NONE;
            };
            set = set.meet(self.namers[usize::from(feature)][usize::from(value)]);
        }
        set
    }

    // The classes that are due of those that the part was in, if it was its own leader.
    pub(crate) fn due(&self, part: u8, due: ClassSet) -> ClassSet {
        let record = &self.records[usize::from(part)];
        if record.leader == part {
            due.minus(due.minus(record.classes))
        } else {
            ClassSet::NONE
        }
    }
}
