// What is known of one part.
ghost use Rattle.std.specs.Prelude.{◌≡◌, ◌<◌, true, false, ◌↔◌, None};

use classes::ClassSet;
use terms::row::Row;

// The part's classes, the lowest part that is one object with it, and by each feature the leader of its value.
#[derive(Clone, Copy)]
pub struct PartRecord {
    pub classes: ClassSet,
    pub leader: u8,
    pub values: [Option<u8>; 16],
}

impl PartRecord {
    ghost use Rattle.terms.specs.Rows.{lawful};
    ghost use Rattle.completion.specs.Records.{Agree, Grew, alone, gained, key_features, renamed, valued, value_by, weight};

    // A part of which nothing is said but that it is itself.
    pub(crate) fn alone(part: u8) -> PartRecord
        ensures { result ≡ alone part }
    {
        PartRecord {
            classes: ClassSet::NONE,
            leader: part,
            values: [None; 16],
        }
    }

    // The leader of the value by a feature, or nothing where none is told.
    pub fn value(&self, feature: u8) -> Option<u8>
        ensures { result ≡ value_by self.now feature }
    {
        *self.values.get(usize::from(feature))?
    }

    // Gains classes, and answers whether any was new.
    pub(crate) fn gain(&mut self, more: ClassSet) -> bool
        ensures after { self.new ≡ gained self.old more }
        ensures grew { Grew result self.old self.new }
    {
        let classes = self.classes.union(more);
        let grew = classes != self.classes;
        self.classes = classes;
        grew
    }

    // Gains the value by a feature that has none.
    pub(crate) fn put(&mut self, feature: u8, value: u8)
        requires low { feature < 16 }
        requires untold { value_by self.old feature ≡ None }
        ensures after { self.new ≡ valued self.old feature value }
        ensures grew { weight self.new < weight self.old }
    {
        self.values[usize::from(feature)] = Some(value);
    }

    // The part `from` has become the part `to`: renames it where it is leader or value, and answers whether it was.
    pub(crate) fn rename(&mut self, from: u8, to: u8) -> bool
        requires { to < from }
        ensures after { self.new ≡ renamed from to self.old }
        ensures grew { Grew result self.old self.new }
    {
        let mut grew = false;
        if self.leader == from {
            self.leader = to;
            grew = true;
        }
        for value in self.values.iter_mut() {
            if *value == Some(from) {
                *value = Some(to);
                grew = true;
            }
        }
        grew
    }
    // Do the two parts have, by each feature of the key, values that are one object? No value agrees with an untold one.
    pub(crate) fn agrees(&self, other: &PartRecord, key: Row) -> bool
        requires { lawful key ≡ true }
        ensures { (result ≡ true) ↔ Agree (key_features key) self.now other.now }
    {
        let used = &key.features[..usize::from(key.count).min(4)];
        used.iter().all(|feature| self.value(*feature).is_some()
            && self.value(*feature) == other.value(*feature))
    }
}
