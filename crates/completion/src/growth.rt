// The records of all parts, and how they grow.
ghost use Rattle.std.specs.Prelude.{◌≡◌, ℕ, ◌<◌, true, None, Some, List};
ghost use Rattle.classes.specs.Sets.{has};
ghost use Rattle.terms.specs.Worlds.{Rule};
ghost use Rattle.terms.specs.Facts.{Claim, in_class, value_at, one_object};
ghost use Rattle.terms.specs.Completed.{Known};
ghost use Rattle.completion.specs.Lines.{Moved};
ghost use Rattle.completion.specs.Records.{Has, Shape, Right, leader_of, part_at, value_by, renamed};

use crate::record::PartRecord;
use crate::waiting::Waiting;
use classes::ClassSet;
use std::array;

// A record for each part. Leaders are their own leaders, and values are leaders: where two parts become one object, the
// higher leader is renamed everywhere.
#[derive(Drop)]
pub struct Growth<'a> {
    pub parts: [PartRecord; 256],
    pub waiting: Waiting<'a>,
    ghost shape: { Shape parts },
}

// In every record the leader `from` becomes the leader `to`.
fn rename_all(parts: &mut [PartRecord; 256], waiting: &mut Waiting, from: u8, to: u8)
    requires { to < from }
    ensures moved { Moved parts.old waiting.old parts.new waiting.new }
    ensures named { (p : ℕ) → p < 256 → part_at parts.new p ≡ renamed from to (part_at parts.old p) }
{
    for (part, record) in parts.iter_mut().enumerate() {
        if record.rename(from, to) {
            waiting.renamed(part as u8, from, to);
        }
    }
}

impl<'a> Growth<'a> {
    ghost use Rattle.completion.specs.Growths.{Went, Fresh};

    // Records that say nothing but that each part is itself.
    pub(crate) fn new(slots: &'a mut [u8]) -> Growth<'a>
        ensures { Fresh result }
    {
        Growth {
            parts: array::from_fn(|part| PartRecord::alone(part as u8)),
            waiting: Waiting::new(slots),
        }
    }

    pub(crate) fn leader(&self, part: u8) -> u8
        ensures { result ≡ leader_of self.now.parts part }
    {
        self.parts[usize::from(part)].leader
    }

    // The part is in the classes.
    pub(crate) fn gain(&mut self, part: u8, more: ClassSet)
        ensures went { Went self.old self.new }
        ensures given { (A : ℕ) → has more A ≡ true → Has (part_at self.new.parts part) A }
        ensures right { (R : List Rule) (F : List Claim) → ((A : ℕ) → has more A ≡ true → Known R F (in_class part A)) → Right R F self.old.parts → Right R F self.new.parts }
    {
        let new = more.minus(self.parts[usize::from(part)].classes);
        if self.parts[usize::from(part)].gain(more) {
            self.waiting.gained(part, new);
        }
    }

    // The leader is the value of the part by the feature, which has none.
    fn put(&mut self, part: u8, feature: u8, leader: u8)
        requires low { feature < 16 }
        requires untold { value_by (part_at self.old.parts part) feature ≡ None }
        requires leads { leader_of self.old.parts leader ≡ leader }
        ensures went { Went self.old self.new }
        ensures given { value_by (part_at self.new.parts part) feature ≡ Some (leader_of self.new.parts leader) }
        ensures right { (R : List Rule) (F : List Claim) → ((u : ℕ) × Known R F (value_at part feature u) × Known R F (one_object u leader)) → Right R F self.old.parts → Right R F self.new.parts }
    {
        self.parts[usize::from(part)].put(feature, leader);
        self.waiting.valued(part, leader);
    }

    // The leader `from` has become one object with the lower leader `to`.
    fn join(&mut self, from: u8, to: u8)
        requires lower { to < from }
        requires leads { (leader_of self.old.parts from ≡ from) × (leader_of self.old.parts to ≡ to) }
        ensures went { Went self.old self.new }
        ensures named { (p : ℕ) → p < 256 → part_at self.new.parts p ≡ renamed from to (part_at self.old.parts p) }
        ensures right { (R : List Rule) (F : List Claim) → Known R F (one_object from to) → Right R F self.old.parts → Right R F self.new.parts }
    {
        self.waiting.merged(from, to);
        rename_all(&mut self.parts, &mut self.waiting, from, to);
    }

    // The two parts are one object.
    pub(crate) fn unite(&mut self, p: u8, q: u8)
        ensures went { Went self.old self.new }
        ensures given { leader_of self.new.parts p ≡ leader_of self.new.parts q }
        ensures right { (R : List Rule) (F : List Claim) → Known R F (one_object p q) → Right R F self.old.parts → Right R F self.new.parts }
    {
        let a = self.leader(p);
        let b = self.leader(q);
        if a < b {
            self.join(b, a);
        } else if b < a {
            self.join(a, b);
        }
    }

    // The value of a part by the feature is one object with a part.
    pub(crate) fn value(&mut self, part: u8, feature: u8, value: u8)
        requires { feature < 16 }
        ensures went { Went self.old self.new }
        ensures given { value_by (part_at self.new.parts part) feature ≡ Some (leader_of self.new.parts value) }
        ensures right { (R : List Rule) (F : List Claim) → ((u : ℕ) × Known R F (value_at part feature u) × Known R F (one_object u value)) → Right R F self.old.parts → Right R F self.new.parts }
    {
        match self.parts[usize::from(part)].value(feature) {
            Some(told) => self.unite(told, value),
            None => {
                let leader = self.leader(value);
                self.put(part, feature, leader);
            }
        }
    }
}
