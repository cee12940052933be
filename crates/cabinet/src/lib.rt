// The log of a control cabinet: a store of a buyer's own make.
#![tactic(auto)]

ghost use Rattle.std.specs.Prelude.{◌≡◌, ◌≤◌, length};
ghost use Rattle.cabinet.specs.Entries.{LogValid};

use arrayvec::ArrayVec;
use stores::store::Store;
use stores::told::{Told, answer_lawful};
use terms::fact::Fact;
use terms::refusal::Refusal;

pub mod shift;

// One entry: 16 bytes. The stamp is the cabinet's clock when the fact was told, the panel that of the log.
#[derive(Clone, Copy, Default)]
pub struct Entry {
    pub stamp: u64,
    pub fact: Fact,
    pub panel: u32,
}

// The entries in use, of at most 32.
#[derive(Drop)]
pub struct Cabinet {
    entries: ArrayVec<Entry, 32>,
    clock: u64,
    panel: u32,
    pub ghost room: { length entries.items ≤ 32 },
    pub ghost valid: { LogValid entries.items },
}

impl Cabinet {
    ghost use Rattle.std.specs.Prelude.{[]};
    ghost use Rattle.stores.specs.Meaning.{listed};
    ghost use Rattle.cabinet.specs.Logs.{in_use, log_facts, log_room};

    // A log of a panel with no entry in use, and its clock at 0.
    pub fn open(panel: u32) -> Cabinet
        ensures empty { log_facts result ≡ [] }
        ensures room { log_room result ≡ 32 }
        ensures clock { result.clock ≡ 0 }
        ensures panel { result.panel ≡ panel }
    {
        Cabinet {
            entries: ArrayVec::new(),
            clock: 0,
            panel,
        }
    }

    // Sets the clock that stamps the entries to come.
    pub fn set_clock(&mut self, clock: u64)
        ensures same { in_use self.new ≡ in_use self.old }
        ensures clock { self.new.clock ≡ clock }
        ensures panel { self.new.panel ≡ self.old.panel }
    {
        self.clock = clock;
    }

    // The entries in use, for a reader who wants the stamps too.
    pub fn entries(&self) -> &[Entry]
        ensures { result.now ≡ in_use self.now }
    {
        &self.entries
    }

    fn lists(&self, fact: Fact) -> bool
        ensures { result ≡ listed (log_facts self.now) fact }
    {
        self.entries.iter().any(|entry| entry.fact.same(fact))
    }
}

impl Store for Cabinet {
    ghost use Rattle.std.specs.Prelude.{◌++◌, replicate};
    ghost use Rattle.stores.specs.Meaning.{Tells, places_used};
    ghost use Rattle.cabinet.specs.Logs.{in_use, log_facts, log_room, next_entry};

    ghost facts = { log_facts };

    ghost room = { log_room };

    ghost valid = { λ _. Unit {0} };

    ghost means = { λ s _. s.valid };

    fn count(&self) -> usize {
        self.entries.len()
    }

    fn free(&self) -> usize {
        self.entries.remaining_capacity()
    }

    fn at(&self, place: usize) -> Option<Fact> {
        self.entries.get(place).map(|entry| entry.fact)
    }

    // The clauses of the interface, and two of its own: which entry is written, and that clock and panel stay.
    fn tell(&mut self, fact: Fact) -> Result<Told, Refusal>
        ensures tells { Tells (log_facts self.old) (log_room self.old) fact result (log_facts self.new) (log_room self.new) }
        ensures unchanged { places_used result ≡ 0 → self.new ≡ self.old }
        ensures written { in_use self.new ≡ in_use self.old ++ replicate (places_used result) (next_entry self.old fact) }
        ensures kept { (self.new.clock ≡ self.old.clock) × (self.new.panel ≡ self.old.panel) }
    {
        fact.check()?;
        let told = answer_lawful(self.lists(fact), self.free())?;
        if told == Told::Added {
            self.entries.push(Entry {
                stamp: self.clock,
                fact,
                panel: self.panel,
            });
        }
        Ok(told)
    }
}

#[cfg(test)]
mod tests {
    use super::*;
    use crate::shift::{begin, end, knows, note};
    use std::mem::size_of;
    use std::test::Fail;
    use stores::calls::tell;
    use terms::kind::FactKind;

    // The part is in class 5. The tests of `piles` have such a helper too: one for both would be a public call that only tests use.
    fn in_class_5(part: u8) -> Fact {
        Fact {
            kind: FactKind::InClass as u8,
            first: part,
            second: 5,
            third: 0,
        }
    }

    #[test]
    fn an_entry_is_16_bytes(rt: HostRuntime) {
        assert_eq!(rt; size_of::<Entry>(), 16);
    }

    #[test]
    fn lists_what_it_accepts(rt: HostRuntime) {
        let mut log = Cabinet::open(7);
        log.set_clock(90);
        assert_eq!(rt; log.tell(in_class_5(3)), Ok(Told::Added));
        assert_eq!(rt; log.tell(in_class_5(3)), Ok(Told::Already));
        let unlawful = Fact {
            second: 64,
            ..in_class_5(3)
        };
        assert_eq!(rt; log.tell(unlawful), Err(Refusal::ClassTooHigh));
        assert_eq!(rt; log.count(), 1);
        assert_eq!(rt; log.free(), 31);
        for entry in log.entries() {
            assert_eq!(rt; entry.stamp, 90);
        }
        assert_eq!(rt; log.at(0), Some(in_class_5(3)));
        assert_eq!(rt; log.at(1), None);
    }

    #[test]
    fn a_full_log_refuses_only_what_is_new(rt: HostRuntime) -> Result<(), Fail> {
        let mut log = Cabinet::open(7);
        for part in 0..32u8 {
            assert_eq!(rt; log.tell(in_class_5(part)), Ok(Told::Added));
        }
        assert_eq!(rt; log.free(), 0);
        assert_eq!(rt; log.tell(in_class_5(32)), Err(Refusal::NoFreePlace));
        assert_eq!(rt; log.tell(in_class_5(31)), Ok(Told::Already));
        Ok(())
    }

    #[test]
    fn the_log_comes_back_as_it_was(rt: HostRuntime) {
        let mut log = Cabinet::open(7);
        assert_eq!(rt; note(&mut log, in_class_5(3)), Ok(Told::Added));
        assert_eq!(rt; tell(&mut log, in_class_5(3)), Ok(Told::Already));
        let (told, pile) = begin(log, in_class_5(4));
        assert_eq!(rt; told, Ok(Told::Added));
        assert_eq!(rt; pile.count(), 2);
        assert_eq!(rt; pile.at(1), Some(in_class_5(4)));
        let log = end(pile, in_class_5(5));
        assert_eq!(rt; log.count(), 1);
        assert!(rt; knows(&log, in_class_5(3)));
    }
}
