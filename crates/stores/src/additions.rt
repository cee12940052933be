// The additions store: takes over any store and adds up to 64 facts.
ghost use Rattle.std.specs.Prelude.{◌≡◌, length};
ghost use Rattle.stores.specs.Meaning.{listed, Tells, places_used};
ghost use Rattle.stores.specs.Piles.{pile_facts, pile_room, free_over, PileValid};

use crate::calls::lists;
use crate::store::Store;
use crate::told::{Told, answer_lawful};
use arrayvec::ArrayVec;
use terms::fact::Fact;
use terms::refusal::Refusal;

// The lower store, which nobody else can tell while it is taken over, and the facts of its own.
// A ghost field could hold only that the store below is in one of its states, `∥ .. ∥₁`, and its calls ask for the state
// itself: it stands in `valid`.
#[derive(Drop)]
pub struct Additions<S> {
    below: S,
    own: ArrayVec<Fact, 64>,
}

impl<S: Store> Additions<S> {
    // Takes the store over, with no fact of its own.
    pub fn over(below: S) -> Additions<S>
        requires { S.Store.valid below }
        ensures valid { PileValid S.Store.facts S.Store.valid result }
        ensures same { pile_facts S.Store.facts result ≡ S.Store.facts below }
        ensures room { pile_room S.Store.facts result ≡ free_over 0 (length (S.Store.facts below)) }
        ensures lower { result.below ≡ below }
    {
        Additions {
            below,
            own: ArrayVec::new(),
        }
    }

    // Takes the pile apart and gives the lower store back, as it was taken over.
    pub fn into_below(self) -> S
        ensures { result ≡ self.below }
    {
        let Additions { below, own: _ } = self;
        below
    }

    // Copies are compared, as in the row store.
    fn lists_own(&self, fact: Fact) -> bool
        ensures { result ≡ listed self.now.own.items fact }
    {
        self.own.iter().any(|&own| own == fact)
    }

    fn lists(&self, fact: Fact) -> bool
        requires { S.Store.valid self.now.below }
        ensures { result ≡ listed (pile_facts S.Store.facts self.now) fact }
    {
        lists(&self.below, fact) || self.lists_own(fact)
    }
}

impl<S: Store> Store for Additions<S> {
    ghost facts = { pile_facts S.Store.facts };

    ghost room = { pile_room S.Store.facts };

    ghost valid = { PileValid S.Store.facts S.Store.valid };

    ghost means = { λ s v. v.means };

    fn count(&self) -> usize {
        self.below.count() + self.own.len()
    }

    fn free(&self) -> usize {
        self.own.remaining_capacity().min(65536 - self.count())
    }

    fn at(&self, place: usize) -> Option<Fact> {
        let lower = self.below.count();
        if place < lower {
            self.below.at(place)
        } else {
            self.own.get(place - lower).copied()
        }
    }

    // The lower store stays as it is.
    fn tell(&mut self, fact: Fact) -> Result<Told, Refusal>
        requires { PileValid S.Store.facts S.Store.valid self.old }
        ensures stays { PileValid S.Store.facts S.Store.valid self.new }
        ensures tells { Tells (pile_facts S.Store.facts self.old) (pile_room S.Store.facts self.old) fact result (pile_facts S.Store.facts self.new) (pile_room S.Store.facts self.new) }
        ensures unchanged { places_used result ≡ 0 → self.new ≡ self.old }
        ensures lower { self.new.below ≡ self.old.below }
    {
        fact.check()?;
        let told = answer_lawful(self.lists(fact), self.free())?;
        if told == Told::Added {
            self.own.push(fact);
        }
        Ok(told)
    }
}
