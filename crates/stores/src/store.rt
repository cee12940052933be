// The interface of stores: one meaning for every make.
ghost use Rattle.std.specs.Prelude.{◌≡◌, ℕ, List, length};
ghost use Rattle.std.specs.List.{slice_get};
ghost use Rattle.terms.specs.declared.fact.Fact.{Fact};
ghost use Rattle.stores.specs.Meaning.{Meaning, Tells, places_used};

use crate::told::Told;
use terms::fact::Fact;
use terms::refusal::Refusal;

// A store of facts. Only `tell` changes it.
pub trait Store {
    // the facts that it lists, in their order
    ghost facts: { Self → List Fact };

    // how many places are free
    ghost room: { Self → ℕ };

    // the states that this make can be in, from its opening on
    ghost valid: { Self → Type 0 };

    // in each of them it means a list of different lawful facts and a number of free places
    ghost means: { (s : Self) → valid s → Meaning (facts s) (room s) };

    // The length of the list.
    fn count(&self) -> usize
        requires { valid self.now }
        ensures { result ≡ length (facts self.now) };

    // The number of free places.
    fn free(&self) -> usize
        requires { valid self.now }
        ensures { result ≡ room self.now };

    // The fact at a place counted from 0, or nothing past the end; that it is an Option is a form that the project keeps
    // (docs/DECISIONS.md).
    fn at(&self, place: usize) -> Option<Fact>
        requires { valid self.now }
        ensures { result ≡ slice_get (facts self.now) place };

    // Accepts the fact, or refuses it; unless the fact is added, nothing changes.
    fn tell(&mut self, fact: Fact) -> Result<Told, Refusal>
        requires { valid self.old }
        ensures stays { valid self.new }
        ensures tells { Tells (facts self.old) (room self.old) fact result (facts self.new) (room self.new) }
        ensures unchanged { places_used result ≡ 0 → self.new ≡ self.old };
}
