// Calls on any store.
ghost use Rattle.std.specs.Prelude.{◌≡◌};
ghost use Rattle.stores.specs.Meaning.{listed, Tells, TellLaw, places_used};

use crate::store::Store;
use crate::told::Told;
use terms::fact::Fact;
use terms::refusal::Refusal;

// Is the fact in the store's list? A make's own `tell` scans its own rows: this call's proof stands on that `tell`.
pub fn lists<S: Store>(store: &S, fact: Fact) -> bool
    requires { S.Store.valid store.now }
    ensures { result ≡ listed (S.Store.facts store.now) fact }
{
    (0..store.count()).any(|place| store.at(place) == Some(fact))
}

// Tells a store of any make a fact: what is accepted is then listed, at its place, once, and nothing else has changed.
pub fn tell<S: Store>(store: &mut S, fact: Fact) -> Result<Told, Refusal>
    requires { S.Store.valid store.old }
    ensures stays { S.Store.valid store.new }
    ensures tells { Tells (S.Store.facts store.old) (S.Store.room store.old) fact result (S.Store.facts store.new) (S.Store.room store.new) }
    ensures unchanged { places_used result ≡ 0 → store.new ≡ store.old }
    ensures law { TellLaw (S.Store.facts store.old) (S.Store.room store.old) fact result (S.Store.facts store.new) (S.Store.room store.new) }
{
    store.tell(fact)
}
