// Piles that are put together and taken apart over any store.
ghost use Rattle.std.specs.Prelude.{◌≡◌, length};
ghost use Rattle.terms.specs.Refusals.{asked};
ghost use Rattle.stores.specs.Meaning.{worded, tell_questions, accepted_as};
ghost use Rattle.stores.specs.Piles.{free_over, pile_facts, pile_room, PileValid};

use crate::additions::Additions;
use crate::store::Store;
use crate::told::Told;
use terms::fact::Fact;
use terms::refusal::Refusal;

// The store as it was, and the answer.
pub struct Tried<S> {
    pub store: S,
    pub answer: Result<Told, Refusal>,
}

// What additions over the store answer to a fact, which is forgotten again: the store comes back as it was.
pub fn try_fact<S: Store>(store: S, fact: Fact) -> Tried<S>
    requires { S.Store.valid store }
    ensures back { result.store ≡ store }
    ensures answer { worded result.answer ≡ asked (tell_questions (S.Store.facts store) (free_over 0 (length (S.Store.facts store))) fact) (accepted_as (S.Store.facts store) fact) }
{
    let mut pile = Additions::over(store);
    let answer = pile.tell(fact);
    Tried {
        store: pile.into_below(),
        answer,
    }
}

// Additions over additions over the store.
pub fn pile_two<S: Store>(store: S) -> Additions<Additions<S>>
    requires { S.Store.valid store }
    ensures valid { PileValid (pile_facts S.Store.facts) (PileValid S.Store.facts S.Store.valid) result }
    ensures same { pile_facts (pile_facts S.Store.facts) result ≡ S.Store.facts store }
    ensures room { pile_room (pile_facts S.Store.facts) result ≡ free_over 0 (length (S.Store.facts store)) }
    ensures lower { result.below.below ≡ store }
{
    Additions::over(Additions::over(store))
}

// The store under two levels of additions.
pub fn unpile_two<S: Store>(pile: Additions<Additions<S>>) -> S
    ensures { result ≡ pile.below.below }
{
    pile.into_below().into_below()
}
