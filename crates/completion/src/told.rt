// Facts as they are told.
ghost use Rattle.std.specs.Prelude.{◌≡◌, true, List};
ghost use Rattle.terms.specs.Lawful.{lawful_fact};
ghost use Rattle.terms.specs.Worlds.{◌∈◌, Rule};
ghost use Rattle.terms.specs.Facts.{Claim, claim_of, claims_of};
ghost use Rattle.terms.specs.Completed.{Known};
ghost use Rattle.theory.specs.Legal.{ClaimLegal};
ghost use Rattle.completion.specs.Records.{Says, Right};
ghost use Rattle.completion.specs.Growths.{Went};

use crate::growth::Growth;
use classes::ClassSet;
use stores::store::Store;
use terms::fact::Fact;
use terms::kind::FactKind;

impl<'a> Growth<'a> {
    // The fact holds.
    fn tell(&mut self, fact: Fact)
        requires { lawful_fact fact ≡ true }
        ensures went { Went self.old self.new }
        ensures legal { ClaimLegal (claim_of fact) }
        ensures given { Says self.new.parts (claim_of fact) }
        ensures right { (R : List Rule) (F : List Claim) → Known R F (claim_of fact) → Right R F self.old.parts → Right R F self.new.parts }
    {
        match FactKind::try_from(fact.kind) {
            Ok(FactKind::InClass) => {
                let mut class = ClassSet::NONE;
                class.insert(fact.second);
                self.gain(fact.first, class);
            }
            Ok(FactKind::ValueAt) => self.value(fact.first, fact.second, fact.third),
            Ok(FactKind::OneObject) => self.unite(fact.first, fact.second),
            Err(_) => {}
        }
    }

    // Every fact of the store holds.
    pub(crate) fn tell_all<S: Store>(&mut self, store: &S)
        requires { S.Store.valid store.now }
        ensures went { Went self.old self.new }
        ensures legal { (c : Claim) → c ∈ claims_of (S.Store.facts store.now) → ClaimLegal c }
        ensures given { (c : Claim) → c ∈ claims_of (S.Store.facts store.now) → Says self.new.parts c }
        ensures right { (R : List Rule) (F : List Claim) → ((c : Claim) → c ∈ claims_of (S.Store.facts store.now) → Known R F c) → Right R F self.old.parts → Right R F self.new.parts }
    {
        for place in 0..store.count() {
            if let Some(fact) = store.at(place) {
                self.tell(fact);
            }
        }
    }
}
