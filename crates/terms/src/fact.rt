// A fact about the parts of a ride, and the questions that make it lawful.
ghost use Rattle.std.specs.Prelude.{◌≡◌};
ghost use Rattle.terms.specs.Refusals.{numbered, asked};
ghost use Rattle.terms.specs.Lawful.{fact_questions, same_fact};

use crate::kind::FactKind;
use crate::refusal::Refusal;

// One fact as numbers: what the three numbers mean depends on the kind.
// The kind is a number, since facts come from outside with any, and `check` refuses one that is not known.
#[derive(Clone, Copy, Default, PartialEq, Eq, Debug)]
pub struct Fact {
    pub kind: u8,
    pub first: u8,
    pub second: u8,
    pub third: u8,
}

impl Fact {
    // The questions of a fact, in their order: the first that has no refuses it.
    pub fn check(&self) -> Result<(), Refusal>
        ensures { numbered result ≡ asked (fact_questions self.now) tt }
    {
        let kind = FactKind::try_from(self.kind)?;
        if kind == FactKind::InClass && self.second >= 64 {
            return Err(Refusal::ClassTooHigh);
        }
        if kind == FactKind::ValueAt && self.second >= 16 {
            return Err(Refusal::FeatureTooHigh);
        }
        if kind != FactKind::ValueAt && self.third != 0 {
            return Err(Refusal::WrongFields);
        }
        Ok(())
    }

    // Are the two the same fact? `==` says so too; the name stays, since callers have it.
    pub fn same(self, other: Fact) -> bool
        ensures { result ≡ same_fact self other }
    {
        self == other
    }
}
