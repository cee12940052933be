// A row of a part book, and the questions that make it lawful.
ghost use Rattle.std.specs.Prelude.{◌≡◌, take, drop};
ghost use Rattle.terms.specs.Refusals.{numbered, asked};
ghost use Rattle.terms.specs.Rows.{classes_low, features_low, none_twice, unused_zero, row_questions};

use crate::kind::RowKind;
use crate::refusal::Refusal;

// One rule as numbers: the first `count` features, at most four, are in use.
// Kind and count are numbers, since rows come from outside with any, and `check` refuses those that are none.
// The four features are an array by value: a form that the project keeps, docs/DECISIONS.md.
#[derive(Clone, Copy, Default, PartialEq, Eq, Debug)]
pub struct Row {
    pub kind: u8,
    pub left: u8,
    pub right: u8,
    pub count: u8,
    pub features: [u8; 4],
}

impl Row {
    fn classes_low(&self) -> bool
        ensures { result ≡ classes_low self.now }
    {
        self.left < 64 && self.right < 64
    }

    // The features in use.
    fn used(&self) -> &[u8]
        ensures { result.now ≡ take self.now.count self.now.features }
    {
        &self.features[..usize::from(self.count).min(4)]
    }

    fn unused(&self) -> &[u8]
        ensures { result.now ≡ drop self.now.count self.now.features }
    {
        &self.features[usize::from(self.count).min(4)..]
    }

    fn features_low(&self) -> bool
        ensures { result ≡ features_low self.now }
    {
        self.used().iter().all(|feature| *feature < 16)
    }

    fn unused_zero(&self) -> bool
        ensures { result ≡ unused_zero self.now }
    {
        self.unused().iter().all(|feature| *feature == 0)
    }

    fn none_twice(&self) -> bool
        ensures { result ≡ none_twice self.now }
    {
        let used = self.used();
        for (i, feature) in used.iter().enumerate() {
            if used[..i].contains(feature) {
                return false;
            }
        }
        true
    }

    // The questions of a row, in their order: the first that has no refuses it.
    pub fn check(&self) -> Result<(), Refusal>
        ensures { numbered result ≡ asked (row_questions self.now) tt }
    {
        let kind = RowKind::try_from(self.kind)?;
        if !self.classes_low() {
            return Err(Refusal::ClassTooHigh);
        }
        if !self.features_low() {
            return Err(Refusal::FeatureTooHigh);
        }
        if kind.fits(self.count) && self.none_twice() && self.unused_zero() {
            Ok(())
        } else {
            Err(Refusal::WrongFields)
        }
    }
}
