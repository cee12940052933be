// Where a word leads from a part.
ghost use Rattle.std.specs.Prelude.{◌≡◌, ℕ, ◌<◌, true, List, ◌∷◌};
ghost use Rattle.judge.specs.Verdicts.{low};

use crate::sheet::Judgement;
use book::closing::gather;
use classes::ClassSet;

// The object that a word reaches: that of a part, or one that no fact names, of which the classes are known.
#[derive(Clone, Copy)]
pub enum Reached {
    Part(u8),
    Unnamed(ClassSet),
}

impl Judgement {
    ghost use Rattle.judge.specs.Sheets.{tables, along};
    ghost use Rattle.theory.specs.Tables.{member};

    // One letter on.
    fn step(&self, from: Reached, letter: u8) -> Reached
        requires { letter < 16 }
        ensures { (w : List ℕ) (A : ℕ) → A < 64 → along self.now result w A ≡ along self.now from (letter ∷ w) A }
    {
        let by = usize::from(letter);
        let classes = match from {
            Reached::Part(part) => {
                let record = self.parts[usize::from(part)];
                if let Some(value) = record.value(letter) {
                    return Reached::Part(value);
                }
                record.classes
            }
            Reached::Unnamed(classes) => classes,
        };
        Reached::Unnamed(gather(&self.steps.leads[by], classes))
    }

    // Is the object that the word reaches from the part in the class?
    pub(crate) fn member(&self, part: u8, word: &[u8], class: u8) -> bool
        requires letters { low word.now ≡ true }
        requires class { class < 64 }
        ensures { result ≡ member (tables self.now) part word.now class }
    {
        let mut here = Reached::Part(self.parts[usize::from(part)].leader);
        for letter in word {
            here = self.step(here, *letter);
        }
        match here {
            Reached::Part(part) => self.parts[usize::from(part)].classes.has(class),
            Reached::Unnamed(classes) => classes.has(class),
        }
    }
}
