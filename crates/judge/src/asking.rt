// The questions on a sheet: of a class along a word, and of two parts.
ghost use Rattle.judge.specs.Asking.{MemberSays, SameSays};
ghost use Rattle.judge.specs.Sheets.{standing};

use crate::sheet::{Judgement, Sheet};
use crate::verdict::Verdict;
use terms::refusal::Refusal;

impl Sheet {
    // What was found, where that is that the book stands.
    fn standing(&self) -> Result<&Judgement, Refusal>
        ensures { standing self.now result }
    {
        let judgement = self.judged()?;
        match judgement.verdict {
            Verdict::Stands => Ok(judgement),
            Verdict::Clash(_) => Err(Refusal::NotStanding),
        }
    }

    // Is the object that the word reaches from the part in the class?
    pub fn member(&self, part: u8, word: &[u8], class: u8) -> Result<bool, Refusal>
        ensures { MemberSays self.now part word.now class result }
    {
        let judgement = self.standing()?;
        if class >= 64 {
            return Err(Refusal::ClassTooHigh);
        }
        if !word.iter().all(|letter| *letter < 16) {
            return Err(Refusal::FeatureTooHigh);
        }
        Ok(judgement.member(part, word, class))
    }

    // Are the two parts one object?
    pub fn same(&self, p: u8, q: u8) -> Result<bool, Refusal>
        ensures { SameSays self.now p q result }
    {
        let judgement = self.standing()?;
        Ok(judgement.parts[usize::from(p)].leader == judgement.parts[usize::from(q)].leader)
    }
}
