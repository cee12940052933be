// What is written from a sheet into a buffer that is lent: the letters of the clash, and the report.
ghost use Rattle.std.specs.Prelude.{◌≡◌, ◌≤◌, true, [], ◌++◌, length, drop};
ghost use Rattle.judge.specs.Asking.{WordSays};
ghost use Rattle.judge.specs.Sheets.{clashing, report_of, report_on, report_questions, word_of};
ghost use Rattle.judge.specs.Texts.{Writes, said};
ghost use Rattle.judge.specs.Verdicts.{low, numbers, saying};

use crate::sheet::{Judgement, Sheet};
use crate::text::Text;
use crate::verdict::Verdict;
use terms::refusal::Refusal;

// Writes the text over the front of the buffer.
fn write_front(front: &mut [u8], text: &[u8])
    requires { length text.now ≤ length front.old }
    ensures { front.new ≡ text.now ++ drop (length text.now) front.old }
{
    front[..text.len()].copy_from_slice(text);
}

// Writes the text from the place on, or is refused where the place is past the end or the text does not fit.
pub fn write_at(out: &mut [u8], place: usize, text: &[u8]) -> Result<usize, Refusal>
    ensures { Writes [] text.now place out.old out.new result }
{
    if place > out.len() || text.len() > out.len() - place {
        return Err(Refusal::OutputDoesNotFit);
    }
    write_front(&mut out[place..], text);
    Ok(text.len())
}

// The letters, as numbers, after what the text says.
fn write_letters(text: &mut Text, letters: &[u8])
    requires few { length letters.now ≤ 2079 }
    requires low { low letters.now ≡ true }
    requires room { length (said text.old) ≤ 128 }
    ensures { said text.new ≡ said text.old ++ numbers letters.now }
{
    for letter in letters {
        text.number(usize::from(*letter));
    }
}

impl Judgement {
    // The line that says the verdict, after what the text says.
    fn write_verdict(&self, text: &mut Text)
        requires { length (said text.old) ≤ 64 }
        ensures { said text.new ≡ said text.old ++ (saying self.now.verdict).line (word_of self.now) }
    {
        let verdict = self.verdict;
        match verdict {
            Verdict::Stands => text.words(b"stands"),
            Verdict::Clash(clash) => {
                text.words(b"clash part");
                text.number(usize::from(clash.part));
                text.words(b" row");
                text.number(usize::from(clash.row));
                text.words(b" word");
                write_letters(text, &self.letters[..usize::from(clash.length)]);
            }
        }
        text.words(b"\n");
    }

    // The letters of the clash.
    fn clash_letters(&self) -> Result<&[u8], Refusal>
        ensures { clashing self.now result }
    {
        match self.verdict {
            Verdict::Stands => Err(Refusal::NotClashing),
            Verdict::Clash(clash) => Ok(&self.letters[..usize::from(clash.length)]),
        }
    }

    // The lines of the report.
    fn report(&self) -> Text
        ensures { said result ≡ report_of self.now }
    {
        let mut text = Text::new();
        text.words(b"rules");
        text.number(self.rows);
        text.words(b"\nfacts");
        text.number(self.facts);
        text.words(b"\n");
        self.write_verdict(&mut text);
        text
    }
}

impl Sheet {
    // The letters of the clash, one byte each, from the place on; answers how many there are.
    pub fn word(&self, out: &mut [u8], place: usize) -> Result<usize, Refusal>
        ensures { WordSays self.now place out.old out.new result }
    {
        let letters = self.judged()?.clash_letters()?;
        write_at(out, place, letters)
    }

    // The lines of the report from the place on; answers how many bytes there are, at most 6,400.
    pub fn report(&self, out: &mut [u8], place: usize) -> Result<usize, Refusal>
        ensures writes { Writes (report_questions self.now) (report_on self.now) place out.old out.new result }
        ensures short { length (report_on self.now) ≤ 6400 }
    {
        let judgement = self.judged()?;
        write_at(out, place, judgement.report().as_slice())
    }
}
