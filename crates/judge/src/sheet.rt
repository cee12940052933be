// The sheet that judging fills.
ghost use Rattle.std.specs.Prelude.{◌≡◌, ◌≤◌, true, None};
ghost use Rattle.judge.specs.Verdicts.{low, saying, word};

use crate::verdict::Verdict;
use book::sealing::StepTables;
use completion::record::PartRecord;
use terms::refusal::Refusal;

// What a judging found: the completed facts of each part, the book's class steps and number of rows, the number of facts
// read, and the verdict, whose letters are the first of `letters`.
#[derive(Drop)]
pub struct Judgement {
    pub parts: [PartRecord; 256],
    pub steps: StepTables,
    pub rows: usize,
    pub facts: usize,
    pub verdict: Verdict,
    pub letters: [u8; 2079],
    pub ghost few_rows: { rows ≤ 256 },
    pub ghost few_facts: { facts ≤ 65536 },
    pub ghost short: { (saying verdict).size ≤ 2079 },
    pub ghost low: { low (word verdict letters) ≡ true },
}

// What the last judging found that was not refused; nothing on a new sheet.
#[derive(Drop)]
pub struct Sheet {
    pub judgement: Option<Judgement>,
}

impl Sheet {
    ghost use Rattle.judge.specs.Sheets.{judged};

    // A sheet that is not judged.
    pub fn new() -> Sheet
        ensures { result.judgement ≡ None }
    {
        Sheet { judgement: None }
    }

    // What was found.
    pub(crate) fn judged(&self) -> Result<&Judgement, Refusal>
        ensures { judged self.now result }
    {
        self.judgement.as_ref().ok_or(Refusal::NotJudged)
    }
}
