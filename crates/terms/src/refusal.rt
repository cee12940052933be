// Why a call is refused.
ghost use Rattle.std.specs.Prelude.{◌≡◌, Some};
ghost use Rattle.terms.specs.Refusals.{number, reason};

use std::error::Error;
use std::fmt;

// What was wrong, and the number of it; a refused call has changed nothing.
#[derive(Clone, Copy, PartialEq, Eq, Debug)]
pub enum Refusal {
    UnknownKind = 1,
    ClassTooHigh = 2,
    FeatureTooHigh = 3,
    WrongFields = 4,
    DraftFull = 5,
    NoFreePlace = 6,
    WorkAreasTooSmall = 7,
    NotJudged = 8,
    NotStanding = 9,
    NotClashing = 10,
    OutputDoesNotFit = 11,
    RecordCut = 12,
    MarkNotAllowed = 13,
    FactNotNew = 14,
    InputTooLong = 15,
}

impl Refusal {
    // The number by which reports and other programs know the refusal.
    pub fn number(self) -> u8
        ensures { result ≡ number self }
    {
        self as u8
    }

    // The refusal in plain words.
    pub fn reason(self) -> &'static str
        ensures { result.now ≡ reason self }
    {
        match self {
            Refusal::UnknownKind => "the kind is not known",
            Refusal::ClassTooHigh => "a class is not below 64",
            Refusal::FeatureTooHigh => "a feature in use or a letter is not below 16",
            Refusal::WrongFields => {
                "the count does not fit the kind, a feature stands twice, or an unused field is not 0"
            }
            Refusal::DraftFull => "the draft has no free row",
            Refusal::NoFreePlace => "no place is free",
            Refusal::WorkAreasTooSmall => {
                "the work areas are smaller than 4096 pairs and 256 part numbers"
            }
            Refusal::NotJudged => "the sheet is not judged",
            Refusal::NotStanding => "the judging did not find that the book stands",
            Refusal::NotClashing => "the judging did not find a clash",
            Refusal::OutputDoesNotFit => {
                "the place is past the buffer's end or the output does not fit"
            }
            Refusal::RecordCut => "the record is not whole",
            Refusal::MarkNotAllowed => "the mark is not allowed here",
            Refusal::FactNotNew => "the factory fact is not new",
            Refusal::InputTooLong => "the input is not shorter than 32768 bytes",
        }
    }
}

impl fmt::Display for Refusal {
    ghost output = { λ r. Some (reason r) };

    fn fmt<W: fmt::Write>(&self, f: &mut fmt::Formatter<W>) -> fmt::Result {
        f.write_str(self.reason())
    }
}

impl Error for Refusal {}
