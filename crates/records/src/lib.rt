// Reading files of records: bytes into rows and facts, and the number of the record that is refused.
#![tactic(auto)]

ghost use Rattle.std.specs.Prelude.{Some};
ghost use Rattle.records.specs.Faults.{fault_text};

use std::error::Error;
use std::fmt;
use terms::refusal::Refusal;

mod facts;
pub mod opened;
pub mod reading;
mod rules;
#[cfg(test)]
mod tests;

// Why a record is refused, and which: records count from 0.
#[derive(Clone, Copy, PartialEq, Eq, Debug)]
pub struct Fault {
    pub refusal: Refusal,
    pub index: usize,
}

// The record, and the refusal in plain words.
impl fmt::Display for Fault {
    ghost output = { λ f. Some (fault_text f) };

    fn fmt<W: fmt::Write>(&self, f: &mut fmt::Formatter<W>) -> fmt::Result {
        write!(f, "record {}: {}", self.index, self.refusal)
    }
}

impl Error for Fault {}
