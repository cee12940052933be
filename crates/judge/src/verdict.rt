// What judging answers.
use search::Found;

// No part, word and row make a clash; or a shortest clash: its part, its row and the number of its letters.
#[derive(Clone, Copy, PartialEq, Eq, Debug)]
pub enum Verdict {
    Stands,
    Clash(Found),
}
