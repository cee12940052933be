// Judging a book with the facts of a store, and the questions on the sheet that judging fills.
#![tactic(auto)]

pub mod asking;
pub mod judging;
pub mod reach;
pub mod sheet;
mod text;
pub mod verdict;
pub mod writing;
