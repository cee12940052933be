// Part books: a draft takes rows, and sealing finds the class steps of a book.
#![tactic(auto)]

pub mod closing;
pub mod draft;
pub mod links;
pub mod sealed;
pub mod sealing;
