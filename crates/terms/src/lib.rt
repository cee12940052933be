// The terms that every crate shares: refusals, kinds, and the rows and facts of a part book.
#![tactic(auto)]

pub mod example;
pub mod fact;
pub mod kind;
pub mod refusal;
pub mod row;
