// Completing the facts of a book's parts: all that its rules and a store's facts say of them.
#![tactic(auto)]

pub mod complete;
mod growth;
mod index;
mod part_set;
pub mod record;
mod rules;
mod sweeping;
mod told;
mod waiting;
