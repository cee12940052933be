// Stores of facts: one interface, the row store, and the additions store over any other.
#![tactic(auto)]

pub mod additions;
pub mod calls;
pub mod pile;
pub mod row;
pub mod store;
pub mod told;
