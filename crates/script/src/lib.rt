// A line of a script, read into the call that it asks for.
#![tactic(auto)]

pub mod ask;
pub mod reading;
#[cfg(test)]
mod tests;
