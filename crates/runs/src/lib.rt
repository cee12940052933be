// Any list of calls on a book, a store and a sheet, and the law that every such list keeps.
#![tactic(auto)]

pub mod call;
pub mod running;
#[cfg(test)]
mod tests;
