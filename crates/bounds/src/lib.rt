// Tests of the library calls at both sides of each bound, and of long searches.
#![tactic(auto)]

#[cfg(test)]
mod searches;
#[cfg(test)]
mod tests;
