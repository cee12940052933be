// Tests of the audit of a file: what only its call shows.
#![tactic(auto)]

#[cfg(test)]
mod fitting;
#[cfg(test)]
mod inputs;
#[cfg(test)]
mod making;
#[cfg(test)]
mod verdicts;
