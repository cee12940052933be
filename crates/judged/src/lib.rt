// Tests of judging and of the questions on a sheet, over stores of every make.
#![tactic(auto)]

#[cfg(test)]
mod books;
#[cfg(test)]
mod completing;
#[cfg(test)]
mod lists;
#[cfg(test)]
mod makes;
#[cfg(test)]
mod making;
#[cfg(test)]
mod sheets;
#[cfg(test)]
mod writing;
