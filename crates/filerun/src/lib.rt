// A board file run against a board, as one text.
#![tactic(auto)]

mod calls;
mod records;
pub mod run;
#[cfg(test)]
mod tests;
