// Board files: the records that are read, and the lines that are printed.
#![tactic(auto)]

pub mod decode;
pub mod line;
pub mod records;
#[cfg(test)]
mod tests;
