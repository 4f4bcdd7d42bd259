// The layers of a board: a stackup is open while it is built, and closed for good after.
#![tactic(auto)]

pub mod layer;
pub mod stackup;
#[cfg(test)]
mod tests;
