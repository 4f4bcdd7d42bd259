// Waiting queues: a fixed number of slots, of which some wait, each with a key.
#![tactic(auto)]

pub mod alike;
pub mod queue;
pub mod row;
pub mod scan;
pub mod slot;
#[cfg(test)]
mod tests;
