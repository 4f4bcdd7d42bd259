// A waiting queue as a binary heap.
#![tactic(auto)]

mod binary_heap;
pub mod heap;
#[cfg(test)]
mod tests;
