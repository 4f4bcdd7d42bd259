// Candidates and the single steps on labels. A part of the search, and no entry point.
#![tactic(auto)]

pub mod candidate;
pub mod step;
