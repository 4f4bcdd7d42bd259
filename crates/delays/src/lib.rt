// The least delay to each point. A part of the search, and no entry point.
#![tactic(auto)]

pub mod delay;
