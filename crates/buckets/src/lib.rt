// The labels, bucket by bucket of delay. A part of the search, and no entry point.
#![tactic(auto)]

pub mod bucket;
pub mod fill;
