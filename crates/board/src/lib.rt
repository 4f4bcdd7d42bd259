// A board: points and links over tables that the caller lends, the edits, the search and the reading of routes.
#![tactic(auto)]

pub mod board;
pub mod point;
