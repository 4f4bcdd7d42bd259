// The tables that a search works on, and its figures. A part of the search, and no entry point.
#![tactic(auto)]

pub mod ends;
pub mod net;
pub mod place;
pub mod plan;
pub mod prepare;
pub mod table;
pub mod task;
pub mod wipe;
