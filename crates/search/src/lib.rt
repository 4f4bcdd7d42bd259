// One search over tables that are lent to it, and the route of a label.
#![tactic(auto)]

pub mod read;
pub mod run;
