// A book indexed from start to finish.
#![tactic(auto)]

pub mod feeds;
pub mod whole;
