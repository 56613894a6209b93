// What the programs that try the library print and add up.
#![tactic(auto)]

pub mod answers;
pub mod sums;
