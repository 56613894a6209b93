// The methods by which a term is found in a stretch of text: what every matcher is, the plain one, and what the bit-parallel ones share.
#![tactic(auto)]

pub mod asked;
pub mod comparer;
pub mod matcher;
pub mod tables;
