// What bytes, terms, occurrences and refusals mean, and the few values that every layer shares.
#![tactic(auto)]

pub mod bytes;
pub mod declined;
pub mod held;
pub mod locator;
pub mod numbers;
pub mod refusal;
pub mod terms;
