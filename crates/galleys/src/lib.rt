// The ways in which a text is held.
#![tactic(auto)]

mod buffered;
pub mod byte;
mod encoding;
pub mod galley;
mod packing;
pub mod six_bit;
