// An index of where terms occur in a paged text, kept true unit by unit.
#![tactic(auto)]

pub mod enter;
pub mod index;
pub mod locate;
mod look;
mod shown;
mod variants;
pub mod withdraw;
pub mod work;
