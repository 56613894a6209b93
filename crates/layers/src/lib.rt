// Layers that go over any galley, and over one another.
#![tactic(auto)]

pub mod folded;
pub mod folded_galley;
pub mod paste;
pub mod paste_up;
pub mod paste_up_galley;
pub mod pastes;
mod pasting;
