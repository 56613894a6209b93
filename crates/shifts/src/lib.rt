// The matchers that read a stretch byte by byte and shift their state: Shift-Or and Shift-And.
#![tactic(auto)]

pub mod examples;
mod forward;
pub mod shift_and;
pub mod shift_or;
mod shifting;
mod starts;
mod tables;
