// The matcher that reads a stretch in windows, from their centre both ways: two-way Shift-Or.
#![tactic(auto)]

mod reading;
pub mod two_way;
pub mod two_way_matcher;
mod window;
