// Term sheets: lines, number fields, faults, and a reader that hands out one entry after another.
#![tactic(auto)]

pub mod enters;
pub mod entry;
pub mod examples;
pub mod fault;
mod fields;
mod line;
pub mod reader;
pub mod reads;
