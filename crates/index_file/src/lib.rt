// The index file, written record by record.
#![tactic(auto)]

mod encoding;
pub mod kind;
pub mod law;
mod placing;
pub mod record;
pub mod state;
pub mod writer;
