// Units of work.
use rules::numbers::TermNumber;

// The term under a number at a block: block b has the starts 64b to 64b + 63.
#[derive(Clone, Copy)]
pub struct Unit {
    pub number: TermNumber,
    pub block: u8,
}
