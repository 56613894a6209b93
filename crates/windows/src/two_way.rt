// Two-way Shift-Or, known as TSO: a matcher of 64-bit words that reads windows from their centre both ways; a clear bit is a match.
ghost use Rattle.matchers.specs.Places.{Rows, held_places};
ghost use Rattle.windows.specs.Windows.{two_way_row};

use rules::held::HeldTerm;

// A type of its own beside the crate shifts' Shifting, whose calls no other crate can add to: wrapping it would write each call again.
// The term it was prepared for, if any, and the word of each byte: of a term of m bytes bit 64 - m + i is clear exactly where the byte is the term's byte i, and the bits below 64 - m are clear. The table stands beside the Option, since a new matcher is held to one too, which the edit of `new` is to break.
#[derive(Drop)]
pub struct TwoWayShiftOr {
    pub(super) table: [u64; 256],
    pub(super) term: Option<HeldTerm>,
    ghost rows: { Rows table (two_way_row (held_places term)) },
}
