// Shift-And: a matcher of 32-bit words in which a set bit is a match.
ghost use Rattle.std.specs.Prelude.{◌-◌, ◌/◌, ◌^◌, bit_and, nat_eq, slice_index};
ghost use Rattle.std.specs.Coded.{coded_ℕ};
ghost use Rattle.matchers.specs.Places.{and_row, and_step};
ghost use Rattle.shifts.specs.ShiftAnds.{short_fits, short-fitting, and-forward};

use super::forward::Forward;
use super::shifting::Shifting;
use super::tables::set_table;
use rules::held::HeldTerm;

// A table of its own beside OrTable: one array over both words would need a default word at a parameter, to read a place by, for three calls of a line each.
// The word of each byte: bit i is set exactly where the byte matches the term's byte i.
#[derive(Drop)]
pub struct AndTable {
    words: [u32; 256],
}

// The matcher over such a table.
pub type ShiftAnd = Shifting<AndTable>;

impl Forward for AndTable {
    type Word = u32;

    ghost word_code = { coded_ℕ };

    ghost fit = { short_fits };

    ghost words = { λ table b. slice_index table.words b };

    ghost words_of = { and_row };

    ghost start = { 0 };

    ghost step = { and_step };

    ghost last = { λ m state. nat_eq (bit_and (state / 2 ^ (m - 1)) 1) 1 };

    ghost fitting = { short-fitting };

    ghost forward = { and-forward };

    // It is the comparer's line with another number: a shared call would owe a contract and an edit for it.
    fn fits(m: usize, k: usize) -> bool {
        (1..=32).contains(&m) && k < m
    }

    fn empty() -> AndTable {
        AndTable { words: [0; 256] }
    }

    fn of(term: &HeldTerm) -> Option<AndTable> {
        if term.bytes().len() > 32 {
            return None;
        }
        Some(AndTable {
            words: set_table(term),
        })
    }

    fn word(&self, b: u8) -> u32 {
        self.words[b as usize]
    }

    fn start() -> u32 {
        0
    }

    fn step(state: u32, word: u32) -> u32 {
        ((state << 1) | 1) & word
    }

    fn ends(state: u32, term: &HeldTerm) -> bool {
        // a term may have 64 bytes here, of which the state has no bit
        (u64::from(state) >> (term.bytes().len() - 1)) & 1 == 1
    }
}
