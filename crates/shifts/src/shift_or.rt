// Shift-Or: a matcher of 64-bit words in which a clear bit is a match.
ghost use Rattle.std.specs.Prelude.{◌-◌, ◌/◌, ◌^◌, bit_and, nat_eq, slice_index};
ghost use Rattle.matchers.specs.Matchers.{exact_fits};
ghost use Rattle.std.specs.Coded.{coded_ℕ};
ghost use Rattle.matchers.specs.Places.{or_row, or_step};
ghost use Rattle.shifts.specs.ShiftOrs.{exact-fitting, or-forward};

use super::forward::Forward;
use super::shifting::Shifting;
use matchers::tables::clear_table;
use rules::held::HeldTerm;

// The word of each byte: bit i is clear exactly where the byte is the term's byte i.
#[derive(Drop)]
pub struct OrTable {
    words: [u64; 256],
}

// The matcher over such a table.
pub type ShiftOr = Shifting<OrTable>;

impl Forward for OrTable {
    type Word = u64;

    ghost word_code = { coded_ℕ };

    ghost fit = { exact_fits };

    ghost words = { λ table b. slice_index table.words b };

    ghost words_of = { or_row };

    ghost start = { 2 ^ 64 - 1 };

    ghost step = { or_step };

    ghost last = { λ m state. nat_eq (bit_and (state / 2 ^ (m - 1)) 1) 0 };

    ghost fitting = { exact-fitting };

    ghost forward = { or-forward };

    // It is the two-way matcher's line: a shared call would owe a contract and an edit for it.
    fn fits(m: usize, k: usize) -> bool {
        (1..=64).contains(&m) && k == 0
    }

    fn empty() -> OrTable {
        OrTable {
            words: [u64::MAX; 256],
        }
    }

    fn of(term: &HeldTerm) -> Option<OrTable> {
        if term.limit() > 0 {
            return None;
        }
        Some(OrTable {
            words: clear_table(term, 0),
        })
    }

    fn word(&self, b: u8) -> u64 {
        self.words[b as usize]
    }

    fn start() -> u64 {
        u64::MAX
    }

    fn step(state: u64, word: u64) -> u64 {
        (state << 1) | word
    }

    fn ends(state: u64, term: &HeldTerm) -> bool {
        (state >> (term.bytes().len() - 1)) & 1 == 0
    }
}
