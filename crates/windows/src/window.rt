// A window of a stretch, read from its centre both ways.
ghost use Rattle.std.specs.Prelude.{◌≡◌, ◌+◌, ◌-◌, ◌*◌, ◌/◌, ◌%◌, ◌^◌, ◌<◌, ◌≤◌, cond, length, None, bit_or, nat_lt};
ghost use Rattle.rules.specs.Held.{term_of};
ghost use Rattle.windows.specs.Windows.{window_marked, window_steps, word_at};

use super::reading::Reading;

// The last start that a scan marks.
pub(super) const LAST_START: usize = 63;

// What is read, and the window's centre.
#[derive(Drop)]
pub(super) struct Window<'a> {
    pub(super) reading: Reading<'a>,
    pub(super) centre: usize,
    ghost begins: { length (term_of reading.term.now).bytes ≤ centre + 1 },
    ghost within: { centre < length reading.stretch.now },
}

impl Window<'_> {
    // The state after step `j`, from the one before it.
    pub(super) fn spread(&self, j: usize, state: u64) -> u64
        requires { j < length (term_of self.now.reading.term.now).bytes }
        ensures { result ≡ bit_or (bit_or state (word_at (term_of self.now.reading.term.now) self.now.reading.stretch.now (self.now.centre - j) * 2 ^ j % 2 ^ 64)) (word_at (term_of self.now.reading.term.now) self.now.reading.stretch.now (self.now.centre + j) / 2 ^ j) }
    {
        let before = self.reading.word_at(self.centre - j) << j;
        let behind = self.reading.word_at(self.centre + j) >> j;
        state | before | behind
    }

    // The state after the step; none where there is no such step, or the window is left before.
    pub(super) fn state(&self, step: usize) -> Option<u64>
        ensures { result ≡ cond (nat_lt step (length (term_of self.now.reading.term.now).bytes)) (window_steps (term_of self.now.reading.term.now) self.now.reading.stretch.now self.now.centre step) None }
    {
        if step >= self.reading.term.bytes().len() {
            return None;
        }
        let mut state = self.reading.word_at(self.centre);
        for j in 1..=step {
            if self.reading.is_full(state) {
                return None;
            }
            state = self.spread(j, state);
        }
        Some(state)
    }

    // The word with the start centre - q marked for each clear bit 64 - m + q of the state, of a term of m bytes; starts above 63 are not marked.
    pub(super) fn mark(&self, word: u64, state: u64) -> u64
        ensures { result ≡ window_marked word state (length (term_of self.now.reading.term.now).bytes) self.now.centre (length (term_of self.now.reading.term.now).bytes) }
    {
        let m = self.reading.term.bytes().len();
        let mut marked = word;
        for q in 0..m {
            if (state >> (64 - m + q)) & 1 == 0 && self.centre - q <= LAST_START {
                marked |= 1u64 << (self.centre - q);
            }
        }
        marked
    }
}
