// A stretch that is read by the table of a term, window by window.
ghost use Rattle.std.specs.Prelude.{◌≡◌, ◌≤◌, length};
ghost use Rattle.rules.specs.Held.{term_of};
ghost use Rattle.matchers.specs.Places.{Rows};
ghost use Rattle.windows.specs.Windows.{two_way_row};

use super::window::{LAST_START, Window};
use rules::held::HeldTerm;

// The table, its term, and the stretch.
#[derive(Clone, Copy)]
pub(super) struct Reading<'a> {
    pub(super) table: &'a [u64; 256],
    pub(super) term: &'a HeldTerm,
    pub(super) stretch: &'a [u8],
    ghost rows: { Rows table.now (two_way_row (term_of term.now)) },
    ghost short: { length stretch.now ≤ 127 },
}

impl<'a> Reading<'a> {
    ghost use Rattle.std.specs.Prelude.{is_some, IfSome};
    ghost use Rattle.rules.specs.Terms.{scanned};
    ghost use Rattle.windows.specs.Windows.{centre, full_word, is_full, is_window, low_bit, word_at};

    // The word with every one of the term's bits set.
    fn full(&self) -> u64
        ensures { result ≡ full_word (low_bit (term_of self.now.term.now)) }
    {
        u64::MAX << (64 - self.term.bytes().len())
    }

    // Whether every one of the term's bits is set.
    pub(super) fn is_full(&self, state: u64) -> bool
        ensures { result ≡ is_full (term_of self.now.term.now) state }
    {
        let full = self.full();
        state & full == full
    }

    // The word at the place; past the stretch all of the term's bits are set.
    pub(super) fn word_at(&self, p: usize) -> u64
        ensures { result ≡ word_at (term_of self.now.term.now) self.now.stretch.now p }
    {
        self.stretch
            .get(p)
            .map_or(self.full(), |b| self.table[*b as usize])
    }

    // The window with the number, if there is one.
    pub(super) fn window(&self, number: usize) -> Option<Window<'a>>
        ensures found { is_some result ≡ is_window (term_of self.now.term.now) self.now.stretch.now number }
        ensures window { IfSome result (λ w. (w.reading ≡ self.now) × (w.centre ≡ centre (term_of self.now.term.now) number)) }
    {
        let m = self.term.bytes().len();
        let first = number.checked_mul(m)?;
        if first > LAST_START || first + m > self.stretch.len() {
            return None;
        }
        Some(Window {
            reading: *self,
            centre: first + m - 1,
        })
    }

    // The word of the starts. The inner loop is left by a labelled break, a form that the project asks for.
    pub(super) fn word(&self) -> u64
        ensures { result ≡ scanned (term_of self.now.term.now) self.now.stretch.now }
    {
        let m = self.term.bytes().len();
        let mut word = 0;
        'windows: for centre in (m - 1..self.stretch.len().min(LAST_START + m)).step_by(m) {
            let window = Window {
                reading: *self,
                centre,
            };
            let mut state = self.word_at(centre);
            'steps: for j in 1..m {
                if self.is_full(state) {
                    break 'steps;
                }
                state = window.spread(j, state);
            }
            word = window.mark(word, state);
        }
        word
    }
}
