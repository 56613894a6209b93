// The marks: where terms occur.
ghost use Rattle.std.specs.Prelude.{◌≡◌, ℕ, false};
ghost use Rattle.ledger.specs.Marks.{marked, Stored};

use super::unit::Unit;
use super::words;
use rules::numbers::TermNumber;

// For each place of the text, a bit for each number whose term is marked there.
#[derive(Drop)]
pub struct Marks {
    words: [u16; 16384],
}

impl Marks {
    // No term is marked.
    pub(super) fn new() -> Marks
        ensures value { (n s : ℕ) → marked result n s ≡ false }
    {
        Marks { words: [0; 16384] }
    }

    // The marks of the unit's term at the unit's block are the bits of the word.
    pub(super) fn store(&mut self, unit: Unit, word: u64)
        ensures after { Stored self.old unit word self.new }
    {
        let first = 64 * unit.block as usize;
        for (s, marks) in self.words[first..first + 64].iter_mut().enumerate() {
            *marks = words::with(*marks, unit.number, words::has(word, s));
        }
    }

    // Whether the number's term is marked at the start.
    pub(super) fn has(&self, number: TermNumber, start: usize) -> bool
        ensures value { result ≡ marked self.now number.value start }
    {
        if start >= 16384 {
            return false;
        }
        words::has(self.words[start] as u64, usize::from(number))
    }
}
