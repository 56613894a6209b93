// The units that are owed.
ghost use Rattle.std.specs.Prelude.{◌≡◌, ℕ, false};
ghost use Rattle.rules.specs.Words.{count};
ghost use Rattle.ledger.specs.Debts.{owes, owed, Turned, Cleared, Lowest, FirstOwed};

use super::unit::Unit;
use super::words;
use rules::numbers::TermNumber;

// For each block, a bit for each number whose unit there is owed.
#[derive(Drop)]
pub struct Debts {
    words: [u16; 256],
}

// The lowest number whose bit is set.
fn lowest(word: u16) -> Option<TermNumber>
    ensures value { Lowest word result }
{
    TermNumber::try_from(word.trailing_zeros() as usize).ok()
}

impl Debts {
    // No unit is owed.
    pub(super) fn new() -> Debts
        ensures value { (n b : ℕ) → owes result n b ≡ false }
    {
        Debts { words: [0; 256] }
    }

    // The number's units at the blocks from `from` to before `to`, of the 256 blocks, are owed or not, as `on` says.
    pub(super) fn set(&mut self, number: TermNumber, from: usize, to: usize, on: bool)
        ensures after { Turned self.old number.value from to on self.new }
    {
        let end = to.min(256);
        for word in &mut self.words[from.min(end)..end] {
            *word = words::with(*word, number, on);
        }
    }

    // The unit is owed no more.
    pub(super) fn clear(&mut self, unit: Unit)
        ensures after { Cleared self.old unit self.new }
    {
        let block = unit.block as usize;
        let word = self.words[block];
        self.words[block] = words::with(word, unit.number, false);
    }

    // Whether the unit is owed.
    pub(super) fn has(&self, unit: Unit) -> bool
        ensures value { result ≡ owes self.now unit.number.value unit.block }
    {
        words::has(
            self.words[unit.block as usize] as u64,
            usize::from(unit.number),
        )
    }

    // The first unit that is owed, in the order of work, at a block from `from` on.
    pub fn first(&self, from: u8) -> Option<Unit>
        ensures value { FirstOwed self.now from result }
    {
        for (i, word) in self.words[from as usize..].iter().enumerate() {
            if let Some(number) = lowest(*word) {
                return Some(Unit {
                    number,
                    block: from + i as u8,
                });
            }
        }
        None
    }

    // How many units are owed.
    pub fn count(&self) -> usize
        ensures value { result ≡ count (owed self.now) 4096 }
    {
        let mut all = 0;
        for word in &self.words {
            all += word.count_ones() as usize;
        }
        all
    }
}
