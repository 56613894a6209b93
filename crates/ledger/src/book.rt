// The ledger of a book.
ghost use Rattle.std.specs.Prelude.{◌≡◌, ℕ, ◌<◌, min, true, ◌&&◌, if◌then◌else◌, nat_eq, nat_lt};
ghost use Rattle.rules.specs.Held.{term_of};
ghost use Rattle.ledger.specs.Books.{Blank, Entered, Settled, Touched, Withdrawn, touches, listed, first_from};
ghost use Rattle.ledger.specs.Debts.{owes};
ghost use Rattle.ledger.specs.Terms.{standing};

use super::change::Change;
use super::debts::Debts;
use super::marks::Marks;
use super::page_table::Pages;
use super::row::Terms;
use super::unit::Unit;
use rules::held::HeldTerm;
use rules::numbers::TermNumber;

// The units of the term under the number `n` that the change meets are owed; under a number past 15 stands none. It takes the two parts of a ledger that it needs, so that nothing has to be said of the others.
fn touch_one(debts: &mut Debts, terms: &Terms, n: usize, change: Change)
    ensures after { (k b : ℕ) → owes debts.new k b ≡ (if nat_eq k n && (touches (standing terms.now n) change.at change.len b && nat_lt b 256) then true else owes debts.old k b) }
{
    let Ok(number) = TermNumber::try_from(n) else {
        return;
    };
    let Some(term) = terms.term(number) else {
        return;
    };
    let at = change.at as usize;
    let first = (at + 1).saturating_sub(term.bytes().len());
    let last = (at + change.len as usize).saturating_sub(1);
    debts.set(number, first / 64, last / 64 + 1, true);
}

// The same for every number.
fn touch_all(debts: &mut Debts, terms: &Terms, change: Change)
    ensures after { (n b : ℕ) → owes debts.new n b ≡ (if touches (standing terms.now n) change.at change.len b && nat_lt b 256 then true else owes debts.old n b) }
{
    for n in 0..16 {
        touch_one(debts, terms, n, change);
    }
}

// What an indexer of a book knows besides its text and its matcher.
#[derive(Drop)]
pub struct Ledger {
    pub terms: Terms,
    pub pages: Pages,
    pub debts: Debts,
    pub marks: Marks,
}

impl Ledger {
    // The ledger of a book of which nothing is known: one page, and nothing stands, is owed or marked.
    pub fn new() -> Ledger
        ensures value { Blank result }
    {
        Ledger {
            terms: Terms::new(),
            pages: Pages::new(),
            debts: Debts::new(),
            marks: Marks::new(),
        }
    }

    // The term stands under the number, and its units in a text of `n` bytes are owed.
    pub fn enter(&mut self, number: TermNumber, term: HeldTerm, n: usize)
        ensures after { Entered self.old number.value (term_of term) n self.new }
    {
        self.terms.set(number, Some(term));
        self.debts.set(number, 0, n.div_ceil(64), true);
    }

    // No term stands under the number, and none of its units is owed.
    pub fn withdraw(&mut self, number: TermNumber)
        ensures after { Withdrawn self.old number.value self.new }
    {
        self.terms.set(number, None);
        self.debts.set(number, 0, 256, false);
    }

    // Of each term that stands, the units that the change meets are owed.
    pub fn touch(&mut self, change: Change)
        ensures after { Touched self.old change.at change.len self.new }
    {
        touch_all(&mut self.debts, &self.terms, change);
    }

    // The unit is owed no more, and the word, if there is one, has the term's marks at the block.
    pub fn settle(&mut self, unit: Unit, word: Option<u64>)
        ensures after { Settled self.old unit word self.new }
    {
        if let Some(word) = word {
            self.marks.store(unit, word);
        }
        self.debts.clear(unit);
    }

    // The first start from `from` on, in a text of `n` bytes, that is listed under the number.
    pub fn first_listed(&self, number: TermNumber, from: usize, n: usize) -> Option<u16>
        ensures value { result ≡ first_from (listed self.now number.value) from (min n 16384) }
    {
        let start = (from..n.min(16384)).find(|start| self.is_listed(number, *start))?;
        Some(start as u16)
    }

    // Whether the start is listed under the number.
    fn is_listed(&self, number: TermNumber, start: usize) -> bool
        requires { start < 16384 }
        ensures value { result ≡ listed self.now number.value start }
    {
        self.marks.has(number, start)
            && !self.debts.has(Unit {
                number,
                block: (start / 64) as u8,
            })
    }
}
