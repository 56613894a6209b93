// Entering and reading the terms that stand.
ghost use Rattle.std.specs.Prelude.{◌≡◌, ℕ, length, if◌then◌else◌, None, nat_eq};
ghost use Rattle.std.specs.Option.{option_map};
ghost use Rattle.rules.specs.Held.{term_of};
ghost use Rattle.ledger.specs.Terms.{row_term, term_at, standing, Stands};

use super::row::{Row, Table, Terms};
use rules::held::HeldTerm;
use rules::numbers::TermNumber;

impl Row {
    // The term stands in the row, or none does.
    fn hold(&mut self, term: Option<HeldTerm>)
        ensures after { row_term self.new ≡ option_map term_of term }
    {
        self.term = term;
    }
}

impl Table {
    // The term stands in the number's row, or none does; one row is lent and changed.
    fn set(&mut self, number: TermNumber, term: Option<HeldTerm>)
        ensures after { (n : ℕ) → term_at self.new n ≡ (if nat_eq n number.value then option_map term_of term else term_at self.old n) }
        ensures len { length self.new.rows ≡ length self.old.rows }
    {
        let row = &mut self.rows[usize::from(number)];
        row.hold(term);
    }
}

impl Terms {
    // No term stands.
    pub(super) fn new() -> Terms
        ensures value { (n : ℕ) → standing result n ≡ None }
    {
        Terms {
            table: Table {
                rows: [Row { term: None }; 16],
            },
        }
    }

    // The term under the number.
    pub fn term(&self, number: TermNumber) -> Option<HeldTerm>
        ensures value { option_map term_of result ≡ standing self.now number.value }
    {
        self.table.rows[usize::from(number)].term
    }

    // The term stands under the number, or none does.
    pub(super) fn set(&mut self, number: TermNumber, term: Option<HeldTerm>)
        ensures after { Stands self.old number.value (option_map term_of term) self.new }
    {
        self.table.set(number, term);
    }
}
