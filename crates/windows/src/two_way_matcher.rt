// The calls of two-way Shift-Or.
ghost use Rattle.std.specs.Prelude.{◌≡◌, None, IfOk};
ghost use Rattle.std.specs.Result.{result_map_both};
ghost use Rattle.matchers.specs.Matchers.{exact_fits, of_term, of_stretch};
ghost use Rattle.windows.specs.TwoWays.{two_way_term};
ghost use Rattle.windows.specs.Windows.{two_way_row, two_way_state};
ghost use Rattle.std.proofs.Common.{rules, arith};

use super::reading::Reading;
use super::two_way::TwoWayShiftOr;
use matchers::asked::held_for;
use matchers::matcher::Matcher;
use matchers::tables::clear_table;
use rules::held::HeldTerm;
use rules::refusal::Refusal;

impl TwoWayShiftOr {
    // A matcher that holds no term.
    pub fn new() -> TwoWayShiftOr
        ensures value { two_way_term result ≡ None }
    {
        TwoWayShiftOr {
            table: [0; 256],
            term: None,
        }
    }

    // The table's word for the byte.
    pub fn table_word(&self, b: u8) -> Result<u64, Refusal>
        ensures value { result ≡ of_term (λ t. two_way_row t b) (two_way_term self.now) }
    {
        self.term.ok_or(Refusal::NoTermHeld)?;
        Ok(self.table[b as usize])
    }

    // The stretch, to be read by the table.
    fn reading<'a>(&'a self, stretch: &'a [u8]) -> Result<Reading<'a>, Refusal>
        ensures term { result_map_both (λ r. r.term.now) (λ e. e) result ≡ of_stretch (λ h _. h) self.now.term stretch.now }
        ensures stretch { IfOk result (λ r. r.stretch.now ≡ stretch.now) }
    {
        let term = held_for(&self.term, stretch)?;
        Ok(Reading {
            table: &self.table,
            term,
            stretch,
        })
    }

    // The state of the window after the step, 0 for its start; none where there is no such window or step.
    pub fn state(&self, stretch: &[u8], window: usize, step: usize) -> Result<Option<u64>, Refusal>
        ensures value { result ≡ of_stretch (λ t text. two_way_state t text window step) (two_way_term self.now) stretch.now }
    {
        let window = self.reading(stretch)?.window(window);
        Ok(window.and_then(|window| window.state(step)))
    }
}

impl Matcher for TwoWayShiftOr {
    ghost held = { two_way_term };

    ghost fit = { λ _. exact_fits };

    ghost fitting = { first_of (Prim.search rules, Prim.grind (arith, Self.row.coded.inj)) };

    fn fits(&self, m: usize, k: usize) -> bool {
        (1..=64).contains(&m) && k == 0
    }

    fn prepare(&mut self, term: &[u8], k: usize) -> Result<(), Refusal> {
        let held = HeldTerm::new(term, k)?;
        if k != 0 {
            return Err(Refusal::TermUnfit);
        }
        *self = TwoWayShiftOr {
            table: clear_table(&held, 64 - held.bytes().len()),
            term: Some(held),
        };
        Ok(())
    }

    fn scan(&self, stretch: &[u8]) -> Result<u64, Refusal> {
        Ok(self.reading(stretch)?.word())
    }
}
