// The tables of the matchers in whose words a clear bit is a match.
ghost use Rattle.std.specs.Prelude.{◌-◌, length, min};
ghost use Rattle.rules.specs.Held.{term_of};
ghost use Rattle.rules.specs.Terms.{own_term};
ghost use Rattle.matchers.specs.Places.{Rows, clear_row};

use rules::held::HeldTerm;

// The words of a term's bytes, which match in their own case only. Its places begin at bit `lowest`, or at the highest bit that leaves room for all of them: the bits below are clear, and of the others all are set but for the one of place i in byte i's word.
pub fn clear_table(term: &HeldTerm, lowest: usize) -> [u64; 256]
    ensures rows { Rows result (clear_row (own_term (term_of term.now)) (min lowest (64 - length (term_of term.now).bytes))) }
{
    let bytes = term.bytes();
    let first = lowest.min(64 - bytes.len());
    let mut table = [u64::MAX << first; 256];
    for (i, b) in bytes.iter().enumerate() {
        table[*b as usize] &= !(1u64 << (first + i));
    }
    table
}
