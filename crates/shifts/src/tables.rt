// Filling the table of Shift-And.
ghost use Rattle.std.specs.Prelude.{◌≡◌, ℕ, ◌*◌, ◌%◌, ◌^◌, ◌<◌, ◌≤◌, length, if◌then◌else◌, bit_or, nat_eq, slice_index};
ghost use Rattle.rules.specs.Held.{term_of};
ghost use Rattle.rules.specs.Terms.{folded};
ghost use Rattle.matchers.specs.Places.{Rows, and_row};

use rules::bytes::fold;
use rules::held::HeldTerm;

// Sets bit `i` of the word of each byte that has the fold of `p`.
fn set_folded(table: &mut [u32; 256], i: usize, p: u8)
    requires { i < 32 }
    ensures rows { (b : ℕ) → b < 256 → slice_index table.new b ≡ (if nat_eq (folded b) (folded p) then bit_or (slice_index table.old b) (1 * 2 ^ i % 2 ^ 32) else slice_index table.old b) }
{
    let sought = fold(p);
    for (b, word) in table.iter_mut().enumerate() {
        if fold(b as u8) == sought {
            *word |= 1u32 << i;
        }
    }
}

// The words of a term's bytes, the first of which match by their fold, up to its limit: bit i is set where the byte matches byte i.
pub(super) fn set_table(term: &HeldTerm) -> [u32; 256]
    requires { length (term_of term.now).bytes ≤ 32 }
    ensures rows { Rows result (and_row (term_of term.now)) }
{
    let bytes = term.bytes();
    let limit = term.limit();
    let mut table = [0u32; 256];
    for (i, p) in bytes.iter().enumerate() {
        if i < limit {
            set_folded(&mut table, i, *p);
        } else {
            table[*p as usize] |= 1u32 << i;
        }
    }
    table
}
