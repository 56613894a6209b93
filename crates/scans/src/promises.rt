// What the two names of the shifting matcher promise, each in the words of its own rule.
ghost use Rattle.std.specs.Prelude.{◌≡◌, length};
ghost use Rattle.matchers.specs.Matchers.{of_stretch, of_term};
ghost use Rattle.matchers.specs.Places.{and_row, and_state, or_row, or_state};
ghost use Rattle.shifts.specs.Shiftings.{shifting_term};

use rules::refusal::Refusal;
use shifts::shift_and::ShiftAnd;
use shifts::shift_or::ShiftOr;

// Shift-Or's word for the byte.
pub(super) fn or_word(matcher: &ShiftOr, b: u8) -> Result<u64, Refusal>
    ensures value { result ≡ of_term (λ t. or_row t b) (shifting_term matcher.now) }
{
    matcher.table_word(b)
}

// Shift-Or's state after the bytes.
pub(super) fn or_state(matcher: &ShiftOr, read: &[u8]) -> Result<u64, Refusal>
    ensures value { result ≡ of_stretch (λ t text. or_state t text (length text)) (shifting_term matcher.now) read.now }
{
    matcher.state(read)
}

// Shift-And's word for the byte.
pub(super) fn and_word(matcher: &ShiftAnd, b: u8) -> Result<u32, Refusal>
    ensures value { result ≡ of_term (λ t. and_row t b) (shifting_term matcher.now) }
{
    matcher.table_word(b)
}

// Shift-And's state after the bytes.
pub(super) fn and_state(matcher: &ShiftAnd, read: &[u8]) -> Result<u32, Refusal>
    ensures value { result ≡ of_stretch (λ t text. and_state t text (length text)) (shifting_term matcher.now) read.now }
{
    matcher.state(read)
}
