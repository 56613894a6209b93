// One bit of a word.
ghost use Rattle.std.specs.Prelude.{◌≡◌, ℕ, ◌<◌, if◌then◌else◌, nat_eq};
ghost use Rattle.rules.specs.Words.{bit};

use rules::numbers::TermNumber;

// The word with the number's bit set to `on`.
pub(super) fn with(word: u16, number: TermNumber, on: bool) -> u16
    ensures value { (j : ℕ) → bit result j ≡ (if nat_eq j number.value then on else bit word j) }
{
    let flag = 1u16 << usize::from(number);
    let set = word | flag;
    if on { set } else { set ^ flag }
}

// Whether bit `place` of the word is set.
pub(super) fn has(word: u64, place: usize) -> bool
    requires { place < 64 }
    ensures value { result ≡ bit word place }
{
    (word >> place) & 1 == 1
}
