// Making and reading held terms and term numbers.
ghost use Rattle.std.specs.Prelude.{◌≡◌};
ghost use Rattle.rules.specs.Held.{Held, Numbered, term_of};

use super::held::HeldTerm;
use super::numbers::TermNumber;
use super::refusal::Refusal;

impl HeldTerm {
    // The term of these bytes with this limit, where there can be one.
    pub fn new(term: &[u8], limit: usize) -> Result<HeldTerm, Refusal>
        ensures cases { Held term.now limit result }
    {
        let m = term.len();
        if !(1..=64).contains(&m) {
            return Err(Refusal::TermLength);
        }
        if limit >= m {
            return Err(Refusal::LimitTooHigh);
        }
        let mut bytes = [0u8; 64];
        bytes[0..m].copy_from_slice(term);
        Ok(HeldTerm {
            bytes,
            len: m as u8,
            limit: limit as u8,
        })
    }

    // Its bytes.
    pub fn bytes(&self) -> &[u8]
        ensures value { result.now ≡ (term_of self.now).bytes }
    {
        &self.bytes[0..self.len as usize]
    }

    // How many of its first bytes match by their fold.
    pub fn limit(&self) -> usize
        ensures value { result ≡ (term_of self.now).limit }
    {
        self.limit as usize
    }
}

impl TryFrom<usize> for TermNumber {
    type Error = Refusal;

    ghost try_from_gives = { Numbered };

    // The number, where it is one.
    fn try_from(number: usize) -> Result<TermNumber, Refusal> {
        if number > 15 {
            return Err(Refusal::NumberTooHigh);
        }
        Ok(TermNumber {
            value: number as u8,
        })
    }
}

impl From<TermNumber> for usize {
    ghost from_gives = { λ number n. n ≡ number.value };

    // The number as a plain one.
    fn from(number: TermNumber) -> usize {
        number.value as usize
    }
}
