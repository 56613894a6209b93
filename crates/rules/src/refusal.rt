// Why a call is refused.
ghost use Rattle.std.specs.Prelude.{◌≡◌, Some};
ghost use Rattle.rules.specs.Refusals.{refusal_number, refusal_text};

use std::fmt;

// Each case has the number under which it is returned.
#[derive(Clone, Copy, PartialEq, Eq, Debug)]
pub enum Refusal {
    // term number above 15
    NumberTooHigh = 1,
    // term empty or over 64 bytes
    TermLength = 2,
    // limit not below the term's length
    LimitTooHigh = 3,
    // a term stands under the number
    TermStands = 4,
    // none stands under it
    NoTermStands = 5,
    // the term does not fit the matcher
    TermUnfit = 6,
    // place or stretch past the text
    PastText = 7,
    // correction empty or over 64 bytes
    CorrectionLength = 8,
    // a trial is open
    TrialOpen = 9,
    // no trial is open, or the slip has another job number
    NoSuchTrial = 10,
    // page start not above the last
    PageOrder = 11,
    // 256 pages are open
    PagesFull = 12,
    // stretch over 127 bytes
    StretchTooLong = 13,
    // matcher holds no term
    NoTermHeld = 14,
    // buffer too small
    BufferTooSmall = 15,
    // number field not 1 to 3 digits
    NotANumber = 16,
    // line ends before its term
    LineTooShort = 17,
}

impl From<Refusal> for u8 {
    ghost from_gives = { λ refusal n. n ≡ refusal_number refusal };

    // The number under which the refusal is returned.
    fn from(refusal: Refusal) -> u8 {
        refusal as u8
    }
}

impl fmt::Display for Refusal {
    ghost output = { λ refusal. Some (refusal_text refusal) };

    // The word 'refused' and the number.
    fn fmt<W: fmt::Write>(&self, f: &mut fmt::Formatter<W>) -> fmt::Result {
        let number = u8::from(*self);
        write!(f, "refused {number}")
    }
}
