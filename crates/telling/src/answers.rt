// Answers as they are printed.
ghost use Rattle.std.specs.Prelude.{◌≡◌, Some};
ghost use Rattle.telling.specs.Answers.{code_of, told_text};

use rules::refusal::Refusal;
use std::fmt;

// An action and its answer.
#[derive(Clone, Copy)]
pub struct Report<'a> {
    pub action: &'a str,
    pub answer: Result<(), Refusal>,
}

impl fmt::Display for Report<'_> {
    ghost output = { λ report. Some (told_text report.action.now report.answer) };

    // The action, and that it was accepted or with which number it was refused.
    fn fmt<W: fmt::Write>(&self, f: &mut fmt::Formatter<W>) -> fmt::Result {
        let Report { action, answer } = *self;
        match answer {
            Ok(()) => write!(f, "{action}: accepted"),
            Err(refusal) => write!(f, "{action}: {refusal}"),
        }
    }
}

// The action with its answer, to be printed.
pub fn told(action: &str, answer: Result<(), Refusal>) -> Report<'_>
    ensures action { result.action.now ≡ action.now }
    ensures answer { result.answer ≡ answer }
{
    Report { action, answer }
}

// The number of an answer: 0, or the refusal's.
pub fn code(answer: Result<(), Refusal>) -> u8
    ensures value { result ≡ code_of answer }
{
    match answer {
        Ok(()) => 0,
        Err(refusal) => u8::from(refusal),
    }
}
