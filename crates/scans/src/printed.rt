// Answers as they are printed.
use rules::refusal::Refusal;
use std::fmt;

// A word, none, or a refusal as 'r' and its number.
#[derive(Clone, Copy)]
pub(super) struct Printed(pub(super) Result<Option<u64>, Refusal>);

impl From<Result<u64, Refusal>> for Printed {
    fn from(answer: Result<u64, Refusal>) -> Printed {
        Printed(answer.map(Some))
    }
}

impl fmt::Display for Printed {
    fn fmt<W: fmt::Write>(&self, f: &mut fmt::Formatter<W>) -> fmt::Result {
        match self.0 {
            Ok(Some(word)) => write!(f, "{word}"),
            Ok(None) => f.write_str("none"),
            Err(refusal) => write!(f, "r{}", u8::from(refusal)),
        }
    }
}
