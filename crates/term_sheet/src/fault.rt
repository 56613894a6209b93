// Where and why a sheet is refused.
ghost use Rattle.std.specs.Prelude.{Some};
ghost use Rattle.term_sheet.specs.Faults.{fault_text};

use rules::refusal::Refusal;
use std::fmt;

// The layer at fault: the sheet's own rules, or the indexer that a line was entered into. Then the line, the place of the byte in the sheet, and the refusal. Both cases have the same fields, since the case is the layer, the first thing that a fault names.
#[derive(Clone, Copy, PartialEq, Eq, Debug)]
pub enum Fault {
    Sheet {
        line: usize,
        byte: usize,
        cause: Refusal,
    },
    Indexer {
        line: usize,
        byte: usize,
        cause: Refusal,
    },
}

impl fmt::Display for Fault {
    ghost output = { λ f. Some (fault_text f) };

    fn fmt<W: fmt::Write>(&self, f: &mut fmt::Formatter<W>) -> fmt::Result {
        match *self {
            Fault::Sheet { line, byte, cause } => {
                write!(f, "sheet line {line} byte {byte} {cause}")
            }
            Fault::Indexer { line, byte, cause } => {
                write!(f, "indexer line {line} byte {byte} {cause}")
            }
        }
    }
}
