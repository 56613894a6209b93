// The lexer of one line.
ghost use Rattle.std.specs.Prelude.{◌≡◌, ◌+◌, ◌^◌, ◌<◌, ◌≤◌, length, IfOk};
ghost use Rattle.term_sheet.specs.Entries.{entry_read, field_of};
ghost use Rattle.term_sheet.specs.Sheets.{line_entry, number_field};

use super::entry::Entry;
use super::fault::Fault;
use super::fields::{cut, field_value};
use rules::refusal::Refusal;

// The value of a number field, and what follows the space behind it.
#[derive(Clone, Copy)]
struct Field<'a> {
    value: usize,
    rest: &'a [u8],
}

// The number field that `bytes` begin with, the last bytes of a line that ends at `ending`.
fn number_field(line: usize, ending: usize, bytes: &[u8]) -> Result<Field<'_>, Fault>
    requires { length bytes.now ≤ ending }
    ensures value { field_of result ≡ number_field line ending bytes.now }
    ensures bound { IfOk result (λ f. length f.rest.now ≤ length bytes.now) }
{
    let (field, behind) = cut(bytes, b' ');
    let Some(value) = field_value(field) else {
        return Err(Fault::Sheet {
            line,
            byte: ending - bytes.len(),
            cause: Refusal::NotANumber,
        });
    };
    let Some(rest) = behind else {
        return Err(Fault::Sheet {
            line,
            byte: ending,
            cause: Refusal::LineTooShort,
        });
    };
    Ok(Field { value, rest })
}

// The entry of the line whose bytes these are and whose first byte stands at `at`.
pub(super) fn line_entry(line: usize, at: usize, bytes: &[u8]) -> Result<Entry<'_>, Fault>
    requires { at + length bytes.now < 2 ^ 64 }
    ensures value { entry_read result ≡ line_entry line at bytes.now }
{
    let ending = at + bytes.len();
    let number = number_field(line, ending, bytes)?;
    let limit = number_field(line, ending, number.rest)?;
    Ok(Entry {
        line,
        byte: at,
        number: number.value,
        limit: limit.value,
        term: limit.rest,
    })
}
