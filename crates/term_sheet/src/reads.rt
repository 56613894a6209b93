// Reading a term sheet.
ghost use Rattle.std.specs.Prelude.{◌≡◌, ◌+◌, ◌≤◌, length, drop};
ghost use Rattle.term_sheet.specs.Fields.{before, line_feed};
ghost use Rattle.term_sheet.specs.Readers.{Moved, Next, ahead, sheet_of};
ghost use Rattle.term_sheet.specs.Sheets.{empty_lines, next_line, sheet_reading};

use super::entry::Entry;
use super::fault::Fault;
use super::fields::cut;
use super::line::line_entry;
use super::reader::Reader;

impl<'a> Reader<'a> {
    // A reader that stands before the sheet's first line.
    pub fn new(sheet: &'a [u8]) -> Reader<'a>
        ensures value { ahead result ≡ sheet_reading sheet.now }
        ensures same { sheet_of result ≡ sheet.now }
    {
        Reader {
            sheet,
            at: 0,
            passed: 0,
        }
    }

    // The next entry, none at the sheet's end, or the fault at which the reading stops.
    pub fn next(&mut self) -> Result<Option<Entry<'a>>, Fault>
        ensures cases { Next (ahead self.old) result (ahead self.new) }
        ensures after { Moved self.old result self.new }
        ensures same { sheet_of self.new ≡ sheet_of self.old }
    {
        let sheet = self.sheet;
        let empty = empty_lines(&sheet[self.at..]);
        let at = self.at + empty;
        if at >= sheet.len() {
            return Ok(None);
        }
        let line = self.passed + empty + 1;
        let (bytes, next) = line_at(sheet, at);
        let entry = line_entry(line, at, bytes)?;
        self.at = next;
        self.passed = line;
        Ok(Some(entry))
    }
}

// How many empty lines the bytes begin with.
fn empty_lines(bytes: &[u8]) -> usize
    ensures value { result ≡ empty_lines bytes.now }
    ensures bound { result ≤ length bytes.now }
{
    bytes
        .iter()
        .position(|b| *b != b'\n')
        .unwrap_or(bytes.len())
}

// The bytes of the line that begins at `at`, and where the next one begins.
fn line_at(sheet: &[u8], at: usize) -> (&[u8], usize)
    requires { at ≤ length sheet.now }
    ensures value { result.0.now ≡ before line_feed (drop at sheet.now) }
    ensures after { result.1 ≡ next_line sheet.now at }
    ensures bound { at + length result.0.now ≤ length sheet.now }
{
    let (bytes, behind) = cut(&sheet[at..], b'\n');
    match behind {
        Some(rest) => (bytes, sheet.len() - rest.len()),
        None => (bytes, sheet.len()),
    }
}
