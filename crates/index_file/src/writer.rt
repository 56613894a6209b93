// Writing a file: its head, then terms and locators in any order, then its end.
ghost use Rattle.std.specs.Prelude.{◌≡◌, ◌+◌, length};
ghost use Rattle.index_file.specs.Files.{Reaches, Written};
ghost use Rattle.index_file.specs.Records.Record.{head, term, locator, end};

use super::encoding::{end_bytes, head_bytes, locator_bytes, term_front};
use super::placing::place;
use super::record::{Head, Term};
use super::state::{Headed, Unheaded};
use rules::declined::Declined;
use rules::locator::Locator;
use rules::refusal::Refusal;

impl Unheaded {
    // Begins a file.
    pub fn begin() -> Unheaded
        ensures value { result.at ≡ 0 }
    {
        Unheaded { at: 0 }
    }

    // Writes the head.
    pub fn head(self, buffer: &mut [u8], given: Head) -> Result<Headed, Declined<Unheaded>>
        ensures written { Written self 0 (head given.n given.owed given.terms) (Reaches 12 0) buffer.old result buffer.new }
    {
        let at = self.at;
        let (Unheaded { at: _ }, at) = place(self, at, buffer, &head_bytes(given), &[])?;
        Ok(Headed { at, locators: 0 })
    }
}

impl Headed {
    // Writes a term.
    pub fn term(self, buffer: &mut [u8], given: Term<'_>) -> Result<Headed, Declined<Headed>>
        ensures written { Written self self.at (term given.entry.number given.entry.limit given.entry.bytes.now) (Reaches (self.at + (6 + length given.entry.bytes.now)) self.locators) buffer.old result buffer.new }
    {
        let m = given.bytes.len();
        if !(1..=64).contains(&m) {
            return Err(Declined {
                refusal: Refusal::TermLength,
                back: self,
            });
        }
        let at = self.at;
        let (Headed { at: _, locators }, at) = place(
            self,
            at,
            buffer,
            &term_front(given),
            given.bytes,
        )?;
        Ok(Headed { at, locators })
    }

    // Writes a locator, which the file's end will count.
    pub fn locator(self, buffer: &mut [u8], given: Locator) -> Result<Headed, Declined<Headed>>
        ensures written { Written self self.at (locator given.start given.page given.place given.variant) (Reaches (self.at + 11) (self.locators + 1)) buffer.old result buffer.new }
    {
        let at = self.at;
        let (Headed { at: _, locators }, at) = place(self, at, buffer, &locator_bytes(given), &[])?;
        Ok(Headed {
            at,
            locators: locators + 1,
        })
    }

    // Writes the end, with the number of locators; the file's length.
    pub fn end(self, buffer: &mut [u8]) -> Result<usize, Declined<Headed>>
        ensures written { Written self self.at (end self.locators) (λ l. l ≡ self.at + 8) buffer.old result buffer.new }
    {
        let at = self.at;
        let bytes = end_bytes(self.locators);
        let (Headed { at: _, locators: _ }, length) = place(self, at, buffer, &bytes, &[])?;
        Ok(length)
    }
}
