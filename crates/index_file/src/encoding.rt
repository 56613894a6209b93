// The bytes of the records.
ghost use Rattle.std.specs.Prelude.{◌≡◌, ◌≤◌, ◌++◌, length};
ghost use Rattle.index_file.specs.Records.Record.{head, term, locator, end};
ghost use Rattle.index_file.specs.Records.{encoded};

use super::kind::Kind;
use super::record::{Head, Term};
use rules::locator::Locator;

// The head's record.
pub(super) fn head_bytes(given: Head) -> [u8; 12]
    ensures value { result ≡ encoded (head given.n given.owed given.terms) }
{
    let [n0, n1, n2, n3] = given.n.to_le_bytes();
    let [owed0, owed1] = given.owed.to_le_bytes();
    let [terms0, terms1] = given.terms.to_le_bytes();
    [
        8,
        0,
        Kind::Head.into(),
        0,
        n0,
        n1,
        n2,
        n3,
        owed0,
        owed1,
        terms0,
        terms1,
    ]
}

// A term's record up to its bytes, of which there are at most 64.
pub(super) fn term_front(given: Term<'_>) -> [u8; 6]
    requires { length given.bytes.now ≤ 64 }
    ensures value { result ++ given.entry.bytes.now ≡ encoded (term given.entry.number given.entry.limit given.entry.bytes.now) }
{
    let length = given.bytes.len() as u8 + 2;
    [length, 0, Kind::Term.into(), 0, given.number, given.limit]
}

// A locator's record.
pub(super) fn locator_bytes(given: Locator) -> [u8; 11]
    ensures value { result ≡ encoded (locator given.start given.page given.place given.variant) }
{
    let [start0, start1] = given.start.to_le_bytes();
    let [page0, page1] = given.page.to_le_bytes();
    let [place0, place1] = given.place.to_le_bytes();
    [
        7,
        0,
        Kind::Locator.into(),
        0,
        start0,
        start1,
        page0,
        page1,
        place0,
        place1,
        given.variant,
    ]
}

// The end's record.
pub(super) fn end_bytes(locators: u32) -> [u8; 8]
    ensures value { result ≡ encoded (end locators) }
{
    let [n0, n1, n2, n3] = locators.to_le_bytes();
    [4, 0, Kind::End.into(), 0, n0, n1, n2, n3]
}
