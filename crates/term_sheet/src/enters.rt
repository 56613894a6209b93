// Entering a term sheet into an indexer.
ghost use Rattle.term_sheet.specs.Entered.{Entered, EntryEntered};
ghost use Rattle.term_sheet.specs.Entries.{entry_of};
ghost use Rattle.term_sheet.specs.Sheets.{sheet_reading};

use super::entry::Entry;
use super::fault::Fault;
use super::reader::Reader;
use galleys::galley::Galley;
use indexer::index::Indexer;
use matchers::matcher::Matcher;

// Enters one entry; a refusal is a fault of the indexer's at the line's first byte.
fn enter_entry<M: Matcher, G: Galley>(
    indexer: &mut Indexer<M, G>,
    entry: Entry<'_>,
) -> Result<(), Fault>
    ensures entered { EntryEntered M.Matcher G.Galley indexer.old (entry_of entry.entry) result indexer.new }
{
    let Entry {
        line,
        byte,
        number,
        limit,
        term,
    } = entry;
    indexer
        .enter(number, limit, term)
        .map_err(|cause| Fault::Indexer { line, byte, cause })
}

// Enters the sheet's entries in their order, up to the first fault; what was entered before a fault stays entered.
pub fn enter_sheet<M: Matcher, G: Galley>(
    indexer: &mut Indexer<M, G>,
    sheet: &[u8],
) -> Result<(), Fault>
    ensures entered { Entered M.Matcher G.Galley indexer.old (sheet_reading sheet.now) result indexer.new }
{
    let mut reader = Reader::new(sheet);
    while let Some(entry) = reader.next()? {
        enter_entry(indexer, entry)?;
    }
    Ok(())
}
