// Indexing a book from start to finish.
ghost use Rattle.book.specs.Book.{Opened, Indexed};

use galleys::galley::Galley;
use indexer::index::Indexer;
use matchers::matcher::Matcher;
use term_sheet::enters::enter_sheet;
use term_sheet::fault::Fault;

// Opens a page at each of the places, as far as they are accepted.
pub fn open_pages<M: Matcher, G: Galley>(indexer: &mut Indexer<M, G>, starts: &[usize])
    ensures opened { Opened M.Matcher G.Galley indexer.old starts.now indexer.new }
{
    for at in starts {
        let _ = indexer.page(*at);
    }
}

// Opens the pages, enters the sheet's terms and does all that is then owed; at the sheet's first fault it stops.
pub fn index_book<M: Matcher, G: Galley>(
    indexer: &mut Indexer<M, G>,
    starts: &[usize],
    sheet: &[u8],
) -> Result<(), Fault>
    ensures indexed { Indexed M.Matcher G.Galley indexer.old starts.now sheet.now result indexer.new }
{
    open_pages(indexer, starts);
    enter_sheet(indexer, sheet)?;
    indexer.run(usize::MAX);
    Ok(())
}
