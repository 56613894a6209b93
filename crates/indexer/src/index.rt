// The indexer and its parts.
use galleys::galley::Galley;
use ledger::book::Ledger;
use matchers::matcher::Matcher;

// Lists where up to sixteen terms occur in the galley's text, which the matcher searches; the ledger holds terms, pages, owed units and marks.
#[derive(Drop)]
pub struct Indexer<M: Matcher, G: Galley> {
    pub(super) matcher: M,
    pub(super) galley: G,
    pub(super) job: u32,
    pub(super) ledger: Ledger,
}
