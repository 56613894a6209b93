// Asking for locators.
ghost use Rattle.indexer.specs.Called.{Located};

use super::index::Indexer;
use super::variants::variant_at;
use galleys::galley::Galley;
use ledger::page_table::PagePlace;
use matchers::matcher::Matcher;
use rules::locator::Locator;
use rules::numbers::TermNumber;
use rules::refusal::Refusal;

impl<M: Matcher, G: Galley> Indexer<M, G> {
    // The first listed locator of the number's term at or after `from`; it is found by the marks, and nothing is searched.
    pub fn locator(&self, number: usize, from: usize) -> Result<Option<Locator>, Refusal>
        ensures located { Located M.Matcher G.Galley self.now number from result }
    {
        let number = TermNumber::try_from(number)?;
        let Some(term) = self.ledger.terms.term(number) else {
            return Err(Refusal::NoTermStands);
        };
        let Some(start) = self.ledger.first_listed(number, from, self.galley.length()) else {
            return Ok(None);
        };
        let variant = variant_at(&self.galley, &term, start);
        let PagePlace { page, place } = self.ledger.pages.find(start);
        Ok(Some(Locator {
            start,
            page,
            place,
            variant,
        }))
    }
}
