// Making an indexer, opening pages and entering terms.
ghost use Rattle.indexer.specs.Called.{Made, Called};
ghost use Rattle.indexer.specs.Machine.Call.{page, enter};
ghost use Rattle.indexer.specs.Machine.Answer.{said};

use super::index::Indexer;
use super::shown::shown_term;
use galleys::galley::Galley;
use ledger::book::Ledger;
use matchers::matcher::Matcher;
use rules::numbers::TermNumber;
use rules::refusal::Refusal;

impl<M: Matcher, G: Galley> Indexer<M, G> {
    // An indexer of the galley's text: one page, no term, nothing owed.
    pub fn new(matcher: M, galley: G, job: u32) -> Indexer<M, G>
        ensures made { Made M.Matcher G.Galley matcher galley job result }
    {
        Indexer {
            matcher,
            galley,
            job,
            ledger: Ledger::new(),
        }
    }

    // Opens a page that starts at the place.
    pub fn page(&mut self, at: usize) -> Result<(), Refusal>
        ensures called { Called M.Matcher G.Galley self.old (page at) (said result) self.new }
    {
        if at >= self.galley.length() {
            return Err(Refusal::PastText);
        }
        self.ledger.pages.open(at as u16)
    }

    // Lets the term, each byte as the galley shows it, stand under the number; all its units become owed.
    pub fn enter(&mut self, number: usize, limit: usize, term: &[u8]) -> Result<(), Refusal>
        ensures called { Called M.Matcher G.Galley self.old (enter number limit term.now) (said result) self.new }
    {
        let number = TermNumber::try_from(number)?;
        let shown = shown_term(&self.galley, term, limit)?;
        if self.ledger.terms.term(number).is_some() {
            return Err(Refusal::TermStands);
        }
        if !self.matcher.fits(term.len(), limit) {
            return Err(Refusal::TermUnfit);
        }
        self.ledger.enter(number, shown, self.galley.length());
        Ok(())
    }
}
