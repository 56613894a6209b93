// Withdrawing terms.
ghost use Rattle.indexer.specs.Withdrawals.{Withdrew};

use super::index::Indexer;
use galleys::galley::Galley;
use matchers::matcher::Matcher;
use rules::numbers::TermNumber;
use rules::refusal::Refusal;

impl<M: Matcher, G: Galley> Indexer<M, G> {
    // The term under the number and its units are gone.
    pub fn withdraw(&mut self, number: usize) -> Result<(), Refusal>
        ensures withdrew { Withdrew M.Matcher G.Galley self.old number result self.new }
    {
        let number = TermNumber::try_from(number)?;
        if self.ledger.terms.term(number).is_none() {
            return Err(Refusal::NoTermStands);
        }
        self.ledger.withdraw(number);
        Ok(())
    }
}
