// Doing the owed units.
ghost use Rattle.ledger.specs.Units.{unit_index};
ghost use Rattle.indexer.specs.Called.{Called};
ghost use Rattle.indexer.specs.Works.{Did};
ghost use Rattle.indexer.specs.Machine.Call.{run};
ghost use Rattle.indexer.specs.Machine.Answer.{did};

use super::index::Indexer;
use super::look::look;
use galleys::galley::Galley;
use ledger::unit::Unit;
use matchers::matcher::Matcher;

impl<M: Matcher, G: Galley> Indexer<M, G> {
    // Does the unit: the matcher is prepared for its term, and the marks of its block are what the matcher finds there.
    fn work(&mut self, unit: Unit)
        ensures { Did M.Matcher G.Galley self.old (unit_index unit) self.new }
    {
        let standing = self.ledger.terms.term(unit.number);
        let word = look(&mut self.matcher, &self.galley, standing, unit.block);
        self.ledger.settle(unit, word);
    }

    // Does up to `u` owed units, lowest block first and there lowest number, and answers how many it did and how many are still owed.
    pub fn run(&mut self, u: usize) -> (usize, usize)
        ensures called { Called M.Matcher G.Galley self.old (run u) (did result.0 result.1) self.new }
    {
        let mut from = 0;
        for done in 0..u {
            let Some(unit) = self.ledger.debts.first(from) else {
                return (done, 0);
            };
            self.work(unit);
            from = unit.block;
        }
        (u, self.ledger.debts.count())
    }
}
