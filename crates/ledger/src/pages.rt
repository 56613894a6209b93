// Opening pages, and finding the page of a start.
ghost use Rattle.std.specs.Prelude.{◌≡◌, ◌-◌, ◌≤◌, true, false, length, nat_le, slice_index, [], ◌∷◌, ◌++◌, is_ok, if◌then◌else◌};
ghost use Rattle.std.specs.List.Sorted.{IsNonDecreasing, IsPartitionPoint};
ghost use Rattle.rules.specs.Refusals.{answer_of};
ghost use Rattle.ledger.specs.Pages.{page_starts, last_start, opening, page_at, place_at};

use super::page_table::{PagePlace, Pages};
use arrayvec::ArrayVec;
use rules::refusal::Refusal;

// How many of the starts, in their order, are at or before the start. It is not copied into its callers, so that `find` stays short.
#[inline(never)]
fn begun(starts: &[u16], start: u16) -> usize
    ensures most { result ≤ length starts.now }
    ensures point { IsNonDecreasing starts.now → IsPartitionPoint (λ first. nat_le first start ≡ true) (λ first. nat_le first start ≡ false) starts.now result }
{
    starts.partition_point(|first| *first <= start)
}

impl Pages {
    // The first page is open.
    pub(super) fn new() -> Pages
        ensures value { page_starts result ≡ 0 ∷ [] }
    {
        let mut starts = ArrayVec::new();
        starts.push(0);
        Pages { starts }
    }

    // Opens a page that starts at `at`.
    pub fn open(&mut self, at: u16) -> Result<(), Refusal>
        ensures value { result ≡ answer_of (opening (page_starts self.old) at) }
        ensures after { page_starts self.new ≡ (if is_ok result then page_starts self.old ++ at ∷ [] else page_starts self.old) }
        ensures same { is_ok result ≡ false → self.new ≡ self.old }
    {
        if self.last_start() >= at {
            return Err(Refusal::PageOrder);
        }
        if self.starts.is_full() {
            return Err(Refusal::PagesFull);
        }
        self.starts.push(at);
        Ok(())
    }

    // The start of the last page.
    fn last_start(&self) -> u16
        ensures value { result ≡ last_start (page_starts self.now) }
    {
        self.starts.as_slice()[self.starts.len() - 1]
    }

    // The number, counted from 1, of the last page that begins at or before the start.
    fn number_of(&self, start: u16) -> usize
        ensures value { result ≡ page_at (page_starts self.now) start }
        ensures some { 1 ≤ result }
        ensures most { result ≤ length (page_starts self.now) }
        ensures before { slice_index (page_starts self.now) (result - 1) ≤ start }
    {
        let starts = self.starts.as_slice();
        let mut behind = starts.len();
        let mut from = behind - 1;
        // A start is mostly on a late page: the part behind `from` doubles until it holds the page.
        while starts[from] > start {
            behind = from;
            from = (2 * from).saturating_sub(starts.len());
        }
        if from + 1 == behind {
            return behind;
        }
        from + 1 + begun(&starts[from + 1..behind], start)
    }

    // The last page that begins at or before the start, and the start's place in it.
    pub fn find(&self, start: u16) -> PagePlace
        ensures page { result.page ≡ page_at (page_starts self.now) start }
        ensures place { result.place ≡ place_at (page_starts self.now) start }
    {
        let page = self.number_of(start);
        PagePlace {
            page: page as u16,
            place: start - self.starts.as_slice()[page - 1],
        }
    }
}
