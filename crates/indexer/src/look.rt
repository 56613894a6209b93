// Searching one block of the text for one term.
ghost use Rattle.std.specs.Prelude.{length};
ghost use Rattle.std.specs.Option.{option_map};
ghost use Rattle.rules.specs.Held.{term_of};
ghost use Rattle.indexer.specs.Looks.{Looked, Sought};

use galleys::galley::Galley;
use matchers::matcher::Matcher;
use rules::held::HeldTerm;

// The word of the term's occurrences in the block, as the matcher finds them in the present text.
// Here and below the matcher and the galley are lent apart and not as parts of an indexer, so that nothing has to be said of its other parts.
pub(super) fn look<M: Matcher, G: Galley>(
    matcher: &mut M,
    galley: &G,
    standing: Option<HeldTerm>,
    block: u8,
) -> Option<u64>
    ensures looked { Looked M.Matcher matcher.old (G.Galley.text galley.now) (option_map term_of standing) block result matcher.new }
{
    let term = standing?;
    let n = galley.length();
    let start = 64 * block as usize;
    if start >= n {
        return None;
    }
    let bytes = term.bytes();
    matcher.prepare(bytes, term.limit()).ok()?;
    let len = (63 + bytes.len()).min(n - start);
    // an array cut to its length, since no call may allocate and a fetch fills what it is lent
    let mut buffer = [0u8; 127];
    seek(matcher, galley, start, &mut buffer[0..len])
}

// What the prepared matcher finds in the stretch of the text from `start` on that is as long as the buffer.
fn seek<M: Matcher, G: Galley>(
    matcher: &M,
    galley: &G,
    start: usize,
    stretch: &mut [u8],
) -> Option<u64>
    ensures sought { Sought (M.Matcher.held matcher.now) (G.Galley.text galley.now) start (length stretch.old) result }
{
    galley.fetch(start, stretch).ok()?;
    matcher.scan(stretch).ok()
}
