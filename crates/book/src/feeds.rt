// Where the pages of a text begin.
ghost use Rattle.std.specs.Prelude.{◌≡◌, IfOk};
ghost use Rattle.book.specs.Pages.{behind_feeds};

use std::alloc::{AllocError, Global};

// The places behind the text's form feeds.
pub fn page_starts(heap: Global, text: &[u8]) -> Result<Vec<usize>, AllocError>
    ensures made { IfOk result (λ v. v.items ≡ behind_feeds 0 text.now) }
{
    let mut starts = Vec::new(heap);
    for (at, b) in text.iter().enumerate() {
        if *b == 12 {
            starts.push(at + 1)?;
        }
    }
    Ok(starts)
}
